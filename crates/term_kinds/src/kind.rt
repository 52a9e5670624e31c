// The kind of one term.
ghost use Rattle.std.specs.Prelude.{◌≡◌};
ghost use Rattle.entailment.specs.Terms.{Term};
ghost use Rattle.names.specs.Calls.{term_of};
ghost use Rattle.embedding.specs.Kinds.{kind as kind_for_embedding};
ghost use Rattle.closing.specs.Kinds.{kind as kind_for_closing};

use crate::position::is_position;
use closing::kinds::TermKind;
use embedding::kind::Kind;
use names::View;

// Kinds that terms are of.
pub(crate) trait KindOfTerm: Copy {
    // the kind of a term
    ghost kind: { Term → Self };

    fn of(view: View) -> Self
        ensures { result ≡ kind (term_of view.entry) };
}

impl KindOfTerm for Kind {
    ghost kind = { kind_for_embedding };

    fn of(view: View) -> Kind {
        match view {
            View::Iri(_) => Kind::Iri,
            View::Literal(_) => Kind::Literal,
            View::Blank => Kind::Blank,
        }
    }
}

impl KindOfTerm for TermKind {
    ghost kind = { kind_for_closing };

    fn of(view: View) -> TermKind {
        match view {
            View::Iri(spelling) if is_position(spelling) => TermKind::Position,
            View::Iri(_) | View::Literal(_) => TermKind::Name,
            View::Blank => TermKind::Blank,
        }
    }
}
