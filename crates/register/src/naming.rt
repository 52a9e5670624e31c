// The steps on the table of names.
ghost use Rattle.std.specs.Prelude.{◌≡◌, min, List, Option};
ghost use Rattle.triples.specs.declared.triple.Triple.{Triple};
ghost use Rattle.names.specs.Terms.{most_terms};
ghost use Rattle.ledger.specs.declared.mark.Mark.{Mark};
ghost use Rattle.ledger.specs.Spelled.{is_iri as names_iri, is_literal as names_literal};
ghost use Rattle.ledger.specs.Steps.{bytes_step, blank_step, term_in};
ghost use Rattle.ledger.specs.Texts.{Names as Naming};

use ledger::refusal::Refusal;
use names::{Names, View};
use triples::triple::TermNumber;

// The number of the name with this spelling, whatever the triples are.
pub(crate) fn intern(names: &mut Names, spelling: &[u8], side: usize) -> Result<TermNumber, Refusal>
    ensures { (ts : List Triple) (m : Option Mark) → Naming spelling.now (λ lawful. bytes_step lawful (min side most_terms) spelling.now (record { more = names.old; triples = ts; mark = m })) (record { answer = result; after = record { more = names.new; triples = ts; mark = m } }) }
{
    names.lawful();
    Ok(names.intern(spelling, side)?)
}

// A new blank, whatever the triples are.
pub(crate) fn add_blank(names: &mut Names, side: usize) -> Result<TermNumber, Refusal>
    ensures { (ts : List Triple) (m : Option Mark) → record { answer = result; after = record { more = names.new; triples = ts; mark = m } } ≡ blank_step (min side most_terms) (record { more = names.old; triples = ts; mark = m }) }
{
    Ok(names.blank(side)?)
}

// Whether the term of the number is an IRI.
#[tactic(auto, using(crate::proofs::Seeing::seen))]
pub(crate) fn is_iri(names: &Names, number: TermNumber) -> bool
    ensures { result ≡ names_iri (term_in names.now number) }
{
    match names.get(number) {
        Some(View::Iri(_)) => true,
        Some(View::Literal(_) | View::Blank) | None => false,
    }
}

// Whether it is a literal.
#[tactic(auto, using(crate::proofs::Seeing::seen))]
pub(crate) fn is_literal(names: &Names, number: TermNumber) -> bool
    ensures { result ≡ names_literal (term_in names.now number) }
{
    match names.get(number) {
        Some(View::Literal(_)) => true,
        Some(View::Iri(_) | View::Blank) | None => false,
    }
}
