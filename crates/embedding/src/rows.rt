// Rows of a goal under bindings: what to ask a store for, and what binding a row to a triple takes.
ghost use Rattle.std.specs.Prelude.{◌≡◌, ◌≤◌};
ghost use Rattle.triples.specs.Codes.{code_of};
ghost use Rattle.embedding.specs.Bound.{asked as asked_at, NoneBetween, pattern as pattern_of, Small, SmallRow, meet as met, unify as unified, Gives, Grows};

use crate::bindings::Bindings;
use entailment::goal::{GoalRow, Position};
use triples::question::Pattern;
use triples::triple::{TermNumber, Triple};

// A name, or the term of a goal blank that is bound.
pub(crate) fn asked(position: Position, bindings: &Bindings) -> Option<TermNumber>
    ensures { result ≡ asked_at bindings.now position }
{
    match position {
        Position::Name(name) => Some(name),
        Position::Blank(blank) => bindings.get(blank),
    }
}

// What to ask a store for at a row: every position that has a term is given.
pub(crate) fn pattern(row: GoalRow, bindings: &Bindings) -> Pattern
    ensures { result ≡ pattern_of bindings.now row }
{
    Pattern {
        subject: asked(row.subject, bindings),
        predicate: asked(row.predicate, bindings),
        object: asked(row.object, bindings),
    }
}

// Whether the position can stand for the term; a goal blank that is not bound is bound to it.
fn meet(position: Position, term: TermNumber, bindings: &mut Bindings) -> bool
    requires { Small position }
    ensures { Gives (met position term bindings.old) bindings.old bindings.new result }
{
    match position {
        Position::Name(name) => name == term,
        Position::Blank(blank) => match bindings.get(blank) {
            Some(bound) => bound == term,
            None => {
                bindings.bind(blank, term);
                true
            }
        },
    }
}

// Whether the row can be the triple; else some of its goal blanks may be bound.
fn meet_all(row: GoalRow, triple: Triple, bindings: &mut Bindings) -> bool
    requires { SmallRow row }
    ensures { Grows (unified row triple bindings.old) bindings.old bindings.new result }
{
    if !meet(row.subject, triple.subject, bindings) {
        return false;
    }
    if !meet(row.predicate, triple.predicate, bindings) {
        return false;
    }
    meet(row.object, triple.object, bindings)
}

// Whether the row can be the triple; if so, its goal blanks are bound, and else the bindings are as before.
pub(crate) fn unify(row: GoalRow, triple: Triple, bindings: &mut Bindings) -> bool
    requires { SmallRow row }
    ensures { Gives (unified row triple bindings.old) bindings.old bindings.new result }
{
    let mark = bindings.len();
    let fits = meet_all(row, triple, bindings);
    if !fits {
        bindings.truncate(mark);
    }
    fits
}

// The triple after which the next one for the row is sought, once `triple` is passed. A row with one goal blank on both sides
// is no triple whose two sides differ, so those are passed over.
pub(crate) fn pass_over(row: GoalRow, triple: Triple) -> Triple
    ensures later { code_of triple ≤ code_of result }
    ensures none { NoneBetween row triple result }
{
    if row.subject != row.object {
        return triple;
    }
    let object = if triple.object < triple.subject {
        triple.subject - 1
    } else {
        TermNumber::MAX
    };
    Triple { object, ..triple }
}
