// The kinds of terms, and which positions a goal may have.
ghost use Rattle.std.specs.Prelude.{◌<◌, Decides};
ghost use Rattle.std.specs.List.{AllByRecursion};
ghost use Rattle.embedding.specs.Kinds.{goal_blanks, IsIri, IsName, SubjectAllowed, PredicateAllowed, ObjectAllowed, RowAllowed, GoalAllowed};

use entailment::goal::{GoalRow, Position};
use triples::triple::TermNumber;

// How many goal blanks there are, numbered from 0.
pub const GOAL_BLANKS: u8 = 8;

// What a term is. The kinds of a book's terms are told in a slice, the kind of number n at index n.
#[derive(Clone, Copy, PartialEq, Eq, Debug)]
pub enum Kind {
    Iri,
    Literal,
    Blank,
}

fn is_iri(number: TermNumber, kinds: &[Kind]) -> bool
    ensures { Decides result (IsIri kinds.now number) }
{
    matches!(kinds.get(usize::from(number)), Some(Kind::Iri))
}

fn is_name(number: TermNumber, kinds: &[Kind]) -> bool
    ensures { Decides result (IsName kinds.now number) }
{
    matches!(
        kinds.get(usize::from(number)),
        Some(Kind::Iri | Kind::Literal)
    )
}

fn is_goal_blank(blank: u8) -> bool
    ensures { Decides result (blank < goal_blanks) }
{
    blank < GOAL_BLANKS
}

fn subject_allowed(position: Position, kinds: &[Kind]) -> bool
    ensures { Decides result (SubjectAllowed kinds.now position) }
{
    match position {
        Position::Name(number) => is_iri(number, kinds),
        Position::Blank(blank) => is_goal_blank(blank),
    }
}

fn predicate_allowed(position: Position, kinds: &[Kind]) -> bool
    ensures { Decides result (PredicateAllowed kinds.now position) }
{
    match position {
        Position::Name(number) => is_iri(number, kinds),
        Position::Blank(_) => false,
    }
}

fn object_allowed(position: Position, kinds: &[Kind]) -> bool
    ensures { Decides result (ObjectAllowed kinds.now position) }
{
    match position {
        Position::Name(number) => is_name(number, kinds),
        Position::Blank(blank) => is_goal_blank(blank),
    }
}

// Whether a goal may have the row.
pub fn row_allowed(row: GoalRow, kinds: &[Kind]) -> bool
    ensures { Decides result (RowAllowed kinds.now row) }
{
    subject_allowed(row.subject, kinds)
        && predicate_allowed(row.predicate, kinds)
        && object_allowed(row.object, kinds)
}

// Whether there may be a goal of these rows.
pub fn goal_allowed(goal: &[GoalRow], kinds: &[Kind]) -> bool
    ensures { Decides result (GoalAllowed kinds.now goal.now) }
{
    for row in goal {
        if !row_allowed(*row, kinds) {
            return false;
        }
    }
    true
}
