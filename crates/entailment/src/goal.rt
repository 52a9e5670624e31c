// Goals.
use triples::triple::TermNumber;

// A position of a goal's row: a name of the book by its number, or a goal blank by its own.
#[derive(Clone, Copy, PartialEq, Eq, Debug)]
pub enum Position {
    Name(TermNumber),
    Blank(u8),
}

// A row of a goal.
#[derive(Clone, Copy)]
pub struct GoalRow {
    pub subject: Position,
    pub predicate: Position,
    pub object: Position,
}
