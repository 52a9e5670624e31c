// What the start sets ask of a term.

// A name, a name that is a container position, or a blank.
#[derive(Clone, Copy, PartialEq, Eq, Debug)]
pub enum TermKind {
    Name,
    Position,
    Blank,
}
