// The states of a book.

// Closed from a served close until the next open.
#[derive(Clone, Copy, PartialEq, Eq, Debug)]
pub enum State {
    Unclosed,
    Closed,
}
