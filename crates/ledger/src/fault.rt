// The layers of a fault.

// Where a fault of a document was found: in reading a line, in numbering a term, or in entering a triple.
#[derive(Clone, Copy, PartialEq, Eq, Debug)]
pub enum Layer {
    Reader,
    Terms,
    Triples,
}
