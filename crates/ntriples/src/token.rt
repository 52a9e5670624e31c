// What is read from a line.

// A term as it stands in the text, with its brackets, quotes, tag and datatype; its bytes are a part of the text.
#[derive(Clone, Copy)]
pub enum Token<'a> {
    Iri(&'a [u8]),
    Label(&'a [u8]),
    Literal(&'a [u8]),
}

// An item with the offset where it began, counted from the document's first byte.
#[derive(Clone, Copy)]
pub struct Located<T> {
    pub item: T,
    pub offset: usize,
}

// A triple as it stands in the text.
#[derive(Clone, Copy)]
pub struct Statement<'a> {
    pub subject: Located<Token<'a>>,
    pub predicate: Located<Token<'a>>,
    pub object: Located<Token<'a>>,
}

// What a line that can be read holds.
#[derive(Clone, Copy)]
pub enum Line<'a> {
    Triple(Located<Statement<'a>>),
    Comment,
    Empty,
}
