// Reads N-Triples line by line. Bytes in, tokens out, no copy: each token borrows its bytes from the text and
// carries the offset where it began. What a line is read as is defined by the grammar, in the crate `grammar`.

#![tactic(auto)]

mod cursor;
pub mod document;
pub mod fault;
mod form;
mod line;
mod scan;
pub mod term;
pub mod token;
