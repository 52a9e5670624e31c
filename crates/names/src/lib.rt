// The terms of a book in fixed memory: the thirty that every book begins with, and after them names with their spellings, and
// blanks.
#![tactic(auto)]

mod refusal;
mod span;
mod table;
mod view;
mod vocabulary;

pub use refusal::Refusal;
pub use table::Names;
pub use view::View;
