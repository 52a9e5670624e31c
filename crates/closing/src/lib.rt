// Filling any store with the closure: from a regime, the kinds of a book's terms and its kept triples, the store comes to hold
// the least set, or the call says that it cannot.
#![tactic(auto)]

pub mod closing;
pub mod kinds;
mod passes;
pub mod refusal;
mod rows;
mod starts;
mod vocabulary;
