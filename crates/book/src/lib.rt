// The book: terms, triples, a regime and a number on top of a triple store. Each call is pinned to the ledger.
#![tactic(auto)]

mod book;
mod filling;
mod sheet;
mod state;
#[cfg(test)]
mod tests;

pub use book::Book;
pub use sheet::Sheet;
pub use state::State;
