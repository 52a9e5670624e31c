// Triples, their codes, questions about them, and what a store of triples means. Everything above is proved once for
// every store that shows this meaning.
#![tactic(auto)]

pub mod question;
pub mod store;
pub mod triple;
