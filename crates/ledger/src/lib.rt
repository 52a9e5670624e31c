// The ledger: what a book holds, computed from its calls alone; and what each call answers by it. The code is the words of the
// answers and the laws of the ledger.
#![tactic(auto)]

pub mod fault;
pub mod laws;
pub mod mark;
pub mod refusal;
