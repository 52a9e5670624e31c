// The ledger of a book in fixed memory. Each call takes it on by the step that the ledger has for it.
#![tactic(auto)]

mod naming;
mod register;

pub use register::Register;
