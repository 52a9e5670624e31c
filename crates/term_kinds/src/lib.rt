// The kinds of the terms of a table of names, as closing and embedding ask for them.
#![tactic(auto)]

mod kind;
mod kinds;
mod position;

pub use kinds::{AllKinds, KindsAfterThirty};
