// A triple store with a bit for every triple inside its side.
#![tactic(auto)]

pub mod cube;
mod layout;
mod search;
