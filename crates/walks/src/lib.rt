// Code over any triple store, proved once for all of them: walks through the triples in the order of their codes.
#![tactic(auto)]

pub mod copying;
pub mod counting;
pub mod step;
pub mod walk;
