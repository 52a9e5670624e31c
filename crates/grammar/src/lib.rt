// The line grammar of N-Triples, and its classes of bytes.

#![tactic(auto)]

pub mod class;
