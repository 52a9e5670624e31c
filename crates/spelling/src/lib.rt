// Canonical spellings of names: what a token denotes, spelled in the one way that RDF 1.1 N-Triples calls canonical.
// Two tokens have one spelling exactly when they denote one name.

#![tactic(auto)]

mod canonical;
mod text;
mod writer;

pub use canonical::{TooLong, is_lawful, spell};

// The most bytes that a spelling may have.
pub const LONGEST: usize = 255;
