// What follows from kept triples: the entailment patterns and the closure under them, the worlds of RDF and RDFS, and the
// theorem between the two. A theorem is the contract of a function with an empty body: `theorems` has the one on worlds,
// `laws` the laws of the closure, `examples` the verdicts on the examples of the halls.

#![tactic(auto)]

pub mod examples;
pub mod goal;
pub mod laws;
pub mod regime;
pub mod theorems;
