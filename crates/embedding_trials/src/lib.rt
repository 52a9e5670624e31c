// Tests of the search for embeddings, and of the stack under it: the proved code, compiled and run.
#![tactic(auto)]

#[cfg(test)]
mod goals;
#[cfg(test)]
mod piles;
