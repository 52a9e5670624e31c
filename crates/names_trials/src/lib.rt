// Tests of the table of names at its bounds, in a crate of their own so that the crates they test are not proved twice.
#![tactic(auto)]

#[cfg(test)]
mod bounds;
