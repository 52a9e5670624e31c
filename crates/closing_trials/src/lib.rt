// Tests of closing over the stores, in a crate of their own so that the crates they test are not proved twice.
#![tactic(auto)]

#[cfg(test)]
mod expected;
#[cfg(test)]
mod halls;
