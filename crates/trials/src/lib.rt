// Tests of what no contract says, and of crates whose own check should stay short: the proved code, compiled and run.
#![tactic(auto)]

#[cfg(test)]
mod stores;
