// A triple store that keeps its records in a lent slice, in the order of arrival.
#![tactic(auto)]

pub mod records;
pub mod store;
