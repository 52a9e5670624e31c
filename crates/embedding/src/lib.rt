// Whether a goal embeds in a store: whether some map of its goal blanks to terms puts every row into the set that the store
// means. Proved once for every store.
#![tactic(auto)]

mod bindings;
pub mod deciding;
pub mod kind;
pub mod laws;
mod prospects;
mod rows;
pub mod search;
