// What stands at a position of an accepted tree, and where it ends; and what a check asks of each kind of expression and statement.
#![tactic(auto)]

pub mod names; // names.rt: names
pub mod numbers; // numbers.rt: numbers of two bytes
pub mod roles; // roles.rt: what an expression stands for
