// How many instructions a statement or a block will have, before any of it is written.
#![tactic(auto)]

pub mod begun; // begun.rt: the names of functions and classes that begin in what is measured
pub mod notes; // notes.rt: one more, and what is known with them
pub mod targets; // targets.rt: targets and assignments
pub mod blocks; // blocks.rt: statements, branches, blocks
