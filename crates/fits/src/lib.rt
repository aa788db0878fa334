// Question 14: each function that is lowered has at most 255 slots. The walk of a tree, an expression or a statement at a time.
#![tactic(auto)]

mod expressions; // expressions.rt: expressions
mod frame; // frame.rt: what they are gone through with
pub mod statements; // statements.rt: statements and trees
