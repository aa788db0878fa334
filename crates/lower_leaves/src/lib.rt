// Parts of expressions and targets that hold no expression: runs of constants, literals, the beginnings and ends of lambdas, elements of tuples.
#![tactic(auto)]

pub mod constants; // constants.rt: None, False and True, one after the other
pub mod literals; // literals.rt: a literal's instruction
pub mod closures; // closures.rt: a lambda's function and closure
pub mod elements; // elements.rt: the elements of a tuple target
