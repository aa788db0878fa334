// The slots of defs, methods and lambdas. Of each that has a name stands its name's place in the tree, the position of the length byte; before them
// an index of these names.
#![tactic(auto)]

pub mod add; // add.rt: names added to slots
pub mod index; // index.rt: the index of slots
pub mod skip; // skip.rt: where parts of the tree end
pub mod walk; // walk.rt: the walk over statements, which gives names slots
pub mod collect; // collect.rt: the slots of a def or method
pub mod order; // order.rt: names in byte order
pub mod captures; // captures.rt: the slots of a lambda
