// Numbers by name: kinds of a tree, opcodes, sizes of records, places in what is lent to the lowering.
#![tactic(auto)]

pub mod kinds; // kinds.rt: kinds of a tree's expressions and statements
pub mod operators; // operators.rt: operators of its expressions
pub mod ops; // ops.rt: opcodes, as words of code hold them
pub mod op_bytes; // op_bytes.rt: opcodes, as a module's bytes hold them
pub mod op_places; // op_places.rt: opcodes as places in a table
pub mod places; // places.rt: tables by their places, and the parts of words
pub mod sizes; // sizes.rt: sizes of records and of what is lent
