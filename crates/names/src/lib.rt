// Names and strings of the lowering: how they are spelled, found and made.
#![tactic(auto)]

pub mod index; // index.rt: an index of names
pub mod spell; // spell.rt: names and strings as parts of lent slices
pub mod find; // find.rt: the first word that stands for a name, a string or a function
pub mod number; // number.rt: the number of a symbol
pub mod making; // making.rt: names that the lowering makes
pub mod emit; // emit.rt: the slot of a name
pub mod calls; // calls.rt: the built-ins

// A name that the lowering makes: `__main__`, `__iter__`, `__has_next__`, `__next__`, the name of an iterator's global by the place of its store, and a
// lambda's by how many functions there are.
#[derive(Clone, Copy)]
pub enum Made {
    Main,
    Iter,
    HasNext,
    Next,
    Iterator(u32),
    Lambda(u32),
}
