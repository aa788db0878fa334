// What the lowering reads, and what it keeps in the slices lent to it.
#![tactic(auto)]

ghost use Rattle.state.specs.State.{Slots};
ghost use Rattle.state.specs.Props.{slots-prop};

// How many functions, symbols, strings, classes and instructions a module may have.
#[derive(Clone, Copy)]
pub struct Limits {
    pub functions: u32,
    pub symbols: u32,
    pub strings: u32,
    pub classes: u32,
    pub instructions: u32,
}

// How much of each table is used, and of the two halves of the code area: `open` words of functions not done yet, of which the innermost begins at
// `base`, and `done` words of finished ones. The module's writer takes these.
#[derive(Clone, Copy)]
pub struct Counts {
    pub symbols: u32,
    pub strings: u32,
    pub functions: u32,
    pub classes: u32,
    pub methods: u32,
    pub constants: u32,
    pub made: u32,
    pub base: u32,
    pub open: u32,
    pub done: u32,
}

// What a function's code is lowered in: the tree, and the function's slots.
#[derive(Clone, Copy)]
pub struct Scope<'a> {
    pub tree: &'a [u8],
    pub slots: &'a [u32],
    pub ghost slotted: { Slots tree.now slots.now } by { slots-prop _ _ },
}
