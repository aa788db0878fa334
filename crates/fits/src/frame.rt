// What a function's expressions and statements are gone through with.
ghost use Rattle.std.specs.Prelude.{◌≤◌, length};
ghost use Rattle.state.specs.State.{Slots};
ghost use Rattle.state.specs.Props.{slots-prop};

// A short tree, and the slots of a function in it.
#[derive(Clone, Copy)]
pub(crate) struct Frame<'a> {
    pub(crate) tree: &'a [u8],
    pub(crate) slots: &'a [u32],
    pub(crate) ghost short: { length tree.now ≤ 32768 },
    pub(crate) ghost slotted: { Slots tree.now slots.now } by { slots-prop _ _ },
}
