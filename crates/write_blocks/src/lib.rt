// Laws of blocks, branches and loops written with each jump final: how the writing goes on from one part to the next, and what it leaves.
#![tactic(auto)]

ghost use Rattle.std.specs.Prelude.{◌≤◌};

// The place in its function where a loop starts, and the place after it.
#[derive(Clone, Copy)]
pub struct Loop {
    pub start: u32,
    pub end: u32,
    pub ghost few: { «end» ≤ 32767 },
}
