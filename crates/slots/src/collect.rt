// The locals of a def or method: its parameters, then the names that its block gives a slot, then its loops.
// A short tree and the room of the slots stay clauses of what other crates call: a struct with both would be made for one call.
ghost use Rattle.std.specs.Prelude.{◌≡◌, ◌+◌, ◌≤◌, length};
ghost use Rattle.definitions.specs.Slots.{with_loops};
ghost use Rattle.tree_view.specs.Places.{names_from, AllThere, ParamsAt, params_at};
ghost use Rattle.state.specs.State.{slots_from, names_at};
ghost use Rattle.tree_view.specs.StmtAt.{block_at, BlockReads};
ghost use Rattle.slots.specs.Slotted.{Collected, Frames};

use crate::index::index_places;
use crate::walk::Gathering;
use numerals::places::SLOTS_FROM;
use numerals::sizes::SLOTS_MOST;
use tree_view::names::name_end;
use tree_view::numbers::u16_at;

// The places of the names from `at` on, as many as there is room for.
fn place_names(tree: &[u8], at: usize, places: &mut [u32])
    requires { (length tree.now ≤ 32768) × AllThere tree.now (length places.old) at }
    ensures { names_at tree.now places.new ≡ names_from tree.now (length places.old) at }
{
    let mut p = at;
    for place in places.iter_mut() {
        *place = p as u32;
        p = name_end(tree, p);
    }
}

// The slots of the parameters at `at`.
pub(crate) fn put_params(tree: &[u8], at: usize, slots: &mut [u32]) -> Option<u32>
    requires { (length tree.now ≤ 32768) × (slots_from + 256 ≤ length slots.old) × ParamsAt tree.now at }
    ensures { Collected result tree.now slots.new (params_at tree.now at).value }
{
    let count = u16_at(tree, at);
    if SLOTS_MOST < count {
        return None;
    }
    let (index, places) = slots.split_at_mut(SLOTS_FROM);
    let places = &mut places[..count as usize];
    place_names(tree, at + 2, places);
    index_places(tree, index, places);
    Some(count)
}

// How many slots of a def or method have a name, and how many there are with those of its loops.
#[derive(Clone, Copy)]
pub struct Framed {
    pub named: u32,
    pub locals: u32,
}

// The slots of a def or method, by its parameters and its block; none where there are more than 255.
pub fn collect_locals(
    tree: &[u8],
    params: usize,
    block: usize,
    depth: u32,
    slots: &mut [u32],
) -> Option<Framed>
    requires { (length tree.now ≤ 32768) × (slots_from + 256 ≤ length slots.old) × ParamsAt tree.now params × BlockReads depth tree.now block }
    ensures { Frames result tree.now slots.new (with_loops (params_at tree.now params).value (block_at depth tree.now block).value) }
{
    let n = put_params(tree, params, slots)?;
    let mut all = Gathering {
        tree,
        slots,
        n,
        loops: 0,
    };
    all.block(block, depth)?;
    let named = all.n;
    let locals = named + all.loops;
    if SLOTS_MOST < locals {
        return None;
    }
    Some(Framed { named, locals })
}
