// Names added to slots.
ghost use Rattle.std.specs.Prelude.{◌≡◌, ◌+◌, ◌≤◌, ◌<◌, ◌^◌, length};
ghost use Rattle.definitions.specs.Bytes.{same, position};
ghost use Rattle.definitions.specs.Slots.{add};
ghost use Rattle.state.specs.State.{slots_from, slot_names, Slots};
ghost use Rattle.names.specs.Sought.{place_in};
ghost use Rattle.tree_view.specs.Places.{name_from};
ghost use Rattle.slots.specs.Slotted.{first_names, Indexed, IsBucket, Added};

use names::index::{find_from, slot_bucket, start};
use names::spell::name_part;
use numerals::places::SLOTS_FROM;

// The bucket of the name at `at`.
pub(crate) fn bucket_at(tree: &[u8], at: usize) -> usize
    ensures { IsBucket result tree.now at }
{
    slot_bucket(name_part(tree, at))
}

// The number of the slot that has the name at `at`, whose bucket is b.
pub(crate) fn slot_of(tree: &[u8], slots: &[u32], at: usize, b: usize) -> Option<usize>
    requires { Slots tree.now slots.now × IsBucket b tree.now at }
    ensures { place_in result ≡ position (same (name_from tree.now at)) (slot_names tree.now slots.now) }
{
    let k = slots[b];
    find_from(tree, &slots[SLOTS_FROM..], k, name_part(tree, at))
}

// The first n slots with the name at `at`, whose bucket is b, unless they have it: how many they are then.
// Two walks lend slots and n, which they hold: a struct of these inside each walk's is no plainer.
pub(crate) fn add_at(tree: &[u8], slots: &mut [u32], n: u32, at: usize, b: usize) -> u32
    requires { Indexed tree.now n slots.old × (slots_from + n < length slots.old) × (n ≤ 255) × (at < 2 ^ 32) × IsBucket b tree.now at }
    ensures { Added result tree.now slots.new n (add (name_from tree.now at) (first_names tree.now n slots.old)) }
{
    let k = slots[b];
    let end = SLOTS_FROM + n as usize;
    if find_from(tree, &slots[SLOTS_FROM..end], k, name_part(tree, at)).is_some() {
        return n;
    }
    let first = start(k, n as usize) as u32;
    slots[b] = first + 1;
    slots[end] = at as u32;
    n + 1
}
