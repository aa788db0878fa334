// The index of slots, made anew.
ghost use Rattle.std.specs.Prelude.{◌+◌, ◌≤◌, ◌≡◌, length};
ghost use Rattle.state.specs.Index.{Covered};
ghost use Rattle.state.specs.State.{slots_from, names_at};
ghost use Rattle.slots.specs.Slotted.{Appended};

use crate::add::bucket_at;
use numerals::places::SLOTS_FROM;

// The index of the names at these places.
pub(crate) fn index_places(tree: &[u8], index: &mut [u32], places: &[u32])
    requires { (length index.old ≡ slots_from) × (length places.now ≤ 255) }
    ensures { Covered slots_from index.new 0 (names_at tree.now places.now) }
{
    for j in (0..places.len()).rev() {
        let b = bucket_at(tree, places[j] as usize);
        index[b] = j as u32 + 1;
    }
}

// More slots from place `from` on, and the index of all.
pub(crate) fn append_slots(tree: &[u8], slots: &mut [u32], from: u32, more: &[u32])
    requires { (from + length more.now ≤ 255) × (slots_from + 256 ≤ length slots.old) }
    ensures { Appended tree.now from more.now slots.old slots.new }
{
    let (index, places) = slots.split_at_mut(SLOTS_FROM);
    let end = from as usize + more.len();
    places[from as usize..end].copy_from_slice(more);
    index_places(tree, index, &places[..end]);
}
