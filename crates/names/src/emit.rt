// The slot of a name.
ghost use Rattle.std.specs.Prelude.{◌≡◌};
ghost use Rattle.definitions.specs.Bytes.{same, position};
ghost use Rattle.state.specs.Words.{name_at};
ghost use Rattle.state.specs.State.{slot_names, Slots};
ghost use Rattle.names.specs.Sought.{place_in};

use crate::index::{find_from, slot_bucket};
use crate::spell::name_part;
use numerals::places::SLOTS_FROM;

// The slot of the name at `at`.
pub fn find_slot(tree: &[u8], slots: &[u32], at: usize) -> Option<u32>
    requires { Slots tree.now slots.now }
    ensures { place_in result ≡ position (same (name_at tree.now at)) (slot_names tree.now slots.now) }
{
    let name = name_part(tree, at);
    let k = slots[slot_bucket(name)];
    let slot = find_from(tree, &slots[SLOTS_FROM..], k, name)?;
    Some(slot as u32)
}
