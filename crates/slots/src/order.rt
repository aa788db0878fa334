// Names in byte order.
ghost use Rattle.std.specs.Prelude.{◌≡◌, ◌<◌, length, drop, get_or};
ghost use Rattle.definitions.specs.Slots.{insert, sort};
ghost use Rattle.state.specs.Words.{name_at};
ghost use Rattle.state.specs.State.{names_at};
ghost use Rattle.slots.specs.Order.{NamesInOrder, SpotInOrder};

use byte_tests::below_bytes;
use names::spell::name_part;

// How many of the names after the first, which are in order, the first does not come before.
fn find_spot(tree: &[u8], places: &[u32]) -> usize
    requires { (0 < length places.now) × NamesInOrder (names_at tree.now (drop 1 places.now)) }
    ensures { SpotInOrder tree.now (get_or places.now 0 0) places.now result }
{
    let name = name_part(tree, places[0] as usize);
    places[1..].partition_point(|w| !below_bytes(name, name_part(tree, *w as usize)))
}

// The first name is put where it belongs among the others, which are in order.
fn insert_first(tree: &[u8], places: &mut [u32])
    requires { (0 < length places.old) × NamesInOrder (names_at tree.now (drop 1 places.old)) }
    ensures { names_at tree.now places.new ≡ insert (name_at tree.now (get_or places.old 0 0)) (names_at tree.now (drop 1 places.old)) }
{
    let spot = find_spot(tree, places);
    places[..=spot].rotate_left(1);
}

// The names are put in order.
pub(crate) fn sort_names(tree: &[u8], places: &mut [u32])
    ensures { names_at tree.now places.new ≡ sort (names_at tree.now places.old) }
{
    for i in (0..places.len()).rev() {
        insert_first(tree, &mut places[i..]);
    }
}
