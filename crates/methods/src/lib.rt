// The methods of a class by rising name bytes, each a word: the place of its name in the tree, and its function.
// The list stands in fixed memory (no heap), so its count stands beside it.
#![tactic(auto)]

ghost use Rattle.std.specs.Prelude.{◌≡◌, ◌+◌, ◌/◌, ◌^◌, ◌≤◌, ◌<◌, true, map, length, take};
ghost use Rattle.std.specs.List.{insert};
ghost use Rattle.definitions.specs.Reader.{rising};
ghost use Rattle.state.specs.Words.{name_at};
ghost use Rattle.state.specs.State.{method_from};
ghost use Rattle.names.specs.Parts.{begin_at, Points};
ghost use Rattle.methods.specs.Order.{Slotted, Inserted};

use byte_tests::{below_bytes, same_bytes};
use names::spell::name_part;
use numerals::places::WORD_FIRST;

// The name of a method's word: empty past the end, cut at the end.
fn method_name<'a>(tree: &'a [u8], w: u32) -> &'a [u8]
    ensures result_value { result.now ≡ name_at tree.now (w / 2 ^ 8) }
    ensures begins { Points result.ref_ptr tree.entry.ref_ptr (begin_at tree.now (w / 2 ^ 8 + 1)) }
{
    name_part(tree, (w / WORD_FIRST) as usize)
}

// The place of a name among the names of a list's methods: `Ok` that of a method with the name, `Err` that before which it goes.
fn find_slot(tree: &[u8], name: &[u8], list: &[u32]) -> Result<usize, usize>
    requires { rising (map (method_from tree.now) list.now) ≡ true }
    ensures { Slotted result tree.now name.now list.now }
{
    let place = list.partition_point(|w| below_bytes(method_name(tree, *w), name));
    if place < list.len() && same_bytes(name, method_name(tree, list[place])) {
        return Ok(place);
    }
    Err(place)
}

// The word w before place i of the first n words of a list.
fn insert_at(list: &mut [u32], n: usize, i: usize, w: u32)
    requires { (n < length list.old) × (i ≤ n) }
    ensures { take (n + 1) list.new ≡ insert (take n list.old) i w }
{
    list.copy_within(i..n, i + 1);
    list[i] = w;
}

// The method of the word w among the n methods of a list: how many there are then. Of two with one name the later stays.
pub fn insert_method(tree: &[u8], list: &mut [u32], n: u32, w: u32) -> u32
    requires { (n < length list.old) × (n < 65536) × (rising (map (method_from tree.now) (take n list.old)) ≡ true) }
    ensures { Inserted result tree.now list.new list.old n w }
{
    let count = n as usize;
    let name = method_name(tree, w);
    match find_slot(tree, name, &list[0..count]) {
        Ok(i) => {
            list[i] = w;
            n
        }
        Err(i) => {
            insert_at(list, count, i, w);
            n + 1
        }
    }
}
