// Whether the names of a list are distinct (11).
// There and AllThere are said of the place that a call names, so no struct keeps them.
ghost use Rattle.std.specs.Prelude.{◌≡◌, ◌≤◌, ◌<◌, length};
ghost use Rattle.definitions.specs.Bytes.{member};
ghost use Rattle.definitions.specs.Wellformed.{distinct};
ghost use Rattle.parts.specs.Search.{turn_of, Searches, PutsName};
ghost use Rattle.tree_view.specs.Places.{name_from, names_from, There, AllThere};

use byte_tests::same_bytes;
use numerals::sizes::TREE_MOST;
use tree_view::names::{name_end, name_part};

// So many names are compared each with each.
const FEW: u32 = 32;

// What putting a name into the search tree of the names before it gives.
#[derive(Clone, Copy)]
enum Put {
    Twice,
    New,
    Lost,
}

// Whether the name at `at` is one of the n names from `from` on.
fn occurs(tree: &[u8], at: usize, from: usize, n: u32) -> bool
    requires { There tree.now at × AllThere tree.now n from }
    ensures { result ≡ member (name_from tree.now at) (names_from tree.now n from) }
{
    let mut p = from;
    for _ in 0..n {
        if same_bytes(name_part(tree, at), name_part(tree, p)) {
            return true;
        }
        p = name_end(tree, p);
    }
    false
}

// 11: whether no name stands twice among the n names at `at`; each is compared with all after it.
fn distinct_few(tree: &[u8], at: usize, n: u32) -> bool
    requires { AllThere tree.now n at }
    ensures { result ≡ distinct (names_from tree.now n at) }
{
    let mut p = at;
    for after in (0..n).rev() {
        let next = name_end(tree, p);
        if occurs(tree, p, next, after) {
            return false;
        }
        p = next;
    }
    true
}

// The turn of the name at `at` at depth `k`: its bit `k`, 0 past its end.
fn turn(tree: &[u8], at: usize, k: usize) -> usize
    requires { There tree.now at }
    ensures { (result ≡ turn_of (name_from tree.now at) k) × (result < 2) }
{
    let name = name_part(tree, at);
    let i = k / 8;
    if name.len() <= i {
        return 0;
    }
    (usize::from(name[i]) >> (k % 8)) % 2
}

// Puts the name at `at` into the table, which has the `count` names from `root` on: at most so many are met. An entry is a position in two bytes,
// 0 for none: an Option would take four, and the table 128 KB of the stack in the place of 64.
fn put_name(tree: &[u8], table: &mut [u16; 32769], root: usize, count: u32, at: usize) -> Put
    requires { Searches tree.now table.old root (names_from tree.now count root) × There tree.now at × (at < 32768) × (0 < at) }
    ensures { PutsName result tree.now table.new root (names_from tree.now count root) (name_from tree.now at) }
{
    let mut p = root;
    for k in 0..count as usize {
        if same_bytes(name_part(tree, p), name_part(tree, at)) {
            return Put::Twice;
        }
        let slot = p + turn(tree, at, k);
        let next = table[slot] as usize;
        if next == 0 {
            table[slot] = at as u16;
            return Put::New;
        }
        p = next;
    }
    Put::Lost
}

// 11, of many names: by a search tree.
fn distinct_many(tree: &[u8], at: usize, n: u32) -> bool
    requires { AllThere tree.now n at × (0 < n) × (0 < at) × (length tree.now ≤ 32768) }
    ensures { result ≡ distinct (names_from tree.now n at) }
{
    let mut table = [0u16; 32769];
    let mut p = name_end(tree, at);
    for count in 1..n {
        match put_name(tree, &mut table, at, count, p) {
            Put::New => p = name_end(tree, p),
            Put::Twice => return false,
            Put::Lost => return distinct_few(tree, at, n),
        }
    }
    true
}

// 11: whether no name stands twice among the n names at `at`.
pub(crate) fn distinct_names(tree: &[u8], at: usize, n: u32) -> bool
    requires { AllThere tree.now n at }
    ensures { result ≡ distinct (names_from tree.now n at) }
{
    if n <= FEW || at == 0 || TREE_MOST < tree.len() {
        return distinct_few(tree, at, n);
    }
    distinct_many(tree, at, n)
}
