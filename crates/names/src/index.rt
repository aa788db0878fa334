// An index of names: by a hash of its bytes, where a name is sought among others.
ghost use Rattle.std.specs.Prelude.{◌≡◌, ◌+◌, ◌≤◌, ◌<◌, length, get_or};
ghost use Rattle.state.specs.Index.{hash_of, bucket_of, seek_from};
ghost use Rattle.state.specs.State.{slots_from, names_at};
ghost use Rattle.names.specs.Sought.{place_in, sought_from};

use crate::find::find_place;
use numerals::places::{HASH_FACTOR, HASHES, SLOTS_FROM};

// A hash of 16 bits.
pub fn hash(name: &[u8]) -> u32
    ensures { (result ≡ hash_of name.now) × (result < 65536) }
{
    let mut h: u32 = 0;
    for byte in name {
        h = (h * HASH_FACTOR + *byte as u32) % HASHES;
    }
    h
}

// A name's bucket in the index of slots.
pub fn slot_bucket(name: &[u8]) -> usize
    ensures { (result ≡ bucket_of slots_from name.now) × (result < slots_from) }
{
    hash(name) as usize % SLOTS_FROM
}

// The number from which on a name is sought among n, by the word in its bucket.
pub fn start(k: u32, n: usize) -> usize
    ensures { (result ≡ seek_from k n) × (result ≤ n) }
{
    match k.checked_sub(1) {
        Some(first) if (first as usize) < n => first as usize,
        _ => n,
    }
}

// The number of a name among those at `places`, by the word k in its bucket.
pub fn find_from(tree: &[u8], places: &[u32], k: u32, name: &[u8]) -> Option<usize>
    ensures { place_in result ≡ sought_from k name.now (names_at tree.now places.now) }
{
    let from = start(k, places.len());
    Some(from + find_place(tree, &places[from..], name)?)
}

// The number from which on a name with the bucket b is sought among n.
pub fn first_number(buckets: &[u32], b: u32, n: u32) -> u32
    requires { b < length buckets.now }
    ensures { (result ≡ seek_from (get_or buckets.now b 0) n) × (result ≤ n) }
{
    start(buckets[b as usize], n as usize) as u32
}
