// The way that the marks of a search show, back from a place.
ghost use Rattle.std.specs.Prelude.{◌≡◌, ◌+◌, ◌≤◌, length};
ghost use Rattle.definitions.specs.Calls.{written};
ghost use Rattle.reach.specs.Tracing.{before_of, tag_of, answer_by, listed, way_to, Traceable, put_by};

use search::{MARKS, ROOT};

// The place before, by a mark.
fn before_of(m: u32) -> usize
    requires { 1 ≤ m }
    ensures { result ≡ before_of m }
{
    ((m - 1) / 4) as usize
}

// The answer that a mark tells: none, or a no (0) or a yes (1).
fn answer_of(m: u32) -> Option<u8>
    requires { 1 ≤ m }
    ensures { result ≡ answer_by (tag_of m) }
{
    match (m - 1) % 4 {
        0 => None,
        tag => Some((tag - 1) as u8),
    }
}

// How many answers that is.
#[tactic(auto, unfolding(crate::specs::Tracing::listed))]
fn taken(answer: Option<u8>) -> usize
    ensures { (result ≡ length (listed answer)) × (result ≤ 1) }
{
    match answer {
        None => 0,
        Some(_) => 1,
    }
}

// The steps of the way to a place, from the last one back: of each the answer that it takes, if it takes one.
#[derive(Drop)]
struct Steps<'a> {
    area: &'a [u32],
    place: usize,
}

impl<'a> Steps<'a> {
    // Those of the way to a place.
    fn to(area: &'a [u32], place: usize) -> Steps<'a>
        ensures { (result.area ≡ area.entry) × (result.place ≡ place) }
    {
        Steps { area, place }
    }
}

impl Iterator for Steps<'_> {
    ghost use Rattle.std.specs.Iterator.{at_most};
    ghost use Rattle.reach.specs.Tracing.{OnWay, Backs, steps_left};

    type Item = Option<u8>;

    ghost can_next = { OnWay };

    ghost next_gives = { Backs };

    ghost remaining = { λ s. at_most (steps_left s) };

    fn next(&mut self) -> Option<Option<u8>> {
        let mark = self.area[MARKS + self.place];
        if mark == ROOT {
            return None;
        }
        self.place = before_of(mark);
        Some(answer_of(mark))
    }
}

// How many answers there are on the way to a place.
pub(crate) fn way_length(area: &[u32], place: usize) -> usize
    requires { Traceable area.now place }
    ensures { result ≡ length (way_to area.now place) }
{
    let mut count = 0usize;
    for answer in Steps::to(area, place) {
        count += taken(answer);
    }
    count
}

// An answer before `at`, if there is one: where it stands.
#[tactic(auto, unfolding(crate::specs::Tracing::listed, crate::specs::Tracing::put_by))]
fn put_back(out: &mut [u8], at: usize, answer: Option<u8>) -> usize
    requires { (length (listed answer) ≤ at) × (at ≤ length out.old) }
    ensures { (result + length (listed answer) ≡ at) × (out.new ≡ put_by answer at out.old) }
{
    match answer {
        None => at,
        Some(answer) => {
            out[at - 1] = answer;
            at - 1
        }
    }
}

// The answers on the way to a place, of which there are `end`, at the buffer's start.
pub(crate) fn write_way(area: &[u32], place: usize, end: usize, out: &mut [u8])
    requires { Traceable area.now place × (end ≡ length (way_to area.now place)) × (end ≤ length out.old) }
    ensures { out.new ≡ written (way_to area.now place) out.old }
{
    let mut at = end;
    for answer in Steps::to(area, place) {
        at = put_back(out, at, answer);
    }
}
