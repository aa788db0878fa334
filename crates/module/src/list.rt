// Lists: the count of their elements in two bytes, then the bytes of each.
ghost use Rattle.std.specs.Prelude.{◌≡◌, ◌≤◌, ◌<◌, ◌^◌, List, [], ℕ, length, get_or};
ghost use Rattle.writing.specs.Wrote.{Wrote};
ghost use Rattle.module.specs.Sections.{counted_list};

use writing::numbers::write_number;

// How many bytes the count of a list has.
const COUNT_BYTES: usize = 2;

// What a list holds: how many elements, and the bytes of each.
pub(crate) trait Listed {
    ghost elements: { Self → List (List ℕ) };

    fn count(&self) -> usize
        ensures { result ≡ length (elements self.now) };

    fn size_at(&self, i: usize) -> usize
        requires { i < length (elements self.now) }
        ensures { result ≡ length (get_or (elements self.now) i []) };

    fn write_at(&self, i: usize, out: &mut [u8]) -> usize
        requires { (i < length (elements self.now)) × (length (get_or (elements self.now) i []) ≤ length out.old) }
        ensures { Wrote result (get_or (elements self.now) i []) out.old out.new };
}

// The bytes of a list.
pub(crate) fn list_size<L: Listed>(list: &L) -> usize
    requires { length (counted_list (L.elements list.now)) < 2 ^ 63 }
    ensures { result ≡ length (counted_list (L.elements list.now)) }
{
    let mut size = COUNT_BYTES;
    for i in 0..list.count() {
        size += list.size_at(i);
    }
    size
}

pub(crate) fn write_list<L: Listed>(list: &L, out: &mut [u8]) -> usize
    requires { length (counted_list (L.elements list.now)) ≤ length out.old }
    ensures { Wrote result (counted_list (L.elements list.now)) out.old out.new }
{
    let n = list.count();
    let mut at = write_number(COUNT_BYTES, n as u64, out);
    for i in 0..n {
        at += list.write_at(i, &mut out[at..]);
    }
    at
}
