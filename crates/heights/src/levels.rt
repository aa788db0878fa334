// A function's code: the places that some answers bring a run to are searched, each marked with one more than its height; then every marked place is
// held against its instruction and against the places after it.
ghost use Rattle.std.specs.Prelude.{◌≡◌, ◌≤◌, ◌<◌, length, drop, get_or};
ghost use Rattle.definitions.specs.Instruction.{instr, flow};
ghost use Rattle.definitions.specs.Search.{Swept};
ghost use Rattle.definitions.specs.Heights.{mark_after, by_height, is_next, are_level, heights_hold};
ghost use Rattle.reader.specs.View.{instructions_of};
ghost use Rattle.run.specs.Tables.{Coded, PlacesFilled};
ghost use Rattle.search.specs.View.{marks_of, Searchable};
ghost use Rattle.heights.specs.Holding.{Standing, level_at};

use numerals::op_bytes::{JUMP, RETURN};
use reader::{instruction_at, jump_target};
use run::{fill_places, goes_on};
use search::{MARKS, Marks, Table, begin};
use widths::{height_after, popped};

// A function has fewer instructions.
const MOST_PLACES: usize = 65536;

// The mark of place 0: a height of 0.
const ROOT: u32 = 1;

// The mark of the places after place p, by its own.
fn mark_after(code: &[u8], places: &[u32], p: usize, mark: u32) -> u32
    requires { Standing code.now places.now p × (0 < mark) × (mark < 1048576) }
    ensures { result ≡ mark_after (instructions_of code.now) mark p }
{
    let Some(found) = instruction_at(code, places[p] as usize) else {
        return ROOT;
    };
    ROOT + height_after(found.op as usize, found.a, found.b, (mark - 1) as u64) as u32
}

// The search of n places: afterwards those that some answers bring a run to are marked with one more than the height at which they were met first.
fn climb(code: &[u8], places: &[u32], area: &mut [u32], n: usize)
    requires { Searchable code.now places.now area.old n }
    ensures { Swept (by_height (instructions_of code.now)) (instructions_of code.now) (marks_of n area.new) }
{
    begin(area, n, ROOT);
    let mut table = Table { area, tail: 1 };
    let mut head = 0;
    // The queue grows while its places are gone through: there is no range to go over.
    while head < table.tail {
        let p = table.area[head] as usize;
        let mark = mark_after(code, places, p, table.area[MARKS + p]);
        let marks = Marks {
            on: mark,
            no: mark,
            yes: mark,
        };
        table.expand(code, places, p, marks);
        head += 1;
    }
}

// The mark of a place, 0 past the area's end.
fn mark_at(area: &[u32], q: u64) -> u64
    ensures { (result ≡ get_or (drop 65536 area.now) q 0) × (result < 4294967296) }
{
    if area.len() <= MARKS {
        return 0;
    }
    if (area.len() - MARKS) as u64 <= q {
        return 0;
    }
    area[MARKS + q as usize] as u64
}

// Whether the places after place p have a mark, by p's opcode and operand.
fn are_next(area: &[u32], op: u8, a: u64, p: u64, mark: u64) -> bool
    requires { p < 65536 }
    ensures { result ≡ is_next (flow op) (instr op a 0) p mark (drop 65536 area.now) }
{
    if op == RETURN {
        return true;
    }
    if goes_on(op) {
        return mark_at(area, p + 1) == mark;
    }
    let to = jump_target(p, a);
    if op == JUMP {
        return mark_at(area, to) == mark;
    }
    if mark_at(area, p + 1) != mark {
        return false;
    }
    mark_at(area, to) == mark
}

// Whether place p, where it is marked, pops no more than is there, leaves no more than the number, and the places after it have the mark of what it leaves.
fn is_level(code: &[u8], places: &[u32], area: &[u32], p: usize, number: u64) -> bool
    requires { Standing code.now places.now p }
    ensures { result ≡ level_at code.now area.now number p }
{
    let mark = mark_at(area, p as u64);
    if mark == 0 {
        return true;
    }
    let Some(found) = instruction_at(code, places[p] as usize) else {
        return true;
    };
    let op = found.op as usize;
    if mark - 1 < popped(op, found.a, found.b) {
        return false;
    }
    let left = height_after(op, found.a, found.b, mark - 1);
    if number < left {
        return false;
    }
    are_next(area, found.op, found.a, p as u64, left + 1)
}

// Whether every one of n places is so.
fn are_level(code: &[u8], places: &[u32], area: &[u32], n: usize, number: u64) -> bool
    requires { Coded code.now × PlacesFilled code.now places.now × (n ≡ length (instructions_of code.now)) }
    ensures { result ≡ are_level number (drop 65536 area.now) 0 (instructions_of code.now) }
{
    for p in 0..n {
        if !is_level(code, places, area, p, number) {
            return false;
        }
    }
    true
}

// Whether the heights of a function's code of n instructions hold with a number; the area keeps the search's table.
pub(crate) fn code_holds(code: &[u8], n: usize, number: u64, area: &mut [u32]) -> bool
    requires { Coded code.now × (n ≡ length (instructions_of code.now)) × (131072 ≤ length area.old) }
    ensures { result ≡ heights_hold number (instructions_of code.now) }
{
    let mut places = [0u32; MOST_PLACES];
    fill_places(code, &mut places);
    climb(code, &places, area, n);
    are_level(code, &places, area, n, number)
}
