// A search of the places of a function's code that some answers bring a run to. The queue stands in a work area from its start on, the marks of the
// places behind it.
#![tactic(auto)]

ghost use Rattle.std.specs.Prelude.{◌≡◌, length};
ghost use Rattle.definitions.specs.Search.{by_link, Swept};
ghost use Rattle.reader.specs.View.{instructions_of};
ghost use Rattle.search.specs.View.{table_in, marks_of, marks, at_start, Meetable, Meets, Beginning, Expandable, Expands, Searchable};

use areas::clear;
use numerals::op_bytes::{JUMP, RETURN};
use reader::{jump_target, number_at};
use run::{goes_on, question_way};

// Where the marks begin: a queue has at most 65,536 places, since a function has fewer instructions.
pub const MARKS: usize = 65536;

// The mark of place 0 where marks tell the way.
pub const ROOT: u32 = 4;

// What the places after one get as marks: straight on or by a jump, on a no, on a yes.
#[derive(Clone, Copy)]
pub struct Marks {
    pub on: u32,
    pub no: u32,
    pub yes: u32,
}

// A search's table: the work area, and how many places the queue in it has.
#[derive(Drop)]
pub struct Table<'a> {
    pub area: &'a mut [u32],
    pub tail: usize,
}

impl Table<'_> {
    // A place is met: it gets a mark and is put in the queue, unless it was met before.
    fn meet(&mut self, mark: u32, q: usize)
        requires { Meetable self.old.area.now self.old.tail q }
        ensures meets { Meets self.new.tail self.old.area.now self.new.area.now self.old.tail mark q }
        ensures long { length self.new.area.now ≡ length self.old.area.now }
        ensures same_area { self.new.area.ghost_name ≡ self.old.area.ghost_name }
    {
        if self.area[MARKS + q] == 0 {
            self.area[self.tail] = q as u32;
            self.area[MARKS + q] = mark;
            self.tail += 1;
        }
    }

    // The places after p, each met.
    pub fn expand(&mut self, code: &[u8], places: &[u32], p: usize, m: Marks)
        requires { Expandable code.now places.now self.old.area.now self.old.tail p (marks m.on m.no m.yes) }
        ensures expands { Expands self.new.tail code.now p (marks m.on m.no m.yes) self.old.area.now self.new.area.now self.old.tail }
        ensures long { length self.new.area.now ≡ length self.old.area.now }
        ensures same_area { self.new.area.ghost_name ≡ self.old.area.ghost_name }
    {
        let at = places[p] as usize;
        let op = code[at];
        if op == RETURN {
            return;
        }
        if goes_on(op) {
            self.meet(m.on, p + 1);
            return;
        }
        let a = number_at(code, at + 1, 4);
        if op == JUMP {
            let to = jump_target(p as u64, a);
            self.meet(m.on, to as usize);
            return;
        }
        let to_no = question_way(op, 0, p as u64, a);
        let to_yes = question_way(op, 1, p as u64, a);
        self.meet(m.no, to_no as usize);
        self.meet(m.yes, to_yes as usize);
    }
}

// A search of n places begins: place 0 has the mark `root` and stands in the queue alone. n counts places: the area holds queue and marks, and may be longer.
pub fn begin(area: &mut [u32], n: usize, root: u32)
    requires { Beginning area.old n }
    ensures { table_in n area.new 1 ≡ at_start n root area.old }
{
    clear(&mut area[MARKS..MARKS + n]);
    area[0] = 0;
    area[MARKS] = root;
}

// The search of n places with marks that tell the way: afterwards the marked places are those that some answers bring a run to. n counts the code's
// instructions: the table of places and the area have room for more.
pub fn sweep(code: &[u8], places: &[u32], area: &mut [u32], n: usize)
    requires { Searchable code.now places.now area.old n }
    ensures { Swept by_link (instructions_of code.now) (marks_of n area.new) }
{
    begin(area, n, ROOT);
    let mut table = Table { area, tail: 1 };
    let mut head = 0;
    // The queue grows while its places are gone through: there is no range to go over.
    while head < table.tail {
        let p = table.area[head] as usize;
        let mark = 1 + 4 * p as u32;
        let marks = Marks {
            on: mark,
            no: mark + 1,
            yes: mark + 2,
        };
        table.expand(code, places, p, marks);
        head += 1;
    }
}
