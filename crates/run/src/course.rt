// A run's course: straight on as far as it goes, then a jump, a question, a Return or an ending, and so on to its end.
ghost use Rattle.std.specs.Prelude.{◌≡◌, ◌≤◌, ◌<◌, eqb, set};
ghost use Rattle.definitions.specs.Run as Run;
ghost use Rattle.reader.specs.View.{instructions_of};
ghost use Rattle.run.specs.Tables.{Coded, PlacesFilled, Stops};
ghost use Rattle.run.specs.Pass.{ReachesStop, Copied, Stands, Goes, AtStop, Asks, Turns, RunPasses};

use crate::{Ending, Ran};
use numerals::op_bytes::{JUMP, JUMP_IF_TRUE, RETURN};
use reader::{jump_target, number_at};

// Where a run stands: steps, answers used, event bytes, and the place of the next instruction.
#[derive(Clone, Copy)]
pub struct Stand {
    pub steps: u64,
    pub used: usize,
    pub written: usize,
    pub place: usize,
}

// What comes after a jump, a question or a Return: the run stands elsewhere, or it is over.
#[derive(Clone, Copy)]
pub enum Turned {
    On(Stand),
    Over(Ending, Stand),
}

// What a run goes by: the code with its tables, the answers, the most steps, and the most event bytes.
#[derive(Clone, Copy)]
pub(crate) struct Course<'a> {
    pub code: &'a [u8],
    pub places: &'a [u32],
    pub stops: &'a [u32],
    pub answers: &'a [u8],
    pub budget: u64,
    pub room: usize,
    ghost coded: { Coded code.now },
    ghost begins: { PlacesFilled code.now places.now },
    ghost halts: { Stops code.now stops.now },
}

// A byte of the events, where the buffer has room for it.
fn put(events: &mut [u8], at: usize, b: u8)
    ensures { events.new ≡ set events.old at b }
{
    if at < events.len() {
        events[at] = b;
    }
}

// Some bytes of the code, where the buffer has room for them. Byte by byte, as a stretch is short: tried with copy_from_slice, and a run of
// 28 ms takes 1 ms more.
fn copy(events: &mut [u8], at: usize, bytes: &[u8])
    ensures { Copied events.old events.new at bytes.now }
{
    if bytes.len() <= events.len() && at <= events.len() - bytes.len() {
        for i in 0..bytes.len() {
            events[at + i] = bytes[i];
        }
    }
}

// The place to go straight on to: the stop, or as far as the steps left go.
fn reach(stop: usize, place: usize, left: u64) -> usize
    requires { place ≤ stop }
    ensures { ReachesStop result stop place left }
{
    if (stop - place) as u64 <= left {
        return stop;
    }
    place + left as usize
}

// Where a question goes. By branches: tried with one test whether both are the same, and a run of 28 ms takes 5 ms more, as the next place waits for it.
pub fn question_way(op: u8, x: u8, place: u64, a: u64) -> u64
    requires { place < 65536 }
    ensures { result ≡ Run.way (eqb op 30) (eqb x 1) place a }
{
    if op == JUMP_IF_TRUE {
        if x == 1 {
            jump_target(place, a)
        } else {
            place + 1
        }
    } else if x == 1 {
        place + 1
    } else {
        jump_target(place, a)
    }
}

impl Course<'_> {
    // Straight on, from where a run stands; or nothing, where the events do not fit.
    fn stretch(&self, s: Stand, events: &mut [u8]) -> Option<Stand>
        requires { Stands self.now.code.now self.now.budget self.now.room s }
        ensures { Goes result self.now.code.now self.now.budget self.now.room s events.old events.new }
    {
        let to = reach(self.stops[s.place] as usize, s.place, self.budget - s.steps);
        let p = self.places[s.place] as usize;
        let q = self.places[to] as usize;
        if self.room - s.written < q - p {
            return None;
        }
        copy(events, s.written, &self.code[p..q]);
        Some(Stand {
            steps: s.steps + (to - s.place) as u64,
            used: s.used,
            written: s.written + (q - p),
            place: to,
        })
    }

    // A question, of its opcode and operand.
    fn ask(&self, op: u8, a: u64, s: Stand, events: &mut [u8]) -> Option<Turned>
        requires { (s.place < 65536) × (s.steps < 18446744073709551615) × (s.written ≤ self.now.room) }
        ensures { Asks result op a self.now.answers.now self.now.room s events.old events.new }
    {
        if self.answers.len() <= s.used {
            return Some(Turned::Over(Ending::NoAnswer, s));
        }
        if self.room - s.written < 2 {
            return None;
        }
        let x = self.answers[s.used];
        put(events, s.written, op);
        put(events, s.written + 1, x);
        let place = question_way(op, x, s.place as u64, a);
        Some(Turned::On(Stand {
            steps: s.steps + 1,
            used: s.used + 1,
            written: s.written + 2,
            place: place as usize,
        }))
    }

    // After a stretch: the budget's end, a Return, a jump or a question; or nothing, where the events do not fit.
    fn turn(&self, s: Stand, events: &mut [u8]) -> Option<Turned>
        requires { Stands self.now.code.now self.now.budget self.now.room s × AtStop self.now.code.now self.now.budget s }
        ensures { Turns result self.now.code.now self.now.answers.now self.now.budget self.now.room s events.old events.new }
    {
        if s.steps == self.budget {
            return Some(Turned::Over(Ending::BudgetSpent, s));
        }
        let at = self.places[s.place] as usize;
        let op = self.code[at];
        if op == RETURN {
            if self.room <= s.written {
                return None;
            }
            put(events, s.written, op);
            let last = Stand {
                steps: s.steps + 1,
                used: s.used,
                written: s.written + 1,
                place: s.place,
            };
            return Some(Turned::Over(Ending::Returned, last));
        }
        let a = number_at(self.code, at + 1, 4);
        if op == JUMP {
            let to = jump_target(s.place as u64, a);
            return Some(Turned::On(Stand {
                steps: s.steps + 1,
                used: s.used,
                written: s.written,
                place: to as usize,
            }));
        }
        self.ask(op, a, s, events)
    }

    // The whole run: all the steps, and those event bytes that the buffer has room for; or nothing, where they are more than the course allows.
    // A loop, as each turn says whether there is another. By value: tried with `&self`, and a run of 28 ms takes 3 ms more, as it reads the course anew
    // after each byte that it stores.
    pub(crate) fn pass(self, events: &mut [u8]) -> Option<Ran>
        ensures { RunPasses result (Run.run self.entry.budget (instructions_of self.entry.code.now) 0 self.entry.answers.now) self.entry.room events.old events.new }
    {
        let mut s = Stand {
            steps: 0,
            used: 0,
            written: 0,
            place: 0,
        };
        loop {
            let near = self.stretch(s, events)?;
            match self.turn(near, events)? {
                Turned::On(next) => s = next,
                Turned::Over(ending, last) => {
                    return Some(Ran {
                        ending,
                        steps: last.steps,
                        used: last.used,
                        written: last.written,
                    });
                }
            }
        }
    }
}
