// What the calls for other languages answer: numbers.
#![tactic(auto)]

ghost use Rattle.std.specs.Prelude.{◌≡◌, ◌+◌, ◌*◌, ◌^◌, ◌≤◌};
ghost use Rattle.told.specs.Tells.{asked_as_number, counted_as_number, found, placed, RoomToTell, FewFound, four_in, counts_in};

use questions::Question;
use run::Ran;
use std::cmp::Ordering;

// What a call that writes adds to the count of bytes written: a refusal is below it.
const WROTE: u64 = 4294967296;

// Where the first of two comes: before the second, with it, after it.
const BEFORE: u64 = 4294967296;

const WITH: u64 = 4294967297;

const AFTER: u64 = 4294967298;

// That there is nothing to write: no answers, or no refusal.
const NONE: u64 = 8589934592;

// 0, or the number of the first question that is answered no.
#[tactic(auto, unfolding(crate::specs::Tells::asked_as_number))]
pub fn tell<T: Copy>(answer: Result<T, Question>) -> u32
    ensures { result ≡ asked_as_number answer }
{
    match answer {
        Ok(_) => 0,
        Err(first) => first.number(),
    }
}

// 2^32 plus the count of bytes written; or the number of the first question that is answered no.
#[tactic(auto, unfolding(crate::specs::Tells::counted_as_number))]
pub fn tell_count(answer: Result<usize, Question>) -> u64
    requires { RoomToTell answer }
    ensures { result ≡ counted_as_number answer }
{
    match answer {
        Ok(written) => WROTE + written as u64,
        Err(question) => question.number() as u64,
    }
}

// A part of a module, which is at most 524,288 bytes: its start times 2^32 plus its length.
pub fn tell_part(start: usize, size: usize) -> u64
    requires { start + size ≤ 524288 }
    ensures { result ≡ start * 2 ^ 32 + size }
{
    start as u64 * WROTE + size as u64
}

// A run: 0, with its ending, steps, answers used and count of event bytes in `numbers`; or the number of the first question that is answered no, with four
// zeros there. Where `numbers` is shorter than four it is left as it was.
pub fn tell_run(answer: Result<Ran, Question>, numbers: &mut [u64]) -> u32
    ensures answer { result ≡ asked_as_number answer }
    ensures counts { numbers.new ≡ counts_in answer numbers.old }
{
    match answer {
        Ok(ran) => {
            let ending = ran.ending.number() as u64;
            put_four(
                numbers,
                ending,
                ran.steps,
                ran.used as u64,
                ran.written as u64,
            );
            0
        }
        Err(question) => {
            put_four(numbers, 0, 0, 0, 0);
            question.number()
        }
    }
}

// What may be none, answers that bring a run to a place or a refused tree cut down: 2^32 plus the count of bytes; 2^33 for none; or the number of the first
// question that is answered no.
#[tactic(auto, unfolding(crate::specs::Tells::found))]
pub fn tell_found(answer: Result<Option<usize>, Question>) -> u64
    requires { FewFound answer }
    ensures { result ≡ found answer }
{
    match answer {
        Ok(Some(count)) => WROTE + count as u64,
        Ok(None) => NONE,
        Err(asked) => asked.number() as u64,
    }
}

// Where the first of two comes in an order: 2^32 before the second, 1 more with it, 2 more after it; or the number of the first question that is answered
// no.
#[tactic(auto, unfolding(crate::specs::Tells::placed))]
pub fn tell_order(answer: Result<Ordering, Question>) -> u64
    ensures { result ≡ placed answer }
{
    match answer {
        Ok(Ordering::Less) => BEFORE,
        Ok(Ordering::Equal) => WITH,
        Ok(Ordering::Greater) => AFTER,
        Err(of_two) => of_two.number() as u64,
    }
}

// Four numbers from the start on, where there is room for all.
fn put_four(numbers: &mut [u64], a: u64, b: u64, c: u64, d: u64)
    ensures { numbers.new ≡ four_in a b c d numbers.old }
{
    if numbers.len() < 4 {
        return;
    }
    numbers[0] = a;
    numbers[1] = b;
    numbers[2] = c;
    numbers[3] = d;
}
