// Runs a function of the module on standard input. Arguments: the function's number, the answers as a word of 0 and 1 or `-`, the budget.
#![tactic(auto)]

ghost use Rattle.std.specs.Prelude.{length, ◌≡◌};

use digits::decimal_of;
use input::{arg, read_full};
use questions::Question;
use report::Hex;
use run::{Ending, Ran};
use std::env::FillError;
use std::io::{Read, Result as IoResult};
use std::rt::Env;

// The bytes of an argument that is a number, and of the answers, at the most.
const DIGITS: usize = 20;

const WORD: usize = 65536;

// The answers of a word of 0 and 1, or of `-`, which has none.
fn answers_of<'a>(word: &[u8], answers: &'a mut [u8]) -> Option<&'a [u8]> {
    if matches!(word, b"-") {
        return Some(b"");
    }
    for (answer, character) in answers.iter_mut().zip(word) {
        *answer = match character {
            b'0' => 0,
            b'1' => 1,
            _ => return None,
        };
    }
    answers.get(..word.len())
}

// Whether argument i is there.
fn has_arg(rt: &impl Env, i: usize) -> bool {
    !matches!(arg(rt, i, &mut [0; 1]), Err(FillError::NotPresent))
}

// An argument that is a number.
fn number_argument(rt: &impl Env, i: usize) -> Option<u64> {
    arg(rt, i, &mut [0; DIGITS]).ok().and_then(decimal_of)
}

fn ending_name(ending: Ending) -> &'static str {
    match ending {
        Ending::Returned => "returned",
        Ending::NoAnswer => "no answer left",
        Ending::BudgetSpent => "budget spent",
    }
}

fn answer(rt: &impl Print, outcome: Result<Ran, Question>, events: &[u8]) -> IoResult<()> {
    match outcome {
        Ok(ran) => {
            println!(rt;
                "ending: {} ({})",
                ran.ending.number(),
                ending_name(ran.ending)
            )?;
            println!(rt; "steps: {}", ran.steps)?;
            println!(rt; "answers used: {}", ran.used)?;
            println!(rt; "events: {}", Hex(&events[..ran.written.min(events.len())]))
        }
        Err(question) => println!(rt; "refused {question}"),
    }
}

fn event_buffer() -> [u8; 524288]
    ensures { 524288 ≡ length result }
{
    [0; 524288]
}

// One byte more than the longest module, so that a longer one is refused.
fn module_buffer() -> [u8; 524289]
    ensures { 524289 ≡ length result }
{
    [0; 524289]
}

// The run of the function f of the module on the input.
fn run_input<R: Read>(
    rt: &impl Print,
    input: &mut R,
    f: u64,
    answers: &[u8],
    budget: u64,
) -> IoResult<()> {
    let mut module = module_buffer();
    let mut events = event_buffer();
    let outcome = run::run(
        read_full(input, &mut module),
        f,
        answers,
        budget,
        &mut events,
    );
    answer(rt, outcome, &events)
}

// The run on the answers of the second argument.
fn run_with<P: Env + Print + Eprint, R: Read>(
    rt: &P,
    input: &mut R,
    f: u64,
    budget: u64,
) -> IoResult<()> {
    let mut buffer = [0u8; WORD];
    let word = match arg(rt, 2, &mut buffer) {
        Err(_) | Ok([]) => {
            return rt.eprintln(
                "run_module: the answers are a word of at most 65,536 characters, or -",
            );
        }
        Ok(word) => word,
    };
    match answers_of(word, &mut [0; WORD]) {
        Some(answers) => run_input(rt, input, f, answers, budget),
        None => rt.eprintln("run_module: each answer is 0 or 1"),
    }
}

fn main(rt: HostRuntime) -> IoResult<()> {
    if !has_arg(&rt, 3) || has_arg(&rt, 4) {
        return rt.eprintln("usage: run_module FUNCTION ANSWERS BUDGET < MODULE");
    }
    let Some(f) = number_argument(&rt, 1) else {
        return rt.eprintln("run_module: the function is a number below 2^64");
    };
    let Some(budget) = number_argument(&rt, 3) else {
        return rt.eprintln("run_module: the budget is a number below 2^64");
    };
    run_with(&rt, &mut rt.stdin(), f, budget)
}
