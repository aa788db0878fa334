// The run of each case of tests/vectors/runs.txt. The event buffer is a part of a longer one, and each has its pattern before the call.
#![tactic(auto)]

use questions::Question;
use report::Hex;
use run::Ran;
use std::io::{Read, Result as IoResult};
use vectors::Lines;

const MODULE_ROOM: usize = 4096;

const ANSWER_ROOM: usize = 64;

const EVENT_ROOM: usize = 65600;

// Where the pattern begins anew.
const PATTERN: usize = 251;

// What stands at a place before a call.
fn pattern(i: usize) -> u8 {
    (i % PATTERN) as u8
}

fn fill(events: &mut [u8]) {
    for (i, event) in events.iter_mut().enumerate() {
        *event = pattern(i);
    }
}

// Whether the bytes from `from` on have their pattern. By a chain with `skip` and `all` a replay takes a quarter longer.
fn is_kept(events: &[u8], from: usize) -> bool {
    for i in from..events.len() {
        if events[i] != pattern(i) {
            return false;
        }
    }
    true
}

// The answer, and `touched` where the events after those that it counts have changed.
fn answer(rt: &impl Print, outcome: Result<Ran, Question>, events: &[u8]) -> IoResult<()> {
    let count = match outcome {
        Ok(ran) => {
            print!(rt;
                "{} {} {} {}",
                ran.ending.number(),
                ran.steps,
                ran.used,
                Hex(&events[..ran.written.min(events.len())])
            )?;
            ran.written
        }
        Err(question) => {
            print!(rt; "refused {question}")?;
            0
        }
    };
    rt.println(if is_kept(events, count) {
        ""
    } else {
        " touched"
    })
}

// What a case asks for: the run of a function on answers with a budget, and how many bytes of events there is room for.
#[derive(Clone, Copy)]
struct Case<'a> {
    module: &'a [u8],
    function: u64,
    answers: &'a [u8],
    budget: u64,
    room: usize,
}

// A case by its fields, where there is room for it.
fn read<'a, R: Read>(
    lines: &mut Lines<R>,
    module: &'a mut [u8],
    answers: &'a mut [u8],
) -> Option<Case<'a>> {
    Some(Case {
        module: lines.hex_field(module)?,
        function: lines.decimal_field()?,
        answers: lines.hex_field(answers)?,
        budget: lines.decimal_field()?,
        room: usize::try_from(lines.decimal_field()?).ok()?,
    })
}

// The run of one case.
fn replay<R: Read>(rt: &impl Print, lines: &mut Lines<R>) -> IoResult<()> {
    let mut module = [0u8; MODULE_ROOM];
    let mut answers = [0u8; ANSWER_ROOM];
    let Some(case) = read(lines, &mut module, &mut answers) else {
        return rt.println("not read");
    };
    let mut buffer = [0u8; EVENT_ROOM];
    fill(&mut buffer);
    let Some(events) = buffer.get_mut(..case.room) else {
        return rt.println("not read");
    };
    let outcome = run::run(
        case.module,
        case.function,
        case.answers,
        case.budget,
        events,
    );
    answer(rt, outcome, &buffer)
}

fn main(rt: HostRuntime) -> IoResult<()> {
    Lines::new(rt.stdin()).each_case(|lines| replay(&rt, lines))
}
