// Answers that bring a run to a place of a function's code (R-8): questions 1, 17 to 22, 34 and 35.
#![tactic(auto)]

mod trace; // trace.rt: the way that the marks of a search show

ghost use Rattle.std.specs.Prelude.{◌≤◌, length};
ghost use Rattle.definitions.specs.Bytes.{accepted};
ghost use Rattle.definitions.specs.Reach.{sought};
ghost use Rattle.reader.specs.View.{instructions_of};
ghost use Rattle.reach.specs.Reaching.{Seekable, Tracked, Says, Gives};

use crate::trace::{way_length, write_way};
use areas::clear;
use questions::Question;
use reader::{locate, part_of};
use run::fill_places;
use search::{MARKS, sweep};
use tally::{count_code, is_question};

// A function has fewer instructions.
const MOST_PLACES: usize = 65536;

// How long the work area is at least: question 1.
pub const AREA: usize = 131072;

// The answers on the way to a marked place, and one of its own where it is a question.
fn write_answers(code: &[u8], places: &[u32], place: usize, area: &[u32], out: &mut [u8]) -> usize
    requires { Tracked code.now places.now place area.now out.old }
    ensures { Says (Ok (Some result)) (accepted (instructions_of code.now)) place out.old out.new }
{
    let count = way_length(area, place);
    write_way(area, place, count, out);
    let at = places[place] as usize;
    if !is_question(code[at]) {
        return count;
    }
    out[count] = 0;
    count + 1
}

// The search in a function's code of n instructions, and the count of answers; or nothing, where none bring a run to the place. The area keeps its table.
// n counts instructions: the code's length is in bytes.
fn reach_code(
    code: &[u8],
    n: usize,
    place: usize,
    area: &mut [u32],
    out: &mut [u8],
) -> Option<usize>
    requires { Seekable code.now area.old n place out.old }
    ensures { Says (Ok result) (accepted (instructions_of code.now)) place out.old out.new }
{
    let mut places = [0u32; MOST_PLACES];
    fill_places(code, &mut places);
    sweep(code, &places, area, n);
    if area[MARKS + place] == 0 {
        return None;
    }
    Some(write_answers(code, &places, place, area, out))
}

// Questions 17 to 22, 34 and 35, and the search; the area keeps its table.
fn reach_in(
    bytes: &[u8],
    function: u64,
    place: u64,
    area: &mut [u32],
    out: &mut [u8],
) -> Result<Option<usize>, Question>
    requires { 131072 ≤ length area.old }
    ensures { Says result (sought (length area.old) bytes.now function place (length out.old)) place out.old out.new }
{
    let found = locate(bytes, function);
    let code = part_of(bytes, found);
    let part = found?;
    if part.count <= place {
        return Err(Question::Place);
    }
    let counted = count_code(bytes, part.start, part.count);
    if (out.len() as u64) < counted.questions {
        return Err(Question::AnswerRoom);
    }
    Ok(reach_code(code, part.count as usize, place as usize, area, out))
}

// How many answers, from the buffer's start on, bring a run of the function to the place; none where no list does. The area is zero afterwards, but
// after the question of its length, which leaves it.
pub fn reach(
    bytes: &[u8],
    function: u64,
    place: u64,
    area: &mut [u32],
    out: &mut [u8],
) -> Result<Option<usize>, Question>
    ensures { Gives result bytes.now function place area.old area.new out.old out.new }
{
    if area.len() < AREA {
        return Err(Question::WorkAreas);
    }
    let reached = reach_in(bytes, function, place, area, out);
    clear(area);
    reached
}
