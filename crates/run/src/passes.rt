// A run's two passes over a function's code: the events are measured first, and written where they fit.
ghost use Rattle.std.specs.Prelude.{◌≡◌, ◌≤◌, length};
ghost use Rattle.definitions.specs.Run as Run;
ghost use Rattle.definitions.specs.Calls.{events_fit, ran_call};
ghost use Rattle.reader.specs.View.{instructions_of};
ghost use Rattle.run.specs.Pass.{Called};

use crate::Ran;
use crate::course::Course;
use crate::tables::{Function, fill_places, fill_stops};
use questions::Question;

// The run on a course that allows as many event bytes as the buffer has.
fn run_on(course: &Course<'_>, events: &mut [u8]) -> Result<Ran, Question>
    requires { course.now.room ≡ length events.old }
    ensures { Called result (ran_call (events_fit (length events.old) (Run.run course.now.budget (instructions_of course.now.code.now) 0 course.now.answers.now)) events.old) events.new }
{
    course.pass(&mut events[..0]).ok_or(Question::EventRoom)?;
    course.pass(events).ok_or(Question::EventRoom)
}

// The run of a function, with tables of N.
pub(crate) fn run_sized<const N: usize>(
    function: Function<'_>,
    answers: &[u8],
    budget: u64,
    events: &mut [u8],
) -> Result<Ran, Question>
    requires { (function.n ≤ N) × (N ≤ 65536) }
    ensures { Called result (ran_call (events_fit (length events.old) (Run.run budget (instructions_of function.entry.code.now) 0 answers.now)) events.old) events.new }
{
    let mut places = [0u32; N];
    fill_places(function.code, &mut places);
    let mut stops = [0u32; N];
    fill_stops(function, &places, &mut stops);
    let course = Course {
        code: function.code,
        places: &places,
        stops: &stops,
        answers,
        budget,
        room: events.len(),
    };
    run_on(&course, events)
}
