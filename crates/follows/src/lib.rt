// A tree is lowered, and the module that was written is read, or one of its functions run: the reader accepts it, and the run does what the walk of the
// tree does. Or it is lowered at the console and at the office: what the console takes, the office takes with the very same bytes. Or it is lowered with
// jumps that are set and with jumps from measured lengths: both give the same.
#![tactic(auto)]

ghost use Rattle.limits.specs.Sets.{limits_for};
ghost use Rattle.follows.specs.Both.{LowersAtBoth};
ghost use Rattle.follows.specs.Ways.{LowersBothWays};
ghost use Rattle.follows.specs.Rereading.{Rereads};
ghost use Rattle.follows.specs.Following.{FollowsSource};

use limits::Limits;
use lowering::{lower, lower_measured};
use questions::Question;
use reader::{Sections, read_module};
use run::{Ran, run};

// How many bytes of the output are the module, and what the reader says of them.
#[derive(Clone, Copy)]
pub struct Reread {
    pub written: usize,
    pub verdict: Result<Sections, Question>,
}

// How many bytes are the module, and how the run of its function went.
#[derive(Clone, Copy)]
pub struct Followed {
    pub written: usize,
    pub outcome: Result<Ran, Question>,
}

// What the two sets of limits give.
#[derive(Clone, Copy)]
pub struct Both {
    pub console: Result<usize, Question>,
    pub office: Result<usize, Question>,
}

// What the two lowerings give.
#[derive(Clone, Copy)]
pub struct Ways {
    pub patched: Result<usize, Question>,
    pub measured: Result<usize, Question>,
}

// The module of a tree, read as soon as it is written: whenever the lowering accepts, the reader accepts. A refusal is one of questions 1 to 16, 33 and 36.
pub fn lower_and_read(
    tree: &[u8],
    limits: Limits,
    area1: &mut [u32],
    area2: &mut [u32],
    out: &mut [u8],
) -> Result<Reread, Question>
    ensures { Rereads result area1.new area2.new out.new (limits_for limits) tree.now area1.old area2.old out.old }
{
    let written = lower(tree, limits, area1, area2, out)?;
    let verdict = read_module(&out[0..written]);
    Ok(Reread { written, verdict })
}

// The run of a function of a tree's module: it does what the walk of the tree does. A refusal is one of questions 1 to 16, 33 and 36.
pub fn lower_and_run(
    tree: &[u8],
    limits: Limits,
    function: u64,
    answers: &[u8],
    budget: u64,
    area1: &mut [u32],
    area2: &mut [u32],
    bytes: &mut [u8],
    events: &mut [u8],
) -> Result<Followed, Question>
    ensures { FollowsSource result area1.new area2.new bytes.new events.new (limits_for limits) tree.now function answers.now budget area1.old area2.old bytes.old events.old }
{
    let written = lower(tree, limits, area1, area2, bytes)?;
    let outcome = run(&bytes[0..written], function, answers, budget, events);
    Ok(Followed { written, outcome })
}

// The module of a tree by the console's limits, and by the office's, with the same areas: in outputs of one length what the console takes gives the
// office the very same bytes, and what the office refuses the console refuses.
pub fn lower_at_both(
    tree: &[u8],
    area1: &mut [u32],
    area2: &mut [u32],
    console: &mut [u8],
    office: &mut [u8],
) -> Both
    ensures { LowersAtBoth result area1.new area2.new console.new office.new tree.now area1.old area2.old console.old office.old }
{
    let at_console = lower(tree, Limits::Console, area1, area2, console);
    let at_office = lower(tree, Limits::Office, area1, area2, office);
    Both {
        console: at_console,
        office: at_office,
    }
}

// The module of a tree by the lowering that sets its jumps, and by the one that measures, each in areas and an output of its own: where these hold the
// same before, answers, areas and outputs are the same afterwards.
pub fn lower_both_ways(
    tree: &[u8],
    limits: Limits,
    area1: &mut [u32],
    area2: &mut [u32],
    out: &mut [u8],
    other1: &mut [u32],
    other2: &mut [u32],
    other: &mut [u8],
) -> Ways
    ensures { LowersBothWays result area1.new area2.new out.new other1.new other2.new other.new (limits_for limits) tree.now area1.old area2.old out.old other1.old other2.old other.old }
{
    let patched = lower(tree, limits, area1, area2, out);
    let measured = lower_measured(tree, limits, other1, other2, other);
    Ways { patched, measured }
}
