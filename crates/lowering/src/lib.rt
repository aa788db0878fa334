// The lowering of a tree: questions 1 to 16, 33 and 36, and the module's bytes.
#![tactic(auto)]

ghost use Rattle.std.specs.Prelude.{◌≤◌, length};
ghost use Rattle.definitions.specs.Module.{module_bytes};
ghost use Rattle.definitions.specs.Calls.{fits_room, lower_answer, lower_call};
ghost use Rattle.state.specs.State.{tables_of, limits_of, Limited};
ghost use Rattle.module.specs.Sections.{Roomy};
ghost use Rattle.lower_emit.specs.Emitting.{counts_of};
ghost use Rattle.limits.specs.Sets.{limits_for};
ghost use Rattle.lowering.specs.Lowered.{Answers, Lowers};

use areas::clear;
use compile::Jumps;
use limits::{Limits, limit_numbers};
use lower_emit::emitter::Emitter;
use module::Lowered;
use numerals::sizes::{AREA, MADE_ROOM};
use questions::Question;
use settle::settle;
use state::Limits as LimitNumbers;

// Question 16: the module of the emitter's tables where the output has room for it; how many bytes of the output it is.
fn write_tables(tree: &[u8], e: &Emitter<'_>, out: &mut [u8]) -> Result<usize, Question>
    requires { Roomy e.now.code.words.now e.now.tables.entries.words.now (counts_of e.now) }
    ensures { Answers result (fits_room (length out.old) (module_bytes (tables_of tree.now e.now.tables.names.made.now e.now.code.words.now e.now.tables.entries.words.now (counts_of e.now)))) out.old out.new }
{
    let lowered = Lowered::new(
        tree,
        e.tables.names.made,
        e.code.words,
        e.tables.entries.words,
        e.counts(),
    );
    let size = lowered.size();
    if out.len() < size {
        return Err(Question::ModuleRoom);
    }
    let n = lowered.write(size, out);
    Ok(n)
}

// Questions 2 to 16, and the module; the slices keep what was worked out.
fn lower_into(
    tree: &[u8],
    code: &mut [u32],
    tables: &mut [u32],
    out: &mut [u8],
    limits: LimitNumbers,
    jumps: Jumps,
) -> Result<usize, Question>
    requires { (16384 ≤ length code.old) × (16384 ≤ length tables.old) × Limited limits }
    ensures { Answers result (lower_answer (limits_of limits) (length code.old) (length tables.old) (length out.old) tree.now) out.old out.new }
{
    let mut made = [0u8; MADE_ROOM];
    let mut e = Emitter::new(code, &mut made, tables, limits);
    settle(tree, &mut e, jumps)?;
    write_tables(tree, &e, out)
}

// The module of a tree within a set of limits, with its jumps either way. Both work areas are zero afterwards, but after refusal 1, which leaves them.
fn lower_by(
    tree: &[u8],
    limits: Limits,
    area1: &mut [u32],
    area2: &mut [u32],
    out: &mut [u8],
    jumps: Jumps,
) -> Result<usize, Question>
    ensures { Lowers result area1.new area2.new out.new (lower_call (limits_for limits) tree.now area1.old area2.old out.old) }
{
    if area1.len() < AREA || area2.len() < AREA {
        return Err(Question::WorkAreas);
    }
    let l = limit_numbers(limits);
    let r = lower_into(tree, area1, area2, out, l, jumps);
    clear(area1);
    clear(area2);
    r
}

// The module of a tree within a set of limits, from the output's first byte on. Both work areas are zero afterwards, but after refusal 1, which leaves
// them.
pub fn lower(
    tree: &[u8],
    limits: Limits,
    area1: &mut [u32],
    area2: &mut [u32],
    out: &mut [u8],
) -> Result<usize, Question>
    ensures { Lowers result area1.new area2.new out.new (lower_call (limits_for limits) tree.now area1.old area2.old out.old) }
{
    lower_by(tree, limits, area1, area2, out, Jumps::Set)
}

// The same by measured lengths: each part is measured before it is written, and each jump is written as it stays. Answer, bytes and areas are those of
// `lower`.
pub fn lower_measured(
    tree: &[u8],
    limits: Limits,
    area1: &mut [u32],
    area2: &mut [u32],
    out: &mut [u8],
) -> Result<usize, Question>
    ensures { Lowers result area1.new area2.new out.new (lower_call (limits_for limits) tree.now area1.old area2.old out.old) }
{
    lower_by(tree, limits, area1, area2, out, Jumps::Measured)
}
