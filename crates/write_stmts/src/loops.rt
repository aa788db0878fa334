// The innermost loop around a part, and the jumps of its breaks and continues.
ghost use Rattle.std.specs.Prelude.{◌+◌, ◌≤◌, ◌≡◌};
ghost use Rattle.definitions.specs.Measured.{ahead, back};
ghost use Rattle.lower_emit.specs.Emitting.{Writes};

use lower_emit::emitter::Code;
use numerals::ops::JUMP;
use write_blocks::Loop;

// The instruction at a loop's end.
pub(crate) const JUMP_BACK: u32 = 1;

// Outside all loops; no break or continue asks for it.
pub(crate) const NO_LOOP: Loop = Loop { start: 0, end: 0 };

// The place in the innermost function of the word that is put next.
pub(crate) fn place(code: &Code<'_>) -> u32
    requires { code.now.base ≤ code.now.open }
    ensures { result + code.now.base ≡ code.now.open }
{
    code.open - code.base
}

// A jump forward to the place `target`: over the words between it and the jump.
pub(crate) fn put_ahead(code: &mut Code<'_>, target: u32) -> Option<()>
    requires { (code.old.base ≤ code.old.open) × (target ≤ 32767) }
    ensures { Writes result (ahead target) code.old code.new }
{
    let after = place(code) + 1;
    code.put_op(JUMP, target.saturating_sub(after), 0)
}

// A jump back to the place `target`: over the words from it on, the jump's own too.
pub(crate) fn put_back(code: &mut Code<'_>, target: u32) -> Option<()>
    requires { target + code.old.base ≤ code.old.open }
    ensures { Writes result (back target) code.old code.new }
{
    let after = place(code) + 1;
    code.put_op(JUMP, BACK_FROM - (after - target), 0)
}

// A jump back over n words has this less n as its operand.
const BACK_FROM: u32 = 65536;
