// The ends of branches and loops: the jumps that pass them are set.
ghost use Rattle.std.specs.Prelude.{◌≡◌, ◌+◌, ◌-◌, ◌<◌, ◌≤◌, length, set};
ghost use Rattle.state.specs.Words.{word};
ghost use Rattle.lower_emit.specs.Patch.{patch_word, patch_words};
ghost use Rattle.lower_emit.specs.Emitting.{SetsJump};
ghost use Rattle.lower_emit.specs.Ends.{EndsBranch, EndsLoop};

use crate::emitter::Code;
use crate::packed;
use numerals::ops::{BREAK, CONTINUE, JUMP, JUMP_IF_FALSE};
use numerals::places::WORD_OP;

// The word at place i of a loop's inside of n words, after h of the loop: a pending break or continue is made a jump.
#[tactic(auto, unfolding(crate::specs::Patch::patch_word))]
fn patched_word(w: u32, i: usize, n: usize, h: usize) -> u32
    requires { (i < n) × (h + n < 32768) }
    ensures { result ≡ patch_word h n i w }
{
    match w / WORD_OP {
        BREAK => packed(JUMP, (n - i) as u32, 0),
        CONTINUE => packed(JUMP, (65535 - (h + i)) as u32, 0),
        _ => w,
    }
}

// The words of a loop's inside with their pending jumps made.
fn patch_words(inside: &mut [u32], h: usize)
    requires { h + length inside.old < 32768 }
    ensures { inside.new ≡ patch_words h (length inside.old) 0 inside.old }
{
    let n = inside.len();
    for (i, w) in inside.iter_mut().enumerate() {
        *w = patched_word(*w, i, n, h);
    }
}

// The word at j becomes a jump over d instructions.
pub fn set_jump(words: &mut [u32], j: usize, op: u32, d: u32)
    requires { (j < length words.old) × (op < 256) × (d < 65536) }
    ensures { words.new ≡ set words.old j (word op d 0) }
{
    words[j] = packed(op, d, 0);
}

impl<'a> Code<'a> {
    // The word at j becomes a jump over d instructions.
    pub fn set_jump(&mut self, j: usize, op: u32, d: u32)
        requires { (j < length self.old.words.now) × (op < 256) × (d < 65536) }
        ensures { SetsJump j op d self.old self.new }
    {
        set_jump(self.words, j, op, d);
    }

    // The end of a branch whose block begins at place `from`: an end jump, not known yet, and the jump before the block over both.
    pub fn end_branch(&mut self, from: u32) -> Option<()>
        requires { (0 < from) × (from ≤ self.old.open) }
        ensures { EndsBranch result from self.old self.new }
    {
        let over = self.open - from + 1;
        self.put_op(JUMP, 0, 0)?;
        self.set_jump(from as usize - 1, JUMP_IF_FALSE, over);
        Some(())
    }

    // The end of a loop that begins at place `start`, its inside at `inside`: the jump back, the breaks and continues of its inside, and the jump before
    // the inside over it.
    pub fn end_loop(&mut self, start: u32, inside: u32) -> Option<()>
        requires { (start < inside) × (inside ≤ self.old.open) }
        ensures { EndsLoop result start inside self.old self.new }
    {
        let n = self.open;
        let back = n - start + 1;
        self.put_op(JUMP, 65536 - back, 0)?;
        patch_words(
            &mut self.words[inside as usize..n as usize],
            (inside - start) as usize,
        );
        self.set_jump(inside as usize - 1, JUMP_IF_FALSE, n - inside + 1);
        Some(())
    }
}
