// Runs of None, False and True: each is one byte of the tree and one word.
// A short tree stays a clause of both: a struct with that fact would be made for one call.
ghost use Rattle.std.specs.Prelude.{◌≡◌, ◌-◌, ◌<◌, ◌≤◌, length, MatchOption};
ghost use Rattle.numerals.specs.Kinds.{expr_byte};
ghost use Rattle.exprs.specs.Literals.{kind_byte};
ghost use Rattle.state.specs.Words.{word};
ghost use Rattle.lower_leaves.specs.Constants.{Several, Ahead, Run, Constants};

use exprs::literals::{Literal, constant_of};
use lower_emit::emitter::Code;
use lower_emit::packed;
use numerals::kinds::ExprKind;
use numerals::ops::{FALSE, NONE, TRUE};

// The opcode of None, False or True.
#[tactic(auto, unfolding(exprs::specs::Literals::kind_byte))]
pub(crate) fn constant_op(x: Literal) -> u32
    requires { kind_byte x < 3 }
    ensures { result ≡ 5 - kind_byte x }
{
    match x {
        Literal::Bool(false) => FALSE,
        Literal::Bool(true) => TRUE,
        _ => NONE,
    }
}

// The word of the literal that a kind is, where that is None, False or True; none of another kind.
fn constant_word(kind: ExprKind) -> Option<u32>
    ensures { MatchOption result (2 < expr_byte kind) (λ w. (expr_byte kind < 3) × (w ≡ word (5 - expr_byte kind) 0 0)) }
{
    let x = constant_of(kind)?;
    Some(packed(constant_op(x), 0, 0))
}

// How many expressions, from the first on, are None, False or True: at most one for each of `words`, which become theirs.
fn run(tree: &[u8], at: usize, words: &mut [u32]) -> usize
    requires { Ahead (length words.old) tree.now at × (length tree.now ≤ 32768) }
    ensures { Run result (length words.old) tree.now at words.old words.new 0 (length words.old) }
{
    for (i, word) in words.iter_mut().enumerate() {
        let Some(w) = constant_word(ExprKind::of(tree[at + i])) else {
            return i;
        };
        *word = w;
    }
    words.len()
}

// How many of so many expressions, from the first on, are None, False or True and have room; their words are put.
pub fn put_constants(tree: &[u8], code: &mut Code<'_>, at: usize, count: u32) -> u32
    requires { Several count tree.now at × (length tree.now ≤ 32768) }
    ensures { Constants result count tree.now at code.old code.new }
{
    let from = code.open;
    let most = count.min(code.limit - code.done - from);
    let n = run(
        tree,
        at,
        &mut code.words[from as usize..(from + most) as usize],
    ) as u32;
    code.open = from + n;
    n
}
