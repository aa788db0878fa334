// For every question but 15 one top statement is enough: the first that fails it.
ghost use Rattle.std.specs.Prelude.{◌≡◌, ◌≤◌, length};
ghost use Rattle.definitions.specs.Cut.{failing};
ghost use Rattle.questions.specs.Numbers.{number};
ghost use Rattle.tree_view.specs.StmtAt.{stmt_at, StmtReads, BlockReads};
ghost use Rattle.compile.specs.Compiled.{tree_block};
ghost use Rattle.cut.specs.Tops.{TopAt, alone};

use fits::statements::check_top_slots;
use numerals::sizes::{DEPTH, HEAD, TOP};
use questions::Question;
use slots::skip::skip_stmt;
use tree::check_top;
use tree_view::numbers::u16_at;

// Whether the top statement at `at` by itself is not refused by the question first.
fn passes(tree: &[u8], at: usize, question: Question) -> bool
    requires { (length tree.now ≤ 32768) × StmtReads 32 tree.now at }
    ensures { result ≡ alone (number question) (stmt_at 32 tree.now at).value }
{
    match question {
        Question::Slots => check_top_slots(tree, at),
        _ => match check_top(tree, at) {
            Ok(()) => true,
            Err(first) => first.number() != question.number(),
        },
    }
}

// Where the first top statement stands that the question refuses first.
pub(crate) fn first_failing(tree: &[u8], question: Question) -> usize
    requires { (length tree.now ≤ 32768) × BlockReads 32 tree.now 5 }
    ensures { TopAt tree.now (tree_block tree.now) (failing (alone (number question)) (tree_block tree.now)) result }
{
    let count = u16_at(tree, HEAD);
    let mut at = TOP;
    for _ in 0..count {
        if !passes(tree, at, question) {
            return at;
        }
        at = skip_stmt(tree, at, DEPTH);
    }
    at
}
