// The tree of a stretch of a tree's top statements: a head, their count, and their bytes.
ghost use Rattle.std.specs.Prelude.{◌≡◌, ◌≤◌, length};
ghost use Rattle.definitions.specs.TreeBytes.{tree_bytes};
ghost use Rattle.tree_view.specs.StmtAt.{stmts_at, StmtsRead};
ghost use Rattle.writing.specs.Wrote.{Wrote};
ghost use Rattle.compile.specs.Compiled.{stretch_block};

use compile::Stretch;
use numerals::sizes::{DEPTH, TOP, TREE_VERSION};
use slots::skip::skip_stmt;
use writing::numbers::{write_head, write_number};
use writing::write_bytes;

// Where a stretch ends.
pub(crate) fn stretch_end(tree: &[u8], stretch: Stretch) -> usize
    requires { StmtsRead 32 stretch.count tree.now stretch.at }
    ensures { result ≡ (stmts_at 32 stretch.count tree.now stretch.at).end }
{
    let mut at = stretch.at;
    for _ in 0..stretch.count {
        at = skip_stmt(tree, at, DEPTH);
    }
    at
}

// The tree of a stretch, for which there is room.
pub(crate) fn write_stretch(tree: &[u8], stretch: Stretch, out: &mut [u8]) -> usize
    requires { (length tree.now ≤ 32768) × StmtsRead 32 stretch.count tree.now stretch.at × (length (tree_bytes (stretch_block tree.now stretch)) ≤ length out.old) }
    ensures { Wrote result (tree_bytes (stretch_block tree.now stretch)) out.old out.new }
{
    let end = stretch_end(tree, stretch);
    let stmts = &tree[stretch.at..end];
    let mut at = write_head(TOP + stmts.len(), TREE_VERSION, out);
    at += write_number(2, stretch.count as u64, &mut out[at..]);
    at + write_bytes(stmts, &mut out[at..])
}
