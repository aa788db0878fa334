// How many instructions a block or a branch will have, measured where it is about to be written.
ghost use Rattle.std.specs.Prelude.{◌+◌};
ghost use Rattle.definitions.specs.Measured.{so_far, measure_expr, measure_block};
ghost use Rattle.tree_view.specs.ExprAt.{expr_at};
ghost use Rattle.tree_view.specs.StmtAt.{block_at, BlockReads, BranchAt, body_at};
ghost use Rattle.state.specs.State.{slot_names};
ghost use Rattle.lower_forms.specs.Lowerable.{SoleIn};
ghost use Rattle.lower_emit.specs.Emitting.{state_in};
ghost use Rattle.measure_stmts.specs.Heads.{heads_block};
ghost use Rattle.write_blocks.specs.Sizes.{Fits};

use lower_emit::emitter::Emitter;
use lower_expr::measuring::measurer;
use measure_stmts::blocks::{measure_block, measure_branch};
use measure_stmts::notes::none_begun;
use state::Scope;

// A size; none where it is over the limit on instructions.
fn within(size: u32, limit: u32) -> Option<u32>
    ensures { Fits result 0 size limit }
{
    if limit < size {
        return None;
    }
    Some(size)
}

// The block at `at`; none where it is over the limits, by its instructions or by the functions and classes that begin in it.
pub(crate) fn block_size(s: Scope<'_>, e: &Emitter<'_>, at: usize, depth: u32) -> Option<u32>
    requires { SoleIn s.tree.now e.now × BlockReads depth s.tree.now at }
    ensures { let t = s.entry.tree.now in let b = (block_at depth t at).value in
        Fits result (heads_block b) (measure_block (slot_names t s.entry.slots.now) (so_far (state_in t e.now).tables) b) e.now.code.limit }
{
    let mut begun = none_begun();
    let block = measure_block(measurer(s, e), &mut begun, at, depth)?;
    within(block.size, e.code.limit)
}

// The condition and the block at `at`, with the question that passes the block and the jump after it; none alike.
pub(crate) fn branch_size(s: Scope<'_>, e: &Emitter<'_>, at: usize, depth: u32) -> Option<u32>
    requires { SoleIn s.tree.now e.now × BranchAt depth s.tree.now at }
    ensures { let t = s.entry.tree.now in let names = slot_names t s.entry.slots.now in let k = so_far (state_in t e.now).tables in
        let b = (body_at depth t at).value in
        Fits result (heads_block b) (measure_expr names k (expr_at depth t at).value + (measure_block names k b + 2)) e.now.code.limit }
{
    let mut begun = none_begun();
    let branch = measure_branch(measurer(s, e), &mut begun, at, depth)?;
    within(branch.size, e.code.limit)
}
