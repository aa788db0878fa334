// A walk over the statements of a def or method: names are gathered in its slots, and its loops are counted.
// A place and the levels left there stay two numbers, as in skip: each call gives both anew.
// Blocks and branches are gone through as in fits: a walk for both would be a trait whose methods call back into the cycle of each, and no plainer than these loops.
ghost use Rattle.std.specs.Prelude.{◌+◌, ◌≤◌, length};
ghost use Rattle.state.specs.State.{slots_from};
ghost use Rattle.slots.specs.Slotted.{Indexed};
ghost use Rattle.slots.specs.Props.{indexed-prop};

use crate::add::{add_at, bucket_at};
use crate::skip::{skip_expr, skip_stmt, skip_value};
use numerals::kinds::{ExprKind, StmtKind};
use numerals::sizes::SLOTS_MOST;
use tree_view::names::name_end;
use tree_view::numbers::u16_at;

// The first n slots have the names gathered so far, which stand in the tree. Of 256 loops no more are counted: these are too many.
#[derive(Drop)]
pub(crate) struct Gathering<'t, 's> {
    pub(crate) tree: &'t [u8],
    pub(crate) slots: &'s mut [u32],
    pub(crate) n: u32,
    pub(crate) loops: u32,
    ghost short: { length tree.now ≤ 32768 },
    ghost room: { slots_from + 256 ≤ length slots.now },
    ghost few: { n ≤ 255 },
    ghost indexed: { Indexed tree.now n slots.now } by { indexed-prop _ _ _ },
    ghost loops_most: { loops ≤ 256 },
}

impl Gathering<'_, '_> {
    ghost use Rattle.std.specs.Prelude.{◌<◌};
    ghost use Rattle.definitions.specs.Slots.{add, add_target, add_targets, locals_stmt, locals_block, locals_branches, loops_stmt, loops_block, loops_branches};
    ghost use Rattle.tree_view.specs.Places.{name_from};
    ghost use Rattle.tree_view.specs.ExprAt.{expr_at, exprs_at, ExprReads, ExprsRead, TwoAt};
    ghost use Rattle.tree_view.specs.StmtAt.{stmt_at, block_at, branches_at, body_at, assign_at, if_at, for_at, StmtReads, BlockReads, BranchesRead, BranchAt, IfAt, ForAt};
    ghost use Rattle.slots.specs.Gathered.{names_gathered, Adds, Gathers, no_loops};

    // The name at `at`.
    fn name(&mut self, at: usize) -> Option<()>
        requires { at < length self.old.tree.now }
        ensures { Adds result (add (name_from self.old.tree.now at) (names_gathered self.old)) 0 self.old self.new }
    {
        let b = bucket_at(self.tree, at);
        let n = add_at(self.tree, self.slots, self.n, at, b);
        if SLOTS_MOST < n {
            return None;
        }
        self.n = n;
        Some(())
    }

    // A target: a variable, or the elements of a tuple, from left to right.
    #[cycle(gather_targets)]
    fn target(&mut self, at: usize, depth: u32) -> Option<usize>
        requires { ExprReads depth self.old.tree.now at }
        ensures { Gathers result (expr_at depth self.old.tree.now at) add_target no_loops self.old self.new }
    {
        let a = at + 1;
        match ExprKind::of(self.tree[at]) {
            ExprKind::Variable => {
                self.name(a)?;
                Some(name_end(self.tree, a))
            }
            ExprKind::Tuple => {
                let count = u16_at(self.tree, a);
                self.targets(a + 2, depth - 1, count)
            }
            _ => Some(skip_expr(self.tree, at, depth)),
        }
    }

    // So many targets.
    #[cycle(gather_targets)]
    fn targets(&mut self, at: usize, depth: u32, count: u32) -> Option<usize>
        requires { ExprsRead depth count self.old.tree.now at }
        ensures { Gathers result (exprs_at depth count self.old.tree.now at) add_targets no_loops self.old self.new }
    {
        let mut p = at;
        for _ in 0..count {
            p = self.target(p, depth)?;
        }
        Some(p)
    }

    // A target and a value.
    fn assign(&mut self, at: usize, depth: u32) -> Option<usize>
        requires { TwoAt depth self.old.tree.now at }
        ensures { Gathers result (assign_at depth self.old.tree.now at) locals_stmt loops_stmt self.old self.new }
    {
        let p = self.target(at, depth)?;
        Some(skip_value(self.tree, p, depth))
    }

    // A statement; of a def or class its name alone.
    #[cycle(gather)]
    fn stmt(&mut self, at: usize, depth: u32) -> Option<usize>
        requires { StmtReads depth self.old.tree.now at }
        ensures { Gathers result (stmt_at depth self.old.tree.now at) locals_stmt loops_stmt self.old self.new }
    {
        let a = at + 1;
        match StmtKind::of(self.tree[at]) {
            StmtKind::Break | StmtKind::Continue | StmtKind::Pass => Some(a),
            StmtKind::Expr | StmtKind::Return => Some(skip_value(self.tree, a, depth - 1)),
            StmtKind::Assign => self.assign(a, depth - 1),
            StmtKind::If => self.if_stmt(a, depth - 1),
            StmtKind::While => self.branch(a, depth - 1),
            StmtKind::For => self.for_stmt(a, depth - 1),
            StmtKind::Def | StmtKind::Class => {
                self.name(a)?;
                Some(skip_stmt(self.tree, at, depth))
            }
        }
    }

    // A block.
    #[cycle(gather)]
    pub(crate) fn block(&mut self, at: usize, depth: u32) -> Option<usize>
        requires { BlockReads depth self.old.tree.now at }
        ensures { Gathers result (block_at depth self.old.tree.now at) locals_block loops_block self.old self.new }
    {
        let count = u16_at(self.tree, at);
        let mut p = at + 2;
        for _ in 0..count {
            p = self.stmt(p, depth)?;
        }
        Some(p)
    }

    // A condition and a block.
    #[cycle(gather)]
    fn branch(&mut self, at: usize, depth: u32) -> Option<usize>
        requires { BranchAt depth self.old.tree.now at }
        ensures { Gathers result (body_at depth self.old.tree.now at) locals_block loops_block self.old self.new }
    {
        let p = skip_expr(self.tree, at, depth);
        self.block(p, depth)
    }

    // A first branch, a count of elifs, these, and an else block or none.
    #[cycle(gather)]
    fn if_stmt(&mut self, at: usize, depth: u32) -> Option<usize>
        requires { IfAt depth self.old.tree.now at }
        ensures { Gathers result (if_at depth self.old.tree.now at) locals_stmt loops_stmt self.old self.new }
    {
        let p = self.branch(at, depth)?;
        let count = u16_at(self.tree, p);
        self.elifs(p + 2, depth, count)
    }

    // So many elifs, and an else block or none.
    #[cycle(gather)]
    fn elifs(&mut self, at: usize, depth: u32, count: u32) -> Option<usize>
        requires { BranchesRead depth count self.old.tree.now at }
        ensures { Gathers result (branches_at depth count self.old.tree.now at) locals_branches loops_branches self.old self.new }
    {
        let mut p = at;
        for _ in 0..count {
            p = self.branch(p, depth)?;
        }
        self.else_block(p, depth)
    }

    // The byte 0; or 1, and an else block.
    #[cycle(gather)]
    fn else_block(&mut self, at: usize, depth: u32) -> Option<usize>
        requires { BranchesRead depth 0 self.old.tree.now at }
        ensures { Gathers result (branches_at depth 0 self.old.tree.now at) locals_branches loops_branches self.old self.new }
    {
        if self.tree[at] == 0 {
            return Some(at + 1);
        }
        self.block(at + 1, depth)
    }

    // A loop variable, what it goes through, and a block.
    #[cycle(gather)]
    fn for_stmt(&mut self, at: usize, depth: u32) -> Option<usize>
        requires { ForAt depth self.old.tree.now at }
        ensures { Gathers result (for_at depth self.old.tree.now at) locals_stmt loops_stmt self.old self.new }
    {
        self.loops = (self.loops + 1).min(256);
        self.name(at)?;
        self.branch(name_end(self.tree, at), depth)
    }
}
