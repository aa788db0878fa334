// Question 14 of statements and trees: the slots of their defs, methods and lambdas. A position and the levels left there stay two numbers, as in expressions.
ghost use Rattle.std.specs.Prelude.{◌≡◌, ◌≤◌, ◌&&◌, ◌+◌, ◌-◌, get_or, length, []};
ghost use Rattle.definitions.specs.Slots.{with_loops};
ghost use Rattle.state.specs.State.{slot_names};
ghost use Rattle.definitions.specs.Fits.{fits_expr, fits_target, fits_stmt, fits_block, fits_branches, fits_methods};
ghost use Rattle.tree_view.specs.Places.{name_end, params_at};
ghost use Rattle.tree_view.specs.ExprAt.{expr_at, TwoAt, second_at};
ghost use Rattle.tree_view.specs.StmtAt.{stmt_at, block_at, branches_at, methods_at, StmtReads, BlockReads, BranchesRead, MethodsRead, BranchAt, body_at, IfAt, elifs_at, ForAt, DefAt, def_block_at, class_methods_at, TreeAt};
ghost use Rattle.fits.specs.Walk.{WalkAnswers, def_fits};

use crate::frame::Frame;
use numerals::kinds::StmtKind;
use numerals::places::SLOTS_FROM;
use numerals::sizes::{DEPTH, HEAD, SLOTS_ROOM};
use slots::collect::collect_locals;
use slots::skip::{skip_params, skip_stmt};
use tree_view::names::name_end;
use tree_view::numbers::u16_at;

impl<'a> Frame<'a> {
    // A target and a value.
    fn assign(self, at: usize, depth: u32) -> Option<usize>
        requires { TwoAt depth self.tree.now at }
        ensures { let t = self.entry.tree.now in let names = slot_names t self.entry.slots.now in
            WalkAnswers result (second_at depth t at).end (fits_target names (expr_at depth t at).value && fits_expr names (second_at depth t at).value) }
    {
        let p = self.target(at, depth)?;
        self.expr(p, depth)
    }

    // A statement.
    #[cycle(fits_stmts)]
    fn stmt(self, at: usize, depth: u32) -> Option<usize>
        requires { StmtReads depth self.tree.now at }
        ensures { let t = self.entry.tree.now in let names = slot_names t self.entry.slots.now in
            WalkAnswers result (stmt_at depth t at).end (fits_stmt names (stmt_at depth t at).value) }
    {
        let a = at + 1;
        let below = depth - 1;
        match StmtKind::of(self.tree[at]) {
            StmtKind::Break | StmtKind::Continue | StmtKind::Pass => Some(a),
            StmtKind::Expr | StmtKind::Return => self.expr(a, below),
            StmtKind::Assign => self.assign(a, below),
            StmtKind::If => self.branches(a, below),
            StmtKind::While => self.branch(a, below),
            StmtKind::For => self.loop_over(a, below),
            StmtKind::Def => self.def(a, below),
            StmtKind::Class => self.class(at, depth),
        }
    }

    // A block.
    #[cycle(fits_stmts)]
    fn block(self, at: usize, depth: u32) -> Option<usize>
        requires { BlockReads depth self.tree.now at }
        ensures { let t = self.entry.tree.now in let names = slot_names t self.entry.slots.now in
            WalkAnswers result (block_at depth t at).end (fits_block names (block_at depth t at).value) }
    {
        let count = u16_at(self.tree, at);
        let mut p = at + 2;
        for _ in 0..count {
            p = self.stmt(p, depth)?;
        }
        Some(p)
    }

    // A condition and a block.
    #[cycle(fits_stmts)]
    fn branch(self, at: usize, depth: u32) -> Option<usize>
        requires { BranchAt depth self.tree.now at }
        ensures { let t = self.entry.tree.now in let names = slot_names t self.entry.slots.now in
            WalkAnswers result (body_at depth t at).end (fits_expr names (expr_at depth t at).value && fits_block names (body_at depth t at).value) }
    {
        let p = self.expr(at, depth)?;
        self.block(p, depth)
    }

    // A first branch, a count of elifs, these, and an else block or none.
    #[cycle(fits_stmts)]
    fn branches(self, at: usize, depth: u32) -> Option<usize>
        requires { IfAt depth self.tree.now at }
        ensures { let t = self.entry.tree.now in let names = slot_names t self.entry.slots.now in
            WalkAnswers result (elifs_at depth t at).end
            (fits_expr names (expr_at depth t at).value && fits_block names (body_at depth t at).value && fits_branches names (elifs_at depth t at).value) }
    {
        let p = self.branch(at, depth)?;
        let count = u16_at(self.tree, p);
        self.elifs(p + 2, depth, count)
    }

    // So many elifs, and an else block or none. A loop of its own, like those of `block` and `methods`: each closure in a cycle of calls states its
    // own clauses, so one walk that takes a closure is no plainer.
    #[cycle(fits_stmts)]
    fn elifs(self, at: usize, depth: u32, count: u32) -> Option<usize>
        requires { BranchesRead depth count self.tree.now at }
        ensures { let t = self.entry.tree.now in let names = slot_names t self.entry.slots.now in
            WalkAnswers result (branches_at depth count t at).end (fits_branches names (branches_at depth count t at).value) }
    {
        let mut p = at;
        for _ in 0..count {
            p = self.branch(p, depth)?;
        }
        self.else_block(p, depth)
    }

    // The byte 0; or 1, and an else block.
    #[cycle(fits_stmts)]
    fn else_block(self, at: usize, depth: u32) -> Option<usize>
        requires { BranchesRead depth 0 self.tree.now at }
        ensures { let t = self.entry.tree.now in let names = slot_names t self.entry.slots.now in
            WalkAnswers result (branches_at depth 0 t at).end (fits_branches names (branches_at depth 0 t at).value) }
    {
        if self.tree[at] == 0 {
            return Some(at + 1);
        }
        self.block(at + 1, depth)
    }

    // A loop variable, an expression and a block.
    #[cycle(fits_stmts)]
    fn loop_over(self, at: usize, depth: u32) -> Option<usize>
        requires { ForAt depth self.tree.now at }
        ensures { let t = self.entry.tree.now in let names = slot_names t self.entry.slots.now in let over = name_end t at in
            WalkAnswers result (body_at depth t over).end (fits_expr names (expr_at depth t over).value && fits_block names (body_at depth t over).value) }
    {
        let p = name_end(self.tree, at);
        self.branch(p, depth)
    }

    // A def after its kind byte, or a method: its own slots, and its block with these.
    #[cycle(fits_stmts)]
    fn def(self, at: usize, depth: u32) -> Option<usize>
        requires { DefAt depth self.tree.now at }
        ensures { let t = self.entry.tree.now in let block = def_block_at depth t at in
            WalkAnswers result block.end (def_fits (with_loops (params_at t (name_end t at)).value block.value) block.value) }
    {
        let mut inner = [0u32; SLOTS_ROOM];
        let params = name_end(self.tree, at);
        let p = skip_params(self.tree, params);
        let frame = collect_locals(self.tree, params, p, depth, &mut inner)?;
        let end = SLOTS_FROM + frame.named as usize;
        Frame {
            tree: self.tree,
            slots: &inner[0..end],
        }
        .block(p, depth)
    }

    // So many methods.
    #[cycle(fits_stmts)]
    fn methods(self, at: usize, depth: u32, count: u32) -> Option<usize>
        requires { MethodsRead depth count self.tree.now at }
        ensures { let t = self.entry.tree.now in
            WalkAnswers result (methods_at depth count t at).end (fits_methods (methods_at depth count t at).value) }
    {
        let mut p = at;
        for _ in 0..count {
            p = self.def(p, depth)?;
        }
        Some(p)
    }

    // A class with its kind byte at `at`: its methods; attributes are not lowered.
    #[cycle(fits_stmts)]
    fn class(self, at: usize, depth: u32) -> Option<usize>
        requires { StmtReads depth self.tree.now at × (get_or self.tree.now at 0 ≡ 10) }
        ensures { let t = self.entry.tree.now in
            WalkAnswers result (stmt_at depth t at).end (fits_methods (class_methods_at (depth - 1) t (at + 1)).value) }
    {
        let p = name_end(self.tree, at + 1);
        let count = u16_at(self.tree, p);
        self.methods(p + 2, depth - 1, count)?;
        Some(skip_stmt(self.tree, at, depth))
    }
}

// Question 14 of the top statement at `at` of a tree that was read.
pub fn check_top_slots(tree: &[u8], at: usize) -> bool
    requires { (length tree.now ≤ 32768) × StmtReads 32 tree.now at }
    ensures { result ≡ fits_stmt [] (stmt_at 32 tree.now at).value }
{
    let none = [0u32; SLOTS_FROM];
    Frame { tree, slots: &none }.stmt(at, DEPTH).is_some()
}

// Question 14 of an accepted tree.
// That it is accepted (TreeAt) stays a clause, as in compile: a struct with that fact would be made for one call.
pub fn check_slots(tree: &[u8]) -> bool
    requires { TreeAt tree.now }
    ensures { result ≡ fits_block [] (block_at 32 tree.now 5).value }
{
    let none = [0u32; SLOTS_FROM];
    Frame { tree, slots: &none }.block(HEAD, DEPTH).is_some()
}
