// Parts that a rest leaves as they are, compared where they stand; and counts.
ghost use Rattle.std.specs.Prelude.{◌≡◌, ◌≤◌, ◌++◌, length};
ghost use Rattle.definitions.specs.TreeBytes.{size, expr_bytes, params_bytes};
ghost use Rattle.definitions.specs.Module.{name_bytes};
ghost use Rattle.definitions.specs.Rests.{rest};
ghost use Rattle.tree_view.specs.Places.{name_end, There, ParamsAt, params_at};
ghost use Rattle.tree_view.specs.Places as Places;
ghost use Rattle.tree_view.specs.ExprAt.{expr_at, ExprReads, TwoAt, second_at};
ghost use Rattle.tree_view.specs.StmtAt.{stmts_at, StmtsRead};
ghost use Rattle.rests.specs.Taking.{span};
ghost use Rattle.instep.specs.Stepping.{Bytes, SideBySide, Clear, Ranked};

use crate::{Spot, Trees};
use numerals::kinds::StmtKind;
use slots::skip::{skip_expr, skip_params, skip_stmt};
use std::cmp::Ordering;
use tree_view::names::name_end;

// The kind byte of a Pass.
pub(crate) const PASS: u8 = StmtKind::Pass as u8;

// Equal numbers; else which is lower.
pub(crate) fn same_number(m: u32, n: u32) -> Result<(), Ordering>
    ensures { Ranked result m n }
{
    match m.cmp(&n) {
        Ordering::Less => Err(Ordering::Less),
        Ordering::Equal => Ok(()),
        Ordering::Greater => Err(Ordering::Greater),
    }
}

impl<'a> Trees<'a> {
    // The bytes from `at` to `to` in each tree. Neither span is a proper beginning of the other.
    fn span(self, at: Spot, to: Spot) -> Result<Spot, Ordering>
        requires { (at.first ≤ to.first) × (to.first ≤ length self.first.now) × (at.second ≤ to.second) × (to.second ≤ length self.second.now)
            × Clear (span self.first.now at.first to.first) (span self.second.now at.second to.second) }
        ensures { SideBySide result (span self.entry.first.now at.first to.first) (span self.entry.second.now at.second to.second) to.first to.second }
    {
        match self.first[at.first..to.first].cmp(&self.second[at.second..to.second]) {
            Ordering::Less => Err(Ordering::Less),
            Ordering::Equal => Ok(to),
            Ordering::Greater => Err(Ordering::Greater),
        }
    }

    // An expression.
    pub(crate) fn expr(self, at: Spot, depth: u32) -> Result<Spot, Ordering>
        requires { Bytes self.first.now self.second.now × ExprReads depth self.first.now at.first × ExprReads depth self.second.now at.second }
        ensures { let a = self.entry.first.now in let b = self.entry.second.now in
            SideBySide result (expr_bytes (expr_at depth a at.first).value) (expr_bytes (expr_at depth b at.second).value)
            (expr_at depth a at.first).end (expr_at depth b at.second).end }
    {
        let first = skip_expr(self.first, at.first, depth);
        let second = skip_expr(self.second, at.second, depth);
        self.span(at, Spot { first, second })
    }

    // Two expressions.
    pub(crate) fn two(self, at: Spot, depth: u32) -> Result<Spot, Ordering>
        requires { Bytes self.first.now self.second.now × TwoAt depth self.first.now at.first × TwoAt depth self.second.now at.second }
        ensures { let a = self.entry.first.now in let b = self.entry.second.now in
            SideBySide result (expr_bytes (expr_at depth a at.first).value ++ expr_bytes (second_at depth a at.first).value)
            (expr_bytes (expr_at depth b at.second).value ++ expr_bytes (second_at depth b at.second).value)
            (second_at depth a at.first).end (second_at depth b at.second).end }
    {
        let next = self.expr(at, depth)?;
        self.expr(next, depth)
    }

    // A name.
    pub(crate) fn name(self, at: Spot) -> Result<Spot, Ordering>
        requires { Bytes self.first.now self.second.now × There self.first.now at.first × There self.second.now at.second }
        ensures { let a = self.entry.first.now in let b = self.entry.second.now in
            SideBySide result (name_bytes (Places.name_from a at.first)) (name_bytes (Places.name_from b at.second)) (name_end a at.first) (name_end b at.second) }
    {
        let first = name_end(self.first, at.first);
        let second = name_end(self.second, at.second);
        self.span(at, Spot { first, second })
    }

    // Parameters.
    pub(crate) fn params(self, at: Spot) -> Result<Spot, Ordering>
        requires { Bytes self.first.now self.second.now × ParamsAt self.first.now at.first × ParamsAt self.second.now at.second }
        ensures { let a = self.entry.first.now in let b = self.entry.second.now in
            SideBySide result (params_bytes (params_at a at.first).value) (params_bytes (params_at b at.second).value)
            (params_at a at.first).end (params_at b at.second).end }
    {
        let first = skip_params(self.first, at.first);
        let second = skip_params(self.second, at.second);
        self.span(at, Spot { first, second })
    }
}

// How many of so many statements are no Pass.
pub(crate) fn kept(tree: &[u8], at: usize, depth: u32, count: u32) -> u32
    requires { StmtsRead depth count tree.now at }
    ensures { result ≡ size (rest (stmts_at depth count tree.now at).value) }
{
    let mut p = at;
    let mut sum = 0u32;
    for _ in 0..count {
        if tree[p] == PASS {
            p += 1;
        } else {
            sum += 1;
            p = skip_stmt(tree, p, depth);
        }
    }
    sum
}
