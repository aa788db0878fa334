// Two accepted trees in step: their rests are compared part by part, from the trees' own bytes, with counts mended on the way.
#![tactic(auto)]

pub mod spans; // spans.rt: parts that a rest leaves as they are, and counts

ghost use Rattle.std.specs.Prelude.{◌≡◌, ◌+◌, ◌-◌, ◌<◌, get_or};
ghost use Rattle.definitions.specs.TreeBytes.{size};
ghost use Rattle.definitions.specs.Rests.{rest};
ghost use Rattle.tree_view.specs.Places.{name_end};
ghost use Rattle.tree_view.specs.StmtAt.{stmt_at, block_at, stmts_at, branches_at, methods_at, StmtReads, BlockReads, StmtsRead, BranchesRead, MethodsRead, BranchAt, body_at, IfAt, elifs_at, ForAt, DefAt, def_block_at};
ghost use Rattle.instep.specs.Stepping.{Bytes, SideBySide, rest_stmt_at, rest_stmts_at, rest_block_at, rest_branch_at, rest_if_at, rest_branches_at, rest_for_at, rest_def_at, rest_methods_at};

use crate::spans::{PASS, kept, same_number};
use numerals::kinds::StmtKind;
use slots::skip::skip_stmt;
use std::cmp::Ordering;
use tree_view::numbers::u16_at;

// Two trees, lent. What is asked of a place in each of them stays a clause of each step, which names the place.
#[derive(Clone, Copy)]
pub struct Trees<'a> {
    pub first: &'a [u8],
    pub second: &'a [u8],
}

// A place in each tree.
#[derive(Clone, Copy)]
pub struct Spot {
    pub first: usize,
    pub second: usize,
}

// Each step answers where the two parts end, if their rests are the same bytes; else the order of the first bytes that differ.
impl<'a> Trees<'a> {
    // A statement that is no Pass, or a Pass on both sides.
    #[cycle(step)]
    fn stmt(self, at: Spot, depth: u32) -> Result<Spot, Ordering>
        requires { Bytes self.first.now self.second.now × StmtReads depth self.first.now at.first × StmtReads depth self.second.now at.second }
        ensures { let a = self.entry.first.now in let b = self.entry.second.now in
            SideBySide result (rest_stmt_at depth a at.first) (rest_stmt_at depth b at.second) (stmt_at depth a at.first).end (stmt_at depth b at.second).end }
    {
        let kind = self.first[at.first];
        same_number(kind as u32, self.second[at.second] as u32)?;
        let held = Spot {
            first: at.first + 1,
            second: at.second + 1,
        };
        match StmtKind::of(kind) {
            StmtKind::Break | StmtKind::Continue | StmtKind::Pass => Ok(held),
            StmtKind::Expr | StmtKind::Return => self.expr(held, depth - 1),
            StmtKind::Assign => self.two(held, depth - 1),
            StmtKind::If => self.branches(held, depth - 1),
            StmtKind::While => self.branch(held, depth - 1),
            StmtKind::For => self.loop_over(held, depth - 1),
            StmtKind::Def => self.def(held, depth - 1),
            StmtKind::Class => self.class(at, depth),
        }
    }

    // m statements and n, of which as many are no Pass. Each side moves on by itself, so both positions and what is left of each are counted by hand.
    #[cycle(step)]
    fn stmts(self, at: Spot, depth: u32, m: u32, n: u32) -> Result<Spot, Ordering>
        requires { Bytes self.first.now self.second.now × StmtsRead depth m self.first.now at.first × StmtsRead depth n self.second.now at.second
            × (size (rest (stmts_at depth m self.first.now at.first).value) ≡ size (rest (stmts_at depth n self.second.now at.second).value)) }
        ensures { let a = self.entry.first.now in let b = self.entry.second.now in
            SideBySide result (rest_stmts_at depth m a at.first) (rest_stmts_at depth n b at.second) (stmts_at depth m a at.first).end (stmts_at depth n b at.second).end }
    {
        let mut x = at.first;
        let mut y = at.second;
        let mut i = m;
        let mut j = n;
        while 0 < i {
            if self.first[x] == PASS {
                x += 1;
                i -= 1;
            } else if self.second[y] == PASS {
                y += 1;
                j -= 1;
            } else {
                let next = self.stmt(
                    Spot {
                        first: x,
                        second: y,
                    },
                    depth,
                )?;
                x = next.first;
                y = next.second;
                i -= 1;
                j -= 1;
            }
        }
        Ok(Spot {
            first: x,
            second: y + j as usize,
        })
    }

    // A block: the count of what is left of it, then the statements.
    #[cycle(step)]
    pub fn block(self, at: Spot, depth: u32) -> Result<Spot, Ordering>
        requires { Bytes self.first.now self.second.now × BlockReads depth self.first.now at.first × BlockReads depth self.second.now at.second }
        ensures { let a = self.entry.first.now in let b = self.entry.second.now in
            SideBySide result (rest_block_at depth a at.first) (rest_block_at depth b at.second) (block_at depth a at.first).end (block_at depth b at.second).end }
    {
        let m = u16_at(self.first, at.first);
        let n = u16_at(self.second, at.second);
        let inside = Spot {
            first: at.first + 2,
            second: at.second + 2,
        };
        let left = kept(self.first, inside.first, depth, m);
        let other = kept(self.second, inside.second, depth, n);
        same_number(left, other)?;
        self.stmts(inside, depth, m, n)
    }

    // A condition and a block.
    #[cycle(step)]
    fn branch(self, at: Spot, depth: u32) -> Result<Spot, Ordering>
        requires { Bytes self.first.now self.second.now × BranchAt depth self.first.now at.first × BranchAt depth self.second.now at.second }
        ensures { let a = self.entry.first.now in let b = self.entry.second.now in
            SideBySide result (rest_branch_at depth a at.first) (rest_branch_at depth b at.second) (body_at depth a at.first).end (body_at depth b at.second).end }
    {
        let next = self.expr(at, depth)?;
        self.block(next, depth)
    }

    // A first branch, a count of elifs, these, and an else block or none.
    #[cycle(step)]
    fn branches(self, at: Spot, depth: u32) -> Result<Spot, Ordering>
        requires { Bytes self.first.now self.second.now × IfAt depth self.first.now at.first × IfAt depth self.second.now at.second }
        ensures { let a = self.entry.first.now in let b = self.entry.second.now in
            SideBySide result (rest_if_at depth a at.first) (rest_if_at depth b at.second) (elifs_at depth a at.first).end (elifs_at depth b at.second).end }
    {
        let next = self.branch(at, depth)?;
        let count = u16_at(self.first, next.first);
        let other = u16_at(self.second, next.second);
        same_number(count, other)?;
        self.elifs(
            Spot {
                first: next.first + 2,
                second: next.second + 2,
            },
            depth,
            count,
        )
    }

    // So many elifs, and an else block or none.
    #[cycle(step)]
    fn elifs(self, at: Spot, depth: u32, count: u32) -> Result<Spot, Ordering>
        requires { Bytes self.first.now self.second.now × BranchesRead depth count self.first.now at.first × BranchesRead depth count self.second.now at.second }
        ensures { let a = self.entry.first.now in let b = self.entry.second.now in
            SideBySide result (rest_branches_at depth count a at.first) (rest_branches_at depth count b at.second)
            (branches_at depth count a at.first).end (branches_at depth count b at.second).end }
    {
        let mut p = at;
        for _ in 0..count {
            p = self.branch(p, depth)?;
        }
        self.else_block(p, depth)
    }

    // The byte 0; or 1, and an else block.
    #[cycle(step)]
    fn else_block(self, at: Spot, depth: u32) -> Result<Spot, Ordering>
        requires { Bytes self.first.now self.second.now × BranchesRead depth 0 self.first.now at.first × BranchesRead depth 0 self.second.now at.second }
        ensures { let a = self.entry.first.now in let b = self.entry.second.now in
            SideBySide result (rest_branches_at depth 0 a at.first) (rest_branches_at depth 0 b at.second)
            (branches_at depth 0 a at.first).end (branches_at depth 0 b at.second).end }
    {
        let there = self.first[at.first];
        same_number(there as u32, self.second[at.second] as u32)?;
        let held = Spot {
            first: at.first + 1,
            second: at.second + 1,
        };
        if there == 0 {
            return Ok(held);
        }
        self.block(held, depth)
    }

    // A loop variable, an expression and a block.
    #[cycle(step)]
    fn loop_over(self, at: Spot, depth: u32) -> Result<Spot, Ordering>
        requires { Bytes self.first.now self.second.now × ForAt depth self.first.now at.first × ForAt depth self.second.now at.second }
        ensures { let a = self.entry.first.now in let b = self.entry.second.now in
            SideBySide result (rest_for_at depth a at.first) (rest_for_at depth b at.second)
            (body_at depth a (name_end a at.first)).end (body_at depth b (name_end b at.second)).end }
    {
        let next = self.name(at)?;
        self.branch(next, depth)
    }

    // A name, parameters and a block: a def after its kind byte, a method.
    #[cycle(step)]
    fn def(self, at: Spot, depth: u32) -> Result<Spot, Ordering>
        requires { Bytes self.first.now self.second.now × DefAt depth self.first.now at.first × DefAt depth self.second.now at.second }
        ensures { let a = self.entry.first.now in let b = self.entry.second.now in
            SideBySide result (rest_def_at depth a at.first) (rest_def_at depth b at.second) (def_block_at depth a at.first).end (def_block_at depth b at.second).end }
    {
        let params = self.name(at)?;
        let block = self.params(params)?;
        self.block(block, depth)
    }

    // So many methods.
    #[cycle(step)]
    fn methods(self, at: Spot, depth: u32, count: u32) -> Result<Spot, Ordering>
        requires { Bytes self.first.now self.second.now × MethodsRead depth count self.first.now at.first × MethodsRead depth count self.second.now at.second }
        ensures { let a = self.entry.first.now in let b = self.entry.second.now in
            SideBySide result (rest_methods_at depth count a at.first) (rest_methods_at depth count b at.second)
            (methods_at depth count a at.first).end (methods_at depth count b at.second).end }
    {
        let mut p = at;
        for _ in 0..count {
            p = self.def(p, depth)?;
        }
        Ok(p)
    }

    // A class with its kind byte at both places: its name, a count of methods, these; attributes are passed over.
    #[cycle(step)]
    fn class(self, at: Spot, depth: u32) -> Result<Spot, Ordering>
        requires { Bytes self.first.now self.second.now × StmtReads depth self.first.now at.first × (get_or self.first.now at.first 0 ≡ 10)
            × StmtReads depth self.second.now at.second × (get_or self.second.now at.second 0 ≡ 10) }
        ensures { let a = self.entry.first.now in let b = self.entry.second.now in
            SideBySide result (rest_stmt_at depth a at.first) (rest_stmt_at depth b at.second) (stmt_at depth a at.first).end (stmt_at depth b at.second).end }
    {
        let next = self.name(Spot {
            first: at.first + 1,
            second: at.second + 1,
        })?;
        let count = u16_at(self.first, next.first);
        let other = u16_at(self.second, next.second);
        same_number(count, other)?;
        self.methods(
            Spot {
                first: next.first + 2,
                second: next.second + 2,
            },
            depth - 1,
            count,
        )?;
        let first = skip_stmt(self.first, at.first, depth);
        let second = skip_stmt(self.second, at.second, depth);
        Ok(Spot { first, second })
    }
}
