// Question 14 of expressions: the slots of their lambdas. A position and the levels left there stay two numbers: each call gives both anew.
ghost use Rattle.std.specs.Prelude.{◌&&◌, ◌++◌, ◌+◌, ◌*◌, ◌<◌};
ghost use Rattle.definitions.specs.Slots.{captures};
ghost use Rattle.state.specs.State.{slot_names};
ghost use Rattle.definitions.specs.Fits.{fits_expr, fits_exprs, fits_target};
ghost use Rattle.tree_view.specs.Places.{name_end, params_at};
ghost use Rattle.tree_view.specs.ExprAt.{expr_at, exprs_at, ExprReads, ExprsRead, TwoAt, second_at, CallAt, ListAt, list_at, DictAt, pairs_at, AttributeAt, LambdaAt};
ghost use Rattle.fits.specs.Walk.{WalkAnswers, lambda_fits};

use crate::frame::Frame;
use numerals::kinds::ExprKind;
use numerals::places::SLOTS_FROM;
use numerals::sizes::SLOTS_ROOM;
use slots::captures::lambda_slots;
use slots::skip::{skip_expr, skip_params};
use tree_view::names::name_end;
use tree_view::numbers::u16_at;

// The answer of each is the next position, or none where a function has more than 255 slots.
impl<'a> Frame<'a> {
    // An expression.
    #[cycle(fits_exprs)]
    pub(crate) fn expr(self, at: usize, depth: u32) -> Option<usize>
        requires { ExprReads depth self.tree.now at }
        ensures { let t = self.entry.tree.now in let names = slot_names t self.entry.slots.now in
            WalkAnswers result (expr_at depth t at).end (fits_expr names (expr_at depth t at).value) }
    {
        let a = at + 1;
        let below = depth - 1;
        match ExprKind::of(self.tree[at]) {
            ExprKind::Unary => self.expr(a + 1, below),
            ExprKind::Binary => self.two(a + 1, below),
            ExprKind::Call => self.call(a, below),
            ExprKind::Attribute => self.attribute(a, below),
            ExprKind::List | ExprKind::Tuple | ExprKind::Set | ExprKind::TreeSet => {
                self.list(a, below)
            }
            ExprKind::Dict => self.dict(a, below),
            ExprKind::Index => self.two(a, below),
            ExprKind::Lambda => self.lambda(a, below),
            _ => Some(skip_expr(self.tree, at, depth)),
        }
    }

    // Two expressions.
    #[cycle(fits_exprs)]
    fn two(self, at: usize, depth: u32) -> Option<usize>
        requires { TwoAt depth self.tree.now at }
        ensures { let t = self.entry.tree.now in let names = slot_names t self.entry.slots.now in
            WalkAnswers result (second_at depth t at).end (fits_expr names (expr_at depth t at).value && fits_expr names (second_at depth t at).value) }
    {
        let p = self.expr(at, depth)?;
        self.expr(p, depth)
    }

    // A callee and its arguments.
    #[cycle(fits_exprs)]
    fn call(self, at: usize, depth: u32) -> Option<usize>
        requires { CallAt depth self.tree.now at }
        ensures { let t = self.entry.tree.now in let names = slot_names t self.entry.slots.now in let callee = expr_at depth t at in
            WalkAnswers result (list_at depth t callee.end).end (fits_expr names callee.value && fits_exprs names (list_at depth t callee.end).value) }
    {
        let p = self.expr(at, depth)?;
        self.list(p, depth)
    }

    // An object and an attribute's name.
    #[cycle(fits_exprs)]
    fn attribute(self, at: usize, depth: u32) -> Option<usize>
        requires { AttributeAt depth self.tree.now at }
        ensures { let t = self.entry.tree.now in let names = slot_names t self.entry.slots.now in
            WalkAnswers result (name_end t (expr_at depth t at).end) (fits_expr names (expr_at depth t at).value) }
    {
        let p = self.expr(at, depth)?;
        Some(name_end(self.tree, p))
    }

    // A count of expressions.
    #[cycle(fits_exprs)]
    fn list(self, at: usize, depth: u32) -> Option<usize>
        requires { ListAt depth self.tree.now at }
        ensures { let t = self.entry.tree.now in let names = slot_names t self.entry.slots.now in
            WalkAnswers result (list_at depth t at).end (fits_exprs names (list_at depth t at).value) }
    {
        let count = u16_at(self.tree, at);
        self.many(at + 2, depth, count)
    }

    // A count of keys and values.
    #[cycle(fits_exprs)]
    fn dict(self, at: usize, depth: u32) -> Option<usize>
        requires { DictAt depth self.tree.now at }
        ensures { let t = self.entry.tree.now in let names = slot_names t self.entry.slots.now in
            WalkAnswers result (pairs_at depth t at).end (fits_exprs names (pairs_at depth t at).value) }
    {
        let count = u16_at(self.tree, at);
        self.many(at + 2, depth, 2 * count)
    }

    // So many expressions; None, False and True are one byte each.
    #[cycle(fits_exprs)]
    fn many(self, at: usize, depth: u32, count: u32) -> Option<usize>
        requires { ExprsRead depth count self.tree.now at }
        ensures { let t = self.entry.tree.now in let names = slot_names t self.entry.slots.now in
            WalkAnswers result (exprs_at depth count t at).end (fits_exprs names (exprs_at depth count t at).value) }
    {
        let mut p = at;
        for _ in 0..count {
            if self.tree[p] < ExprKind::Int as u8 {
                p += 1;
                continue;
            }
            p = self.expr(p, depth)?;
        }
        Some(p)
    }

    // A lambda: its own slots, and its body with these.
    #[cycle(fits_exprs)]
    fn lambda(self, at: usize, depth: u32) -> Option<usize>
        requires { LambdaAt depth self.tree.now at }
        ensures { let t = self.entry.tree.now in let names = slot_names t self.entry.slots.now in let params = params_at t at in let body = expr_at depth t params.end in
            WalkAnswers result body.end (lambda_fits (params.value ++ captures names params.value body.value) body.value) }
    {
        let mut inner = [0u32; SLOTS_ROOM];
        let p = skip_params(self.tree, at);
        let n = lambda_slots(self.tree, at, p, depth, self.slots, &mut inner)?;
        let end = SLOTS_FROM + n as usize;
        Frame {
            tree: self.tree,
            slots: &inner[0..end],
        }
        .expr(p, depth)
    }

    // An assignment's target: the expressions of an attribute or an index; a tuple's names are none.
    pub(crate) fn target(self, at: usize, depth: u32) -> Option<usize>
        requires { ExprReads depth self.tree.now at }
        ensures { let t = self.entry.tree.now in let names = slot_names t self.entry.slots.now in
            WalkAnswers result (expr_at depth t at).end (fits_target names (expr_at depth t at).value) }
    {
        match ExprKind::of(self.tree[at]) {
            ExprKind::Attribute | ExprKind::Index => self.expr(at, depth),
            _ => Some(skip_expr(self.tree, at, depth)),
        }
    }
}
