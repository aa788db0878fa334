// Expressions.
ghost use Rattle.std.specs.Prelude.{◌≡◌, ◌+◌, ◌*◌, ◌≤◌, ◌<◌, length};
ghost use Rattle.definitions.specs.Tree.{view};
ghost use Rattle.definitions.specs.Slots.{captures};
ghost use Rattle.definitions.specs.Measured.{measure_expr, measure_exprs};
ghost use Rattle.tree_view.specs.Places.{name_end, params_at};
ghost use Rattle.tree_view.specs.ExprAt.{expr_at, exprs_at, ExprReads, ExprsRead, TwoAt, second_at, CallAt, ListAt, list_at, DictAt, pairs_at, AttributeAt, LambdaAt};
ghost use Rattle.measure.specs.Known.{known, names_in};
ghost use Rattle.measure.specs.Sized.{Sized, call_more, binary_more};

use crate::Measure;
use crate::measurer::Measurer;
use numerals::kinds::ExprKind;
use numerals::operators;
use numerals::sizes::SLOTS_ROOM;
use slots::captures::collect_free_vars;
use slots::skip::{skip_expr, skip_params};
use tree_view::names::name_end;
use tree_view::numbers::u16_at;

// What a binary operator adds to its operands: its instruction; `and` and `or` a question, a jump and a constant.
fn binary_more(operator: u8) -> u32
    ensures { (result ≡ binary_more operator) × (result ≤ 3) }
{
    if operator < operators::AND {
        return 1;
    }
    3
}

impl Measurer<'_> {
    // Each captured value, and the closure. The body is a function of its own.
    fn lambda(self, at: usize, depth: u32) -> Measure
        requires { LambdaAt depth self.scope.tree.now at }
        ensures { let t = self.entry.scope.tree.now in
            Sized result at (expr_at depth t (params_at t at).end).end 256
            (length (captures (names_in self.entry) (params_at t at).value (expr_at depth t (params_at t at).end).value) + 1) }
    {
        let mut places = [0u32; SLOTS_ROOM];
        let body = skip_params(self.scope.tree, at);
        let n = collect_free_vars(self.scope, at, body, depth, &mut places);
        let next = skip_expr(self.scope.tree, body, depth);
        Measure { size: n + 1, next }
    }

    // The expression at `at`, with `depth` levels left.
    #[cycle(measure_exprs)]
    pub fn expr(self, at: usize, depth: u32) -> Measure
        requires { ExprReads depth self.scope.tree.now at }
        ensures { let t = self.entry.scope.tree.now in
            Sized result at (expr_at depth t at).end 0 (measure_expr (names_in self.entry) (known self.entry) (expr_at depth t at).value) }
    {
        let a = at + 1;
        let below = depth - 1;
        match ExprKind::of(self.scope.tree[at]) {
            ExprKind::NoneLiteral
            | ExprKind::False
            | ExprKind::True
            | ExprKind::Int
            | ExprKind::Float
            | ExprKind::Text => {
                let next = skip_expr(self.scope.tree, at, depth);
                Measure { size: 1, next }
            }
            ExprKind::Variable => {
                let next = name_end(self.scope.tree, a);
                Measure { size: 1, next }
            }
            ExprKind::Unary => self.more(a + 1, below, 1),
            ExprKind::Binary => {
                let more = binary_more(self.scope.tree[a]);
                self.two(a + 1, below, more)
            }
            ExprKind::Call => self.call(a, below),
            ExprKind::Attribute => self.attribute(a, below),
            ExprKind::List | ExprKind::Tuple | ExprKind::Set | ExprKind::TreeSet => {
                self.list(a, below, 1)
            }
            ExprKind::Dict => self.dict(a, below),
            ExprKind::Index => self.two(a, below, 1),
            ExprKind::Lambda => self.lambda(a, below),
        }
    }

    // An expression, and so many instructions more.
    #[cycle(measure_exprs)]
    pub fn more(self, at: usize, depth: u32, more: u32) -> Measure
        requires { ExprReads depth self.scope.tree.now at × (more ≤ 16777216) }
        ensures { let t = self.entry.scope.tree.now in
            Sized result at (expr_at depth t at).end more (measure_expr (names_in self.entry) (known self.entry) (expr_at depth t at).value + more) }
    {
        let one = self.expr(at, depth);
        Measure {
            size: one.size + more,
            next: one.next,
        }
    }

    // Two expressions, and so many instructions more.
    #[cycle(measure_exprs)]
    fn two(self, at: usize, depth: u32, more: u32) -> Measure
        requires { TwoAt depth self.scope.tree.now at × (more ≤ 3) }
        ensures { let t = self.entry.scope.tree.now in
            Sized result at (second_at depth t at).end more
            (measure_expr (names_in self.entry) (known self.entry) (expr_at depth t at).value
            + (measure_expr (names_in self.entry) (known self.entry) (second_at depth t at).value + more)) }
    {
        let first = self.expr(at, depth);
        let second = self.expr(first.next, depth);
        Measure {
            size: first.size + (second.size + more),
            next: second.next,
        }
    }

    // A callee and its arguments, and the instruction that calls.
    #[cycle(measure_exprs)]
    fn call(self, at: usize, depth: u32) -> Measure
        requires { CallAt depth self.scope.tree.now at }
        ensures { let t = self.entry.scope.tree.now in let callee = expr_at depth t at in
            Sized result at (list_at depth t callee.end).end 1
            (measure_expr (names_in self.entry) (known self.entry) callee.value + call_more (known self.entry) (view callee.value)
            + measure_exprs (names_in self.entry) (known self.entry) (list_at depth t callee.end).value) }
    {
        let callee = self.expr(at, depth);
        let more = self.call_more(at, depth);
        self.list(callee.next, depth, callee.size + more)
    }

    // An object, and the load of its attribute.
    #[cycle(measure_exprs)]
    fn attribute(self, at: usize, depth: u32) -> Measure
        requires { AttributeAt depth self.scope.tree.now at }
        ensures { let t = self.entry.scope.tree.now in
            Sized result at (name_end t (expr_at depth t at).end) 1 (measure_expr (names_in self.entry) (known self.entry) (expr_at depth t at).value + 1) }
    {
        let object = self.expr(at, depth);
        Measure {
            size: object.size + 1,
            next: name_end(self.scope.tree, object.next),
        }
    }

    // A count of expressions, and so many instructions more.
    #[cycle(measure_exprs)]
    fn list(self, at: usize, depth: u32, more: u32) -> Measure
        requires { ListAt depth self.scope.tree.now at × (more ≤ 16777216) }
        ensures { let t = self.entry.scope.tree.now in
            Sized result at (list_at depth t at).end more (more + measure_exprs (names_in self.entry) (known self.entry) (list_at depth t at).value) }
    {
        let count = u16_at(self.scope.tree, at);
        self.many(at + 2, depth, count, more)
    }

    // A count of keys and values, and the instruction that makes a dict.
    #[cycle(measure_exprs)]
    fn dict(self, at: usize, depth: u32) -> Measure
        requires { DictAt depth self.scope.tree.now at }
        ensures { let t = self.entry.scope.tree.now in
            Sized result at (pairs_at depth t at).end 1 (1 + measure_exprs (names_in self.entry) (known self.entry) (pairs_at depth t at).value) }
    {
        let count = u16_at(self.scope.tree, at);
        self.many(at + 2, depth, 2 * count, 1)
    }

    // So many expressions, and so many instructions more.
    #[cycle(measure_exprs)]
    fn many(self, at: usize, depth: u32, count: u32, more: u32) -> Measure
        requires { ExprsRead depth count self.scope.tree.now at × (more ≤ 16777216) }
        ensures { let t = self.entry.scope.tree.now in
            Sized result at (exprs_at depth count t at).end more (more + measure_exprs (names_in self.entry) (known self.entry) (exprs_at depth count t at).value) }
    {
        let mut next = at;
        let mut size = more;
        for _ in 0..count {
            let one = self.expr(next, depth);
            size += one.size;
            next = one.next;
        }
        Measure { size, next }
    }
}
