// What a lambda captures, and its slots: its parameters, then its captures.
// A place and the levels left there stay two numbers, as in skip: each call gives both anew.
// A short tree and the room of the slots stay clauses of lambda_slots, as in collect.
ghost use Rattle.std.specs.Prelude.{◌++◌, ◌+◌, ◌≤◌, length};
ghost use Rattle.definitions.specs.Slots.{captures};
ghost use Rattle.state.specs.State.{slots_from, slot_names, Slots};
ghost use Rattle.tree_view.specs.Places.{ParamsAt, params_at};
ghost use Rattle.tree_view.specs.ExprAt.{expr_at, ExprReads};
ghost use Rattle.slots.specs.Slotted.{Collected};
ghost use Rattle.slots.specs.Held.{WalkKeeps, CapturesAt};
ghost use Rattle.slots.specs.HeldProps.{keeping-prop};

use crate::add::{add_at, bucket_at, slot_of};
use crate::collect::put_params;
use crate::index::append_slots;
use crate::order::sort_names;
use crate::skip::{skip_expr, skip_params};
use numerals::kinds::ExprKind;
use numerals::places::SLOTS_FROM;
use numerals::sizes::{SLOTS_MARKED, SLOTS_MOST, SLOTS_ROOM};
use state::Scope;
use tree_view::names::name_end;
use tree_view::numbers::u16_at;

// A walk over a lambda's body: the first n of `kept` are the names met that have a slot around that is not marked. Marked are those of the parameters of
// the lambda, and of those in it that the walk stands in.
#[derive(Drop)]
struct Captures<'a, 'k> {
    around: Scope<'a>,
    marked: [bool; SLOTS_MARKED],
    kept: &'k mut [u32],
    n: u32,
    ghost keeping: { WalkKeeps around.tree.now around.slots.now kept.now n } by { keeping-prop _ _ _ _ },
}

impl Captures<'_, '_> {
    ghost use Rattle.std.specs.Prelude.{◌≡◌};
    ghost use Rattle.tree_view.specs.Places.{name_from, There};
    ghost use Rattle.tree_view.specs.ExprAt.{exprs_at, ExprsRead, TwoAt, index_at, CallAt, call_at, ListAt, list_at, DictAt, pairs_at, AttributeAt, attribute_at, LambdaAt, lambda_at};
    ghost use Rattle.slots.specs.Held.{mark, mark_all, is_free, add_held, held_expr, held_exprs};
    ghost use Rattle.slots.specs.Slotted.{IsBucket};
    ghost use Rattle.slots.specs.Captured.{names_around, names_kept, MarksSlots, Keeps, Refers};

    // The name at `at` is a parameter: its slot, if it has one, is marked.
    fn mark(&mut self, at: usize)
        ensures { MarksSlots (mark (names_around self.old.around) (name_from self.old.around.tree.now at) self.old.marked) self.old self.new }
    {
        let b = bucket_at(self.around.tree, at);
        if let Some(i) = slot_of(self.around.tree, self.around.slots, at, b) {
            self.marked[i] = true;
        }
    }

    // The parameters at `params` are marked.
    fn mark_params(&mut self, params: usize)
        requires { ParamsAt self.old.around.tree.now params }
        ensures { MarksSlots (mark_all (names_around self.old.around) (params_at self.old.around.tree.now params).value self.old.marked) self.old self.new }
    {
        let count = u16_at(self.around.tree, params);
        let mut p = params + 2;
        for _ in 0..count {
            self.mark(p);
            p = name_end(self.around.tree, p);
        }
    }

    // Whether the name at `at`, whose bucket is b, has a slot that is not marked.
    fn is_free(&self, at: usize, b: usize) -> bool
        requires { IsBucket b self.now.around.tree.now at }
        ensures { result ≡ is_free (names_around self.now.around) self.now.marked (name_from self.now.around.tree.now at) }
    {
        match slot_of(self.around.tree, self.around.slots, at, b) {
            Some(i) => !self.marked[i],
            None => false,
        }
    }

    // The name at `at`.
    fn name(&mut self, at: usize)
        requires { There self.old.around.tree.now at }
        ensures { Keeps (add_held (names_around self.old.around) self.old.marked (name_from self.old.around.tree.now at) (names_kept self.old)) self.old self.new }
    {
        let tree = self.around.tree;
        let b = bucket_at(tree, at);
        if self.is_free(at, b) {
            self.n = add_at(tree, self.kept, self.n, at, b);
        }
    }

    // The names of an expression.
    #[cycle(refs)]
    fn expr(&mut self, at: usize, depth: u32) -> usize
        requires { ExprReads depth self.old.around.tree.now at }
        ensures { Refers result (expr_at depth self.old.around.tree.now at) held_expr self.old self.new }
    {
        let tree = self.around.tree;
        let a = at + 1;
        match ExprKind::of(tree[at]) {
            ExprKind::NoneLiteral
            | ExprKind::False
            | ExprKind::True
            | ExprKind::Int
            | ExprKind::Float
            | ExprKind::Text => skip_expr(tree, at, depth),
            ExprKind::Variable => {
                self.name(a);
                name_end(tree, a)
            }
            ExprKind::Unary => self.expr(a + 1, depth - 1),
            ExprKind::Binary => self.two(a + 1, depth - 1),
            ExprKind::Call => self.call(a, depth - 1),
            ExprKind::Attribute => self.attribute(a, depth - 1),
            ExprKind::List | ExprKind::Tuple | ExprKind::Set | ExprKind::TreeSet => self.list(
                a,
                depth - 1,
            ),
            ExprKind::Dict => self.dict(a, depth - 1),
            ExprKind::Index => self.two(a, depth - 1),
            ExprKind::Lambda => self.lambda(a, depth - 1),
        }
    }

    // Two expressions.
    #[cycle(refs)]
    fn two(&mut self, at: usize, depth: u32) -> usize
        requires { TwoAt depth self.old.around.tree.now at }
        ensures { Refers result (index_at depth self.old.around.tree.now at) held_expr self.old self.new }
    {
        let p = self.expr(at, depth);
        self.expr(p, depth)
    }

    // A callee and its arguments.
    #[cycle(refs)]
    fn call(&mut self, at: usize, depth: u32) -> usize
        requires { CallAt depth self.old.around.tree.now at }
        ensures { Refers result (call_at depth self.old.around.tree.now at) held_expr self.old self.new }
    {
        let p = self.expr(at, depth);
        self.list(p, depth)
    }

    // An object and an attribute's name.
    #[cycle(refs)]
    fn attribute(&mut self, at: usize, depth: u32) -> usize
        requires { AttributeAt depth self.old.around.tree.now at }
        ensures { Refers result (attribute_at depth self.old.around.tree.now at) held_expr self.old self.new }
    {
        let p = self.expr(at, depth);
        name_end(self.around.tree, p)
    }

    // A count of expressions.
    #[cycle(refs)]
    fn list(&mut self, at: usize, depth: u32) -> usize
        requires { ListAt depth self.old.around.tree.now at }
        ensures { Refers result (list_at depth self.old.around.tree.now at) held_exprs self.old self.new }
    {
        let count = u16_at(self.around.tree, at);
        self.many(at + 2, depth, count)
    }

    // A count of keys and values.
    #[cycle(refs)]
    fn dict(&mut self, at: usize, depth: u32) -> usize
        requires { DictAt depth self.old.around.tree.now at }
        ensures { Refers result (pairs_at depth self.old.around.tree.now at) held_exprs self.old self.new }
    {
        let count = u16_at(self.around.tree, at);
        self.many(at + 2, depth, 2 * count)
    }

    // So many expressions.
    #[cycle(refs)]
    fn many(&mut self, at: usize, depth: u32, count: u32) -> usize
        requires { ExprsRead depth count self.old.around.tree.now at }
        ensures { Refers result (exprs_at depth count self.old.around.tree.now at) held_exprs self.old self.new }
    {
        let mut p = at;
        for _ in 0..count {
            p = self.expr(p, depth);
        }
        p
    }

    // A lambda: its body is walked with a copy of the marks, in which its parameters are marked, too.
    #[cycle(refs)]
    fn lambda(&mut self, at: usize, depth: u32) -> usize
        requires { LambdaAt depth self.old.around.tree.now at }
        ensures { Refers result (lambda_at depth self.old.around.tree.now at) held_expr self.old self.new }
    {
        let kept = &mut *self.kept;
        let mut inner = Captures {
            around: self.around,
            marked: self.marked,
            kept,
            n: self.n,
        };
        inner.mark_params(at);
        let body = skip_params(inner.around.tree, at);
        let end = inner.expr(body, depth);
        self.n = inner.n;
        end
    }
}

// The captures of a lambda, by its parameters and its body.
pub fn collect_free_vars(
    around: Scope<'_>,
    params: usize,
    body: usize,
    depth: u32,
    places: &mut [u32],
) -> u32
    requires room { (length around.tree.now ≤ 32768) × (slots_from + 256 ≤ length places.old) }
    requires there { ParamsAt around.tree.now params × ExprReads depth around.tree.now body }
    ensures { let t = around.entry.tree.now in let s = around.entry.slots.now in CapturesAt result t s places.new (captures (slot_names t s) (params_at t params).value (expr_at depth t body).value) }
{
    let mut all = Captures {
        around,
        marked: [false; SLOTS_MARKED],
        kept: places,
        n: 0,
    };
    all.mark_params(params);
    all.expr(body, depth);
    let n = all.n;
    let end = SLOTS_FROM + n as usize;
    sort_names(around.tree, &mut places[SLOTS_FROM..end]);
    n
}

// The slots of a lambda: its parameters, then its captures; none where there are more than 255.
pub fn lambda_slots(
    tree: &[u8],
    params: usize,
    body: usize,
    depth: u32,
    parent: &[u32],
    slots: &mut [u32],
) -> Option<u32>
    requires { (length tree.now ≤ 32768) × Slots tree.now parent.now × (slots_from + 256 ≤ length slots.old) × ParamsAt tree.now params × ExprReads depth tree.now body }
    ensures { Collected result tree.now slots.new ((params_at tree.now params).value ++ captures (slot_names tree.now parent.now) (params_at tree.now params).value (expr_at depth tree.now body).value) }
{
    let k = put_params(tree, params, slots)?;
    let mut kept = [0u32; SLOTS_ROOM];
    let around = Scope {
        tree,
        slots: parent,
    };
    let n = collect_free_vars(around, params, body, depth, &mut kept);
    if SLOTS_MOST < k + n {
        return None;
    }
    let end = SLOTS_FROM + n as usize;
    append_slots(tree, slots, k, &kept[SLOTS_FROM..end]);
    Some(k + n)
}
