// Calls without a loaded value: of a built-in, or of a function so far.
ghost use Rattle.std.specs.Prelude.{◌≡◌};
ghost use Rattle.definitions.specs.Tree.{view};
ghost use Rattle.definitions.specs.Measured.{direct};
ghost use Rattle.tree_view.specs.ExprAt.{expr_at, ExprReads};
ghost use Rattle.state.specs.Words.{name_at};
ghost use Rattle.measure.specs.Known.{holds_function, known};
ghost use Rattle.measure.specs.Sized.{call_more};

use crate::measurer::Measurer;
use names::calls::find_builtin;
use names::find::{find_head, find_place};
use names::number::find_symbol;
use names::spell::name_part;
use numerals::kinds::ExprKind;
use numerals::places::{CLASS_NAMES_FROM, HEADS_FROM};

impl Measurer<'_> {
    // Whether the tables hold a function with the name.
    fn holds_function(self, name: &[u8]) -> bool
        ensures { result ≡ holds_function self.entry name.now }
    {
        let tree = self.scope.tree;
        let made = self.made;
        let Some(symbol) = find_symbol(tree, made, self.entries, self.symbols, name) else {
            return false;
        };
        let end = HEADS_FROM + self.functions as usize;
        find_head(&self.entries[HEADS_FROM..end], symbol).is_some()
    }

    // Whether there is a function so far with the name.
    fn is_function(self, name: &[u8]) -> bool
        ensures { result ≡ (known self.entry).is_function name.now }
    {
        if self.holds_function(name) {
            return true;
        }
        find_place(self.scope.tree, self.new_functions, name).is_some()
    }

    // Whether there is a class so far with the name.
    fn is_class(self, name: &[u8]) -> bool
        ensures { result ≡ (known self.entry).is_class name.now }
    {
        let end = CLASS_NAMES_FROM + self.classes as usize;
        let held = &self.entries[CLASS_NAMES_FROM..end];
        if find_place(self.scope.tree, held, name).is_some() {
            return true;
        }
        find_place(self.scope.tree, self.new_classes, name).is_some()
    }

    // Whether a call of the name at `at` needs no loaded value: a built-in; or no class so far, but a function so far.
    fn is_direct(self, at: usize) -> bool
        ensures { result ≡ direct (known self.entry) (name_at self.entry.scope.tree.now at) }
    {
        let name = name_part(self.scope.tree, at);
        if find_builtin(name).is_some() {
            return true;
        }
        if self.is_class(name) {
            return false;
        }
        self.is_function(name)
    }

    // What the instruction of a call adds to its callee and its arguments: nothing where it takes the place of the callee's own, as a method's call takes
    // that of the attribute, and a direct call that of the name.
    pub(crate) fn call_more(self, at: usize, depth: u32) -> u32
        requires { ExprReads depth self.scope.tree.now at }
        ensures { result ≡ call_more (known self.entry) (view (expr_at depth self.entry.scope.tree.now at).value) }
    {
        match ExprKind::of(self.scope.tree[at]) {
            ExprKind::Variable => {
                if self.is_direct(at + 1) {
                    return 0;
                }
                1
            }
            ExprKind::Attribute => 0,
            _ => 1,
        }
    }
}
