// Operators at a position.
ghost use Rattle.std.specs.Prelude.{◌≡◌};
ghost use Rattle.tree_view.specs.Judge.{operator_at};

// Whether an operator below `limit` stands at `at`.
pub(crate) fn operator_at(tree: &[u8], at: usize, limit: u8) -> bool
    ensures { result ≡ operator_at limit tree.now at }
{
    if tree.len() <= at {
        return false;
    }
    tree[at] < limit
}
