// Names: a length byte and its bytes.
// There is said of the place that a call names, so no struct keeps it.
ghost use Rattle.std.specs.Prelude.{◌≡◌, ◌+◌};
ghost use Rattle.tree_view.specs.Places.{name_from, name_end, There};

// The bytes of the name at `at`.
pub fn name_part<'a>(tree: &'a [u8], at: usize) -> &'a [u8]
    requires { There tree.now at }
    ensures result_value { result.now ≡ name_from tree.now at }
    ensures begins { (result.ref_ptr.0 ≡ tree.entry.ref_ptr.0) × (result.ref_ptr.1 ≡ tree.entry.ref_ptr.1 + (at + 1)) }
{
    let from = at + 1;
    let end = from + tree[at] as usize;
    &tree[from..end]
}

// Where the name at `at` ends.
pub fn name_end(tree: &[u8], at: usize) -> usize
    requires { There tree.now at }
    ensures { result ≡ name_end tree.now at }
{
    at + 1 + tree[at] as usize
}
