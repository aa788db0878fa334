// Numbers at a position.
ghost use Rattle.std.specs.Prelude.{◌≡◌, ◌<◌};
ghost use Rattle.tree_view.specs.Places.{count_at, CountThere};

// The big-endian number of two bytes at `at`.
pub fn u16_at(tree: &[u8], at: usize) -> u32
    requires { CountThere tree.now at }
    ensures { (result ≡ count_at tree.now at) × (result < 65536) }
{
    u32::from(u16::from_be_bytes([tree[at], tree[at + 1]]))
}
