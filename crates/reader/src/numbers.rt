// Numbers of several bytes.
ghost use Rattle.std.specs.Prelude.{◌≡◌, ◌+◌, ◌^◌, ◌≤◌, ◌<◌, length};
ghost use Rattle.reader.specs.View.{number_at};

// The big-endian number of `width` bytes at `at`, byte by byte.
fn long_number(bytes: &[u8], at: usize, width: usize) -> u64
    requires { (at + width ≤ length bytes.now) × (width ≤ 8) }
    ensures { (result ≡ number_at width bytes.now at) × (result < 256 ^ width) }
{
    let mut n = 0u64;
    for i in 0..width {
        n = n * 256 + bytes[at + i] as u64;
    }
    n
}

// The big-endian number of `width` bytes at `at`.
pub fn number_at(bytes: &[u8], at: usize, width: usize) -> u64
    requires { (at + width ≤ length bytes.now) × (width ≤ 8) }
    ensures { (result ≡ number_at width bytes.now at) × (result < 256 ^ width) }
{
    match width {
        0 => 0,
        1 => bytes[at] as u64,
        2 => bytes[at] as u64 * 256 + bytes[at + 1] as u64,
        _ => long_number(bytes, at, width),
    }
}
