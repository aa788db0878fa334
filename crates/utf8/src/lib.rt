// Well-formed UTF-8 (RFC 3629): the test of a string's bytes, for trees (8) and modules (19) alike.
#![tactic(auto)]

ghost use Rattle.std.specs.Prelude.{◌≡◌};
ghost use Rattle.definitions.specs.Utf8.{is_utf8};

// Whether the bytes are well-formed UTF-8.
pub fn is_utf8(bytes: &[u8]) -> bool
    ensures { result ≡ is_utf8 bytes.now }
{
    std::str::from_utf8(bytes).is_ok()
}
