// The built-ins, by their names.
ghost use Rattle.std.specs.Prelude.{◌≡◌};
ghost use Rattle.definitions.specs.Builtins.{builtin};
ghost use Rattle.names.specs.Sought.{place_in};

use byte_tests::same_bytes;

// Each built-in's name and id; ids 8 and 9 are unused.
const BUILTINS: [(&[u8], u32); 13] = [
    (b"print", 0),
    (b"input", 1),
    (b"int", 2),
    (b"bool", 3),
    (b"str", 4),
    (b"len", 5),
    (b"range", 6),
    (b"float", 7),
    (b"assert", 10),
    (b"map", 11),
    (b"filter", 12),
    (b"set", 13),
    (b"treeset", 14),
];

// The id of the built-in with the name.
pub fn find_builtin(name: &[u8]) -> Option<u32>
    ensures { place_in result ≡ builtin name.now }
{
    let found = BUILTINS.iter().find(|b| same_bytes(b.0, name))?;
    Some(found.1)
}
