// The number of a symbol.
// n counts symbols: all tables share one slice of fixed memory, so a count stands beside it.
ghost use Rattle.std.specs.Prelude.{◌≡◌, map, ◌≤◌, length};
ghost use Rattle.definitions.specs.Bytes.{same, position};
ghost use Rattle.state.specs.Words.{region};
ghost use Rattle.state.specs.State.{spelled, SymbolIndex};
ghost use Rattle.names.specs.Sought.{place_in};

use crate::find::find_spelling;
use crate::index::{first_number, hash};
use numerals::places::{STRING_INDEX_FROM, SYMBOL_BUCKETS, SYMBOL_INDEX_FROM};

// The number of the symbol with the name, of n symbols.
pub fn find_symbol(tree: &[u8], made: &[u8], tables: &[u32], n: u32, name: &[u8]) -> Option<u32>
    requires { (16384 ≤ length tables.now) × (n ≤ 1024) × SymbolIndex tree.now made.now tables.now n }
    ensures { place_in result ≡ position (same name.now) (map (spelled tree.now made.now) (region 0 n tables.now)) }
{
    let first = first_number(
        &tables[SYMBOL_INDEX_FROM..STRING_INDEX_FROM],
        hash(name) % SYMBOL_BUCKETS,
        n,
    );
    let from = first as usize;
    let end = n as usize;
    let rest = find_spelling(tree, made, &tables[from..end], name)?;
    Some(first + rest as u32)
}
