// The first of some words that stands for a name, a string or a function.
// Each search below the first is one expression: a shared one would take a closure from each, and be no plainer.
ghost use Rattle.std.specs.Prelude.{◌≡◌, map, ◌/◌, ◌^◌, eqb};
ghost use Rattle.definitions.specs.Bytes.{same, position};
ghost use Rattle.state.specs.Words.{text_at};
ghost use Rattle.state.specs.State.{spelled, names_at};
ghost use Rattle.names.specs.Sought.{place_in};

use crate::spell::{name_part, text_part};
use byte_tests::same_bytes;
use numerals::places::{MADE_FROM, MADE_START, UPPER};

// Whether the symbol of a word is spelled so. Compared in each of its arms: tried through `spelling`, and a search takes twice as long.
fn is_spelled(tree: &[u8], made: &[u8], w: u32, name: &[u8]) -> bool
    ensures { result ≡ same name.now (spelled tree.now made.now w) }
{
    if w < MADE_FROM {
        return same_bytes(name, name_part(tree, w as usize));
    }
    same_bytes(name, name_part(made, w as usize - MADE_START))
}

// A symbol's word, by its spelling. Tried with `position` in the place of the loop, and it takes half as long again.
pub fn find_spelling(tree: &[u8], made: &[u8], words: &[u32], name: &[u8]) -> Option<usize>
    ensures { place_in result ≡ position (same name.now) (map (spelled tree.now made.now) words.now) }
{
    for i in 0..words.len() {
        if is_spelled(tree, made, words[i], name) {
            return Some(i);
        }
    }
    None
}

// A place in the tree where the name stands.
pub fn find_place(tree: &[u8], words: &[u32], name: &[u8]) -> Option<usize>
    ensures { place_in result ≡ position (same name.now) (names_at tree.now words.now) }
{
    words
        .iter()
        .position(|w| same_bytes(name, name_part(tree, *w as usize)))
}

// A place in the tree where the string stands.
pub fn find_text(tree: &[u8], words: &[u32], text: &[u8]) -> Option<usize>
    ensures { place_in result ≡ position (same text.now) (map (text_at tree.now) words.now) }
{
    words
        .iter()
        .position(|w| same_bytes(text, text_part(tree, *w as usize)))
}

// The head of a function whose name has the symbol k.
pub fn find_head(words: &[u32], k: u32) -> Option<usize>
    ensures { place_in result ≡ position (λ h. eqb k (h / 2 ^ 16)) words.now }
{
    words.iter().position(|w| k == *w / UPPER)
}
