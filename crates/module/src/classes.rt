// Classes with their methods, and the constants.
ghost use Rattle.std.specs.Prelude.{ℕ, ◌≡◌, ◌/◌, ◌%◌, ◌<◌, length, map, get_or};
ghost use Rattle.definitions.specs.Bytes.{be};
ghost use Rattle.definitions.specs.Module.{method_bytes, class_bytes};
ghost use Rattle.state.specs.Words.{region};
ghost use Rattle.state.specs.State.{method_from, classes_of};

use crate::functions::placed;
use crate::list::{Listed, list_size, write_list};
use names::spell::name_part;
use writing::numbers::{write_counted, write_number};

// Methods, by their words: the place of the name and the function's number.
#[derive(Clone, Copy)]
pub(crate) struct Methods<'a> {
    pub tree: &'a [u8],
    pub words: &'a [u32],
    ghost tree_bytes: { (i : ℕ) → get_or tree.now i 0 < 256 },
}

impl Listed for Methods<'_> {
    ghost elements = { λ s. map (λ w. method_bytes (method_from s.tree.now w)) s.words.now };

    fn count(&self) -> usize {
        self.words.len()
    }

    fn size_at(&self, i: usize) -> usize {
        3 + name_part(self.tree, (self.words[i] / 256) as usize).len()
    }

    fn write_at(&self, i: usize, out: &mut [u8]) -> usize {
        let word = self.words[i];
        let name = name_part(self.tree, (word / 256) as usize);
        let at = write_counted(1, name, out);
        at + write_number(2, (word % 256) as u64, &mut out[at..])
    }
}

// Classes, by the places of their names and of their methods.
#[derive(Clone, Copy)]
pub(crate) struct Classes<'a> {
    pub tree: &'a [u8],
    pub methods: &'a [u32],
    pub names: &'a [u32],
    pub places: &'a [u32],
    ghost tree_bytes: { (i : ℕ) → get_or tree.now i 0 < 256 },
}

impl<'a> Classes<'a> {
    // The methods of one class.
    fn methods_at(&self, i: usize) -> Methods<'a>
        requires { i < length self.now.places.now }
        ensures tree { result.tree.now ≡ self.now.tree.now }
        ensures words { let k = get_or self.now.places.now i 0 in result.words.now ≡ region (k / 65536) (k % 65536) self.now.methods.now }
    {
        Methods {
            tree: self.tree,
            words: placed(self.methods, self.places[i]),
        }
    }
}

impl Listed for Classes<'_> {
    ghost elements = { λ s. map class_bytes (classes_of s.tree.now s.methods.now s.names.now s.places.now) };

    fn count(&self) -> usize {
        self.names.len().min(self.places.len())
    }

    fn size_at(&self, i: usize) -> usize {
        let name = name_part(self.tree, self.names[i] as usize);
        let methods = self.methods_at(i);
        1 + name.len() + list_size(&methods)
    }

    fn write_at(&self, i: usize, out: &mut [u8]) -> usize {
        let name = name_part(self.tree, self.names[i] as usize);
        let methods = self.methods_at(i);
        let at = write_counted(1, name, out);
        at + write_list(&methods, &mut out[at..])
    }
}

// The constants: the class number of each.
#[derive(Clone, Copy)]
pub(crate) struct Constants<'a> {
    pub entries: &'a [u32],
}

impl Listed for Constants<'_> {
    ghost elements = { λ s. map (be 2) s.entries.now };

    fn count(&self) -> usize {
        self.entries.len()
    }

    // The same at every place.
    fn size_at(&self, i: usize) -> usize {
        let _ = i;
        2
    }

    fn write_at(&self, i: usize, out: &mut [u8]) -> usize {
        write_number(2, self.entries[i] as u64, out)
    }
}
