// From the slices of the lowering's state to the module's bytes. Each writer writes from the start of the output that it is lent and answers
// how many bytes it wrote; the next one is lent the rest, from that byte on. What is to be written is measured first.
#![tactic(auto)]

mod list; // list.rt: lists of any elements
pub mod words; // words.rt: instructions from their words
mod symbols; // symbols.rt: symbols and strings
mod heights; // heights.rt: the number in a function's record
mod functions; // functions.rt: functions with their instructions
mod classes; // classes.rt: classes with their methods, constants
mod sections; // sections.rt: the sections from the areas

ghost use Rattle.std.specs.Prelude.{◌≡◌, ◌≤◌, ◌<◌, ◌^◌, length};
ghost use Rattle.definitions.specs.Module.{module_bytes};
ghost use Rattle.state.specs.State.{tables_of};
ghost use Rattle.writing.specs.Wrote.{Wrote};

use numerals::sizes::{HEAD, MODULE_VERSION};
pub use sections::Lowered;
use writing::numbers::write_head;

impl Lowered<'_> {
    // The bytes of the module.
    pub fn size(&self) -> usize
        ensures { let s = self.now in (result ≡ length (module_bytes (tables_of s.tree.now s.made.now s.code.now s.tables.now s.counts))) × (result < 2 ^ 32) }
    {
        HEAD + self.texts_size() + self.bodies_size()
    }

    // The module, whose size was asked before.
    pub fn write(&self, size: usize, out: &mut [u8]) -> usize
        requires { let s = self.now in (size ≡ length (module_bytes (tables_of s.tree.now s.made.now s.code.now s.tables.now s.counts))) × (size < 2 ^ 32) × (size ≤ length out.old) }
        ensures { let s = self.now in Wrote result (module_bytes (tables_of s.tree.now s.made.now s.code.now s.tables.now s.counts)) out.old out.new }
    {
        let mut at = write_head(size, MODULE_VERSION, out);
        at += self.write_texts(&mut out[at..]);
        at + self.write_bodies(&mut out[at..])
    }
}
