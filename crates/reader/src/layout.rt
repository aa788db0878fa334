// The whole module: the head, the five lists, and the questions of what they hold.
// Where the lists are (Sectioned) is said of the bytes and the sections: these go to other crates without the bytes.
ghost use Rattle.std.specs.Prelude.{◌≡◌, ◌+◌, ◌≤◌, length, drop, true, false, MatchOption};
ghost use Rattle.definitions.specs.Calls.{read_call};
ghost use Rattle.definitions.specs.Reader.{module_record, whole_module, numbers_exist};
ghost use Rattle.reader.specs.Asks.{list_lengths};
ghost use Rattle.reader.specs.View.{Lays, Lists, Sectioned, module_tables, HeadAsked, said, bare, Opens};

use crate::cursor::Cursor;
use crate::numbers::number_at;
use crate::{Asked, Counts, Part, Sections};
use numerals::sizes::{COUNT, HEAD, MODULE_MOST, MODULE_VERSION};
use questions::Question;

// Questions 17 and 18.
fn read_head(bytes: &[u8]) -> Result<(), Question>
    ensures { HeadAsked result bytes.now }
{
    if MODULE_MOST < bytes.len() {
        return Err(Question::ModuleSize);
    }
    if bytes.len() < COUNT {
        return Err(Question::ModuleSize);
    }
    if number_at(bytes, 0, COUNT) != (bytes.len() - COUNT) as u64 {
        return Err(Question::ModuleSize);
    }
    if bytes.len() < HEAD {
        return Err(Question::ModuleVersion);
    }
    if bytes[COUNT] != MODULE_VERSION {
        return Err(Question::ModuleVersion);
    }
    Ok(())
}

// The list from `start` to `end`.
fn list_in(bytes: &[u8], start: usize, end: usize) -> Part
    requires { (start + 2 ≤ end) × (end ≤ length bytes.now) }
    ensures { Lists result bytes.now start end }
{
    Part {
        start,
        size: end - start,
        count: number_at(bytes, start, 2),
    }
}

// Question 19, of what follows the head.
fn lay(bytes: &[u8]) -> Option<Sections>
    requires { 5 ≤ length bytes.now }
    ensures { Lays result bytes.now }
{
    let mut c = Cursor::new(bytes, HEAD);
    c.symbols()?;
    let strings = c.at;
    c.strings()?;
    let functions = c.at;
    c.functions(Asked::Layout)?;
    let classes = c.at;
    c.classes(Asked::Layout)?;
    let constants = c.at;
    c.constants(Asked::Layout)?;
    if c.at != bytes.len() {
        return None;
    }
    Some(Sections {
        strings: list_in(bytes, strings, functions),
        functions: list_in(bytes, functions, classes),
        classes: list_in(bytes, classes, constants),
        constants: list_in(bytes, constants, c.at),
    })
}

// The counts of a module's lists.
fn counts_of(bytes: &[u8], sections: Sections) -> Counts
    requires { Sectioned bytes.now sections }
    ensures { result ≡ list_lengths (module_tables bytes.now) }
{
    Counts {
        symbols: number_at(bytes, HEAD, 2),
        strings: sections.strings.count,
        functions: sections.functions.count,
        classes: sections.classes.count,
        constants: sections.constants.count,
    }
}

// Question 20 of the lists.
fn ask_numbers(bytes: &[u8], sections: Sections) -> Option<()>
    requires { Sectioned bytes.now sections }
    ensures { MatchOption result (numbers_exist (module_tables bytes.now) ≡ false) (λ _. numbers_exist (module_tables bytes.now) ≡ true) }
{
    let asked = Asked::Numbers(counts_of(bytes, sections));
    let mut c = Cursor::new(bytes, sections.functions.start);
    c.functions(asked)?;
    c.classes(asked)?;
    c.constants(asked)
}

// Questions 20 and 21, of a module that follows the layout.
fn judge(bytes: &[u8], sections: Sections) -> Result<(), Question>
    requires { Sectioned bytes.now sections }
    ensures { said result ≡ bare (whole_module (module_record (drop 5 bytes.now))) }
{
    ask_numbers(bytes, sections).ok_or(Question::Numbers)?;
    let mut c = Cursor::new(bytes, sections.functions.start);
    c.functions(Asked::Jumps).ok_or(Question::Jumps)?;
    Ok(())
}

// Questions 17 to 21: where the lists of an accepted module are.
pub fn read_module(bytes: &[u8]) -> Result<Sections, Question>
    ensures answer { said result ≡ read_call bytes.now }
    ensures sections { Opens result bytes.now }
{
    read_head(bytes)?;
    let sections = lay(bytes).ok_or(Question::ModuleLayout)?;
    judge(bytes, sections)?;
    Ok(sections)
}
