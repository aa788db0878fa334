// Words put, jumps set, functions begun and ended: of the code and the tables that each touches alone.
// The bound of a single number stays a clause: a type for it would be opened at each use.
#![tactic(auto)]

pub mod emitter; // emitter.rt: the code and the tables
pub mod jumps; // jumps.rt: the ends of branches and loops

ghost use Rattle.std.specs.Prelude.{◌≡◌, ◌+◌, ◌-◌, ◌<◌, ◌≤◌, length};
ghost use Rattle.state.specs.Words.{word};
ghost use Rattle.lower_emit.specs.Emitting.{Puts, PutsOver, Finishes, Heads, Codes, Begun, Ended, counts_of, limits_in};

use emitter::{Code, Emitter, Entries, Names, Tables, Used};
use numerals::places::{CODES_FROM, FINISHED_FROM, HEADS_FROM, UPPER, WORD_FIRST, WORD_OP};
use numerals::sizes::MADE_ROOM;
pub use numerals::{ops, places};
use state::{Counts, Limits};

// An instruction as a word.
pub fn packed(op: u32, a: u32, b: u32) -> u32
    requires { (op < 256) × (a < 65536) × (b < 256) }
    ensures { result ≡ word op a b }
{
    op * WORD_OP + a * WORD_FIRST + b
}

impl<'a> Code<'a> {
    // The word w; none where open and finished words are at the limit.
    pub fn put(&mut self, w: u32) -> Option<()>
        ensures { Puts result w self.old self.new }
    {
        if self.limit <= self.open + self.done {
            return None;
        }
        self.words[self.open as usize] = w;
        self.open += 1;
        Some(())
    }

    // An instruction.
    pub fn put_op(&mut self, op: u32, a: u32, b: u32) -> Option<()>
        requires { (op < 256) × (a < 65536) × (b < 256) }
        ensures { Puts result (word op a b) self.old self.new }
    {
        self.put(packed(op, a, b))
    }

    // A conditional jump over n instructions and the jump after them; none where these are more than the limit.
    pub fn put_over(&mut self, op: u32, n: u32) -> Option<()>
        requires { op < 256 }
        ensures { PutsOver result op n self.old self.new }
    {
        if self.limit <= n {
            return None;
        }
        self.put_op(op, n + 1, 0)
    }

    // How many words the innermost function has: they move to the finished ones. The function around it begins at `base`.
    fn finish(&mut self, base: u32) -> u32
        requires { self.old.base ≤ self.old.open }
        ensures length { result ≡ self.old.open - self.old.base }
        ensures left { Finishes base self.old self.new }
    {
        let from = self.base;
        let end = self.open;
        let done = self.done;
        let words = &mut *self.words;
        words.copy_within(from as usize..end as usize, FINISHED_FROM + done as usize);
        self.open = from;
        self.base = base;
        self.done = done + (end - from);
        end - from
    }
}

// The next function's number, none where functions are at the limit; it has no code yet.
pub fn begin_function(
    functions: &mut Used<256>,
    entries: &mut Entries<'_>,
    symbol: u32,
    arity: u32,
    locals: u32,
) -> Option<u32>
    requires { (symbol < 65536) × (arity < 256) × (locals < 256) }
    ensures { Heads result symbol arity locals functions.old functions.new entries.old entries.new }
{
    let n = functions.count;
    if functions.limit <= n {
        return None;
    }
    entries.words[HEADS_FROM + n as usize] = symbol * UPPER + arity * 256 + locals;
    entries.words[CODES_FROM + n as usize] = 0;
    functions.count = n + 1;
    Some(n)
}

// The innermost function, number f, ends: its words move to the finished ones. The one around it begins at `base`.
pub fn end_function(code: &mut Code<'_>, entries: &mut Entries<'_>, f: u32, base: u32)
    requires { (code.old.base ≤ code.old.open) × (f < 256) }
    ensures code { Finishes base code.old code.new }
    ensures entries { Codes f code.old entries.old entries.new }
{
    let done = code.done;
    let n = code.finish(base);
    entries.words[CODES_FROM + f as usize] = done * UPPER + n;
}

impl<'a> Emitter<'a> {
    // Nothing is emitted yet.
    pub fn new(
        words: &'a mut [u32],
        made: &'a mut [u8; MADE_ROOM],
        entries: &'a mut [u32],
        limits: Limits,
    ) -> Emitter<'a>
        requires areas { (16384 ≤ length words.old) × (16384 ≤ length entries.old) }
        requires few { (limits.functions ≤ 256) × (limits.symbols ≤ 1024) × (limits.strings ≤ 512) × (limits.classes ≤ 64) × (limits.instructions ≤ 8192) }
        ensures words { (result.code.words.now ≡ words.old) × (result.code.words.ghost_name ≡ words.entry.ghost_name) }
        ensures made { (result.tables.names.made.now ≡ made.old) × (result.tables.names.made.ghost_name ≡ made.entry.ghost_name) }
        ensures entries { (result.tables.entries.words.now ≡ entries.old) × (result.tables.entries.words.ghost_name ≡ entries.entry.ghost_name) }
        ensures code { (result.code.base ≡ 0) × (result.code.open ≡ 0) × (result.code.done ≡ 0) }
        ensures names { (result.tables.names.made_len ≡ 0) × (result.tables.names.symbols.count ≡ 0) × (result.tables.strings.count ≡ 0) }
        ensures others { (result.tables.functions.count ≡ 0) × (result.tables.classes.count ≡ 0) × (result.tables.methods ≡ 0) × (result.tables.constants ≡ 0) }
        ensures limits { limits_in result ≡ limits }
    {
        let code = Code {
            words,
            base: 0,
            open: 0,
            done: 0,
            limit: limits.instructions,
        };
        let tables = Tables {
            names: Names {
                made,
                made_len: 0,
                symbols: Used {
                    count: 0,
                    limit: limits.symbols,
                },
            },
            entries: Entries { words: entries },
            strings: Used {
                count: 0,
                limit: limits.strings,
            },
            functions: Used {
                count: 0,
                limit: limits.functions,
            },
            classes: Used {
                count: 0,
                limit: limits.classes,
            },
            methods: 0,
            constants: 0,
        };
        Emitter { code, tables }
    }

    // The next function's number, none where functions are at the limit; it has no code yet, and is the innermost one.
    pub fn begin_function(&mut self, symbol: u32, arity: u32, locals: u32) -> Option<u32>
        requires { (symbol < 65536) × (arity < 256) × (locals < 256) }
        ensures { Begun result symbol arity locals self.old self.new }
    {
        let tables = &mut self.tables;
        let n = begin_function(
            &mut tables.functions,
            &mut tables.entries,
            symbol,
            arity,
            locals,
        )?;
        self.code.base = self.code.open;
        Some(n)
    }

    // The innermost function, number f, ends: its words move to the finished ones. The one around it begins at `base`.
    pub fn end_function(&mut self, f: u32, base: u32)
        requires { (self.old.code.base ≤ self.old.code.open) × (f < 256) }
        ensures { Ended f base self.old self.new }
    {
        end_function(&mut self.code, &mut self.tables.entries, f, base);
    }

    // How much of each table is used, as the module's writer takes it.
    pub fn counts(&self) -> Counts
        ensures { result ≡ counts_of self.now }
    {
        let tables = &self.tables;
        Counts {
            symbols: tables.names.symbols.count,
            strings: tables.strings.count,
            functions: tables.functions.count,
            classes: tables.classes.count,
            methods: tables.methods,
            constants: tables.constants,
            made: tables.names.made_len,
            base: self.code.base,
            open: self.code.open,
            done: self.code.done,
        }
    }
}
