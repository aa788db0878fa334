// Names and strings: the first two lists of a module, and the names of classes and methods.
use crate::cursor::Cursor;
use byte_tests::is_name;
use utf8::is_utf8;

impl<'a> Cursor<'a> {
    ghost use Rattle.std.specs.Prelude.{MatchOption};
    ghost use Rattle.definitions.specs.Bytes.{name, text, list_of, checked};
    ghost use Rattle.definitions.specs.Wellformed.{is_name};
    ghost use Rattle.reader.specs.View.{string};
    ghost use Rattle.reader.specs.Cursors.{Read, CutOff, Skips};

    // A name: a length byte and as many bytes.
    fn name(&mut self) -> Option<&'a [u8]>
        ensures { MatchOption result (CutOff name self.old) (λ x. Read name x.now self.old self.new) }
    {
        let n = self.byte()?;
        self.take(n as usize)
    }

    // A text: a count in two bytes and as many bytes.
    fn text(&mut self) -> Option<&'a [u8]>
        ensures { MatchOption result (CutOff text self.old) (λ x. Read text x.now self.old self.new) }
    {
        let n = self.number()?;
        self.take(n as usize)
    }

    // A name that is well formed.
    pub(crate) fn proper(&mut self) -> Option<&'a [u8]>
        ensures { MatchOption result (CutOff (checked is_name name) self.old) (λ x. Read (checked is_name name) x.now self.old self.new) }
    {
        let name = self.name()?;
        if is_name(name) { Some(name) } else { None }
    }

    // A symbol: any name.
    fn symbol(&mut self) -> Option<()>
        ensures { Skips name result self.old self.new }
    {
        self.name()?;
        Some(())
    }

    // A string: a text that is well-formed UTF-8.
    fn string(&mut self) -> Option<()>
        ensures { Skips string result self.old self.new }
    {
        let text = self.text()?;
        if is_utf8(text) { Some(()) } else { None }
    }

    // The counted symbols.
    pub(crate) fn symbols(&mut self) -> Option<()>
        ensures { Skips (list_of 2 name) result self.old self.new }
    {
        self.list(|c| c.symbol())
    }

    // The counted strings.
    pub(crate) fn strings(&mut self) -> Option<()>
        ensures { Skips (list_of 2 string) result self.old self.new }
    {
        self.list(|c| c.string())
    }
}
