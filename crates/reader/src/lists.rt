// Counted lists: two bytes with the count, and as many records.
use crate::cursor::Cursor;

impl<'a> Cursor<'a> {
    ghost use Rattle.std.specs.Prelude.{ℕ, List, Option};
    ghost use Rattle.reader.specs.View.{list_by};
    ghost use Rattle.reader.specs.Cursors.{CursorSteps};

    // The next counted list, each of whose records `each` passes over.
    pub(crate) fn list<F: Fn(&mut Cursor<'a>) -> Option<()>>(&mut self, each: F) -> Option<()>
        requires { F.IsAlwaysCallable each }
        ensures { (step : List ℕ → ℕ → Option ℕ) → ((c : _) (r : _) (d : _) → F.post each c r d → CursorSteps step r c.now d.now) → CursorSteps (λ t. list_by (step t) t) result self.old self.new }
    {
        let count = self.number()?;
        let mut c = *self;
        for _ in 0..count {
            each(&mut c)?;
        }
        *self = c;
        Some(())
    }
}
