ghost use Rattle.std.specs.Prelude.{ℕ, ⊤, List, IfOk, Some};
ghost use Rattle.std.specs.Fmt.{WritesOnOk};
ghost use Rattle.lines.specs.Back.{Begins, IsPresent, ReadsBack};
ghost use Rattle.lines.specs.Cursors.{Onward, passed};

use crate::cursor::Cursor;
use crate::stop::Bad;
use column::kind::Kind;
use std::fmt;

// A value that lines show.
// No `Display` on the types themselves: it would have to stand in std or in `column`, which know nothing of lines; `Shown` has it.
pub trait Show: Copy {
    ghost text: { Self → List ℕ };

    fn write<W: fmt::Write>(&self, f: &mut fmt::Formatter<W>) -> fmt::Result
        ensures { WritesOnOk W.Write.write_str_gives f.old result (text self.now) f.new };
}

// A value that lines hold: what is shown of it is read back.
pub trait Text: Show {
    // Holds of a text and the value that it is read as.
    ghost reads: { List ℕ → Self → Type 0 };

    // Holds of the values that the type can have: in a clause a number has no bound.
    ghost fits: { Self → Type 0 } = { λ _. ⊤ };

    fn read(cursor: &mut Cursor<'_>) -> Result<Self, Bad>
        ensures reads { IfOk result (λ x. reads (passed cursor.old cursor.new) x) }
        ensures back { (x : Self) → fits x → ReadsBack (Self.Show.text x) x cursor.old result cursor.new }
        ensures onward { Onward cursor.old cursor.new };

    // So a list of them is not taken to end before one.
    ghost begins: { (x : Self) → fits x → Begins (Self.Show.text x) };
}

// A value, printed as lines have it.
#[derive(Clone, Copy)]
pub struct Shown<T>(pub T);

impl<T: Show> fmt::Display for Shown<T> {
    ghost output = { λ x. Some (T.Show.text x.0) };

    fn fmt<W: fmt::Write>(&self, f: &mut fmt::Formatter<W>) -> fmt::Result {
        self.0.write(f)
    }
}

// A kind of value that lines can hold.
pub trait Value: Kind + Text {
    // What output lists hold before a call.
    fn pattern() -> Self;

    // So none is taken for NULL.
    ghost present: { (x : Self) → Self.Text.fits x → IsPresent (Self.Show.text x) };
}
