ghost use Rattle.std.specs.Prelude.{◌≡◌, ℕ, List, ◌++◌, IfOk, MatchResult, Some};
ghost use Rattle.lines.specs.Cursors.{Onward, ahead, passed};
ghost use Rattle.lines.specs.Fits.{ListFits};
ghost use Rattle.lines.specs.declared.stop.Stop.TheVariants.{Memory};
ghost use Rattle.lines.specs.Reads.{ReadsList};
ghost use Rattle.lines.specs.Texts.{list_text};

use crate::cursor::Cursor;
use crate::stop::Stop;
use crate::text::{Show, Shown, Text};
use std::alloc::Global;
use std::fmt;

// `[x,y,..]`.
pub fn read_list<T: Text>(heap: Global, cursor: &mut Cursor<'_>) -> Result<Vec<T>, Stop>
    ensures reads { IfOk result (λ v. ReadsList T.Text.reads (passed cursor.old cursor.new) v.items) }
    ensures back { (xs : List T) (rest : List ℕ) → ListFits T.Text.fits xs → ahead cursor.old ≡ list_text T.Show.text xs ++ rest → MatchResult result (λ v. (v.items ≡ xs) × (ahead cursor.new ≡ rest)) (λ s. s ≡ Memory) }
    ensures onward { Onward cursor.old cursor.new }
{
    let mut items = Vec::new(heap);
    cursor.expect(b'[')?;
    if cursor.take(b']') {
        return Ok(items);
    }
    // A `while` over the commas would read an item in two places.
    loop {
        items.push(T::read(cursor)?)?;
        if !cursor.take(b',') {
            break;
        }
    }
    cursor.expect(b']')?;
    Ok(items)
}

// A list, printed as lines have it.
#[derive(Clone, Copy)]
pub struct ShownList<'a, T>(pub &'a [T]);

impl<T: Show> fmt::Display for ShownList<'_, T> {
    ghost output = { λ x. Some (list_text T.Show.text x.0.now) };

    fn fmt<W: fmt::Write>(&self, f: &mut fmt::Formatter<W>) -> fmt::Result {
        f.write_str("[")?;
        if let Some((first, rest)) = self.0.split_first() {
            first.write(f)?;
            for item in rest {
                write!(f, ",{}", Shown(*item))?;
            }
        }
        f.write_str("]")
    }
}
