ghost use Rattle.std.specs.Prelude.{◌≡◌, ℕ, Bool, List, [], ◌∷◌, ◌++◌, codes, IfOk, MatchResult};
ghost use Rattle.lines.specs.Cursors.{Onward, ahead, passed};
ghost use Rattle.lines.specs.Fits.{ListFits, SpanFits};
ghost use Rattle.lines.specs.Reads.{ReadsColumn, ReadsSpans};
ghost use Rattle.lines.specs.Texts.{column_text, list_text, span_text};
ghost use Rattle.lines.specs.declared.stop.Stop.TheVariants.{Memory};

use crate::cursor::Cursor;
use crate::list::read_list;
use crate::stop::Stop;
use crate::text::Text;
use column::column::Column;
use std::alloc::Global;

// The lists of a column, which may differ in length; two lists, since a column lends them so.
#[derive(Drop)]
pub struct Lists<K> {
    pub values: Vec<K>,
    pub marks: Vec<bool>,
}

impl<K> Lists<K> {
    pub fn as_column(&self) -> Column<'_, K>
        ensures values { result.values.now ≡ self.now.values.items }
        ensures marks { result.marks.now ≡ self.now.marks.items }
    {
        Column {
            values: self.values.as_slice(),
            marks: self.marks.as_slice(),
        }
    }
}

// `V[..]` and `M[..]`, with a byte between them.
pub fn read_column<K: Text>(
    heap: Global,
    cursor: &mut Cursor<'_>,
    between: u8,
) -> Result<Lists<K>, Stop>
    ensures reads { IfOk result (λ c. ReadsColumn K.Text.reads between (passed cursor.old cursor.new) c.values.items c.marks.items) }
    ensures back { (values : List K) (marks : List Bool) (rest : List ℕ) → ListFits K.Text.fits values → ahead cursor.old ≡ column_text K.Show.text between values marks ++ rest → MatchResult result (λ c. (c.values.items ≡ values) × (c.marks.items ≡ marks) × (ahead cursor.new ≡ rest)) (λ s. s ≡ Memory) }
    ensures onward { Onward cursor.old cursor.new }
{
    cursor.expect(b'V')?;
    let values = read_list::<K>(heap, cursor)?;
    cursor.expect(between)?;
    cursor.expect(b'M')?;
    let marks = read_list::<bool>(heap, cursor)?;
    Ok(Lists { values, marks })
}

// Frames or groups by their letter, and none at all for `-`.
pub fn read_spans(
    heap: Global,
    cursor: &mut Cursor<'_>,
    letter: u8,
) -> Result<Vec<(usize, usize)>, Stop>
    ensures reads { IfOk result (λ v. ReadsSpans letter (passed cursor.old cursor.new) v.items) }
    ensures back { (spans : List (ℕ × ℕ)) (rest : List ℕ) → ListFits SpanFits spans → ahead cursor.old ≡ (letter ∷ list_text span_text spans) ++ rest → MatchResult result (λ v. (v.items ≡ spans) × (ahead cursor.new ≡ rest)) (λ s. s ≡ Memory) }
    ensures absent { (rest : List ℕ) → ahead cursor.old ≡ letter ∷ (codes "-" ++ rest) → MatchResult result (λ v. (v.items ≡ []) × (ahead cursor.new ≡ rest)) (λ _. ⊥) }
    ensures onward { Onward cursor.old cursor.new }
{
    cursor.expect(letter)?;
    if cursor.take(b'-') {
        return Ok(Vec::new(heap));
    }
    read_list::<(usize, usize)>(heap, cursor)
}
