// What a call on a whole partition is handed.
ghost use Rattle.std.specs.Prelude.{◌≡◌, ◌≤◌, ◌++◌, ℕ, List, decimal, MatchResult};
ghost use Rattle.column.specs.Refusal.{row_limit};
ghost use Rattle.lines.specs.Back.{ReadsBack};
ghost use Rattle.lines.specs.Cursors.{Onward, ahead};
ghost use Rattle.lines.specs.declared.stop.Stop.TheVariants.{Memory};
ghost use Rattle.partition.specs.Table.{Input, input};
ghost use Rattle.drive.specs.Reads.{HandedText};
ghost use Rattle.drive.specs.Whole.{handed_input};

use column::column::ROW_LIMIT;
use lines::columns::{Lists, read_column, read_spans};
use lines::cursor::Cursor;
use lines::stop::{Bad, Stop};
use lines::text::Value;
use partition::whole::WholePartition;
use std::alloc::Global;

// The rows, frames and groups.
#[derive(Drop)]
pub struct Handed<K> {
    pub column: Lists<K>,
    pub frames: Vec<(usize, usize)>,
    pub groups: Vec<(usize, usize)>,
}

// The lengths of an output's lists; where an answer is no cell there is one list, and both are its length.
#[derive(Clone, Copy)]
pub struct Lengths {
    pub values: usize,
    pub marks: usize,
}

impl<K: Value> Handed<K> {
    pub(crate) fn read(heap: Global, cursor: &mut Cursor<'_>) -> Result<Handed<K>, Stop>
        ensures back { (x : Input K) (text rest : List ℕ) → HandedText K.Show.text K.Text.fits x text → ahead cursor.old ≡ text ++ rest → MatchResult result (λ h. (handed_input h ≡ x) × (ahead cursor.new ≡ rest)) (λ s. s ≡ Memory) }
        ensures onward { Onward cursor.old cursor.new }
    {
        let column = read_column::<K>(heap, cursor, b' ')?;
        cursor.expect(b' ')?;
        let frames = read_spans(heap, cursor, b'F')?;
        cursor.expect(b' ')?;
        let groups = read_spans(heap, cursor, b'G')?;
        Ok(Handed {
            column,
            frames,
            groups,
        })
    }

    pub(crate) fn as_partition(&self) -> WholePartition<'_, K>
        ensures { input result ≡ handed_input self.now }
    {
        WholePartition::new(
            self.column.values.as_slice(),
            self.column.marks.as_slice(),
            self.frames.as_slice(),
            self.groups.as_slice(),
        )
    }
}

// The length of an output list, at most as many as a partition has rows.
pub(crate) fn read_length(cursor: &mut Cursor<'_>) -> Result<usize, Bad>
    ensures back { (n : ℕ) → n ≤ row_limit → ReadsBack (decimal n) n cursor.old result cursor.new }
    ensures onward { Onward cursor.old cursor.new }
{
    cursor.number_in(0..=ROW_LIMIT)
}
