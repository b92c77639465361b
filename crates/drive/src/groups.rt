// Working out peer groups.
ghost use Rattle.std.specs.Prelude.{◌≡◌, ◌≤◌, ℕ, Bool, List, ◌++◌, codes, decimal, IfOk, MatchResult, length, string_bytes};
ghost use Rattle.column.specs.Refusal.{row_limit};
ghost use Rattle.lines.specs.Cursors.{ahead};
ghost use Rattle.lines.specs.Fits.{ListFits};
ghost use Rattle.lines.specs.declared.stop.Stop.TheVariants.{Memory};
ghost use Rattle.lines.specs.Texts.{column_text, span_text};
ghost use Rattle.partition.specs.Table.{column_groups, grouping_refusal};
ghost use Rattle.drive.specs.Outcomes.{told_text};
ghost use Rattle.drive.specs.Whole.{groups_text};

use crate::handed::read_length;
use crate::outcome::Refusal;
use crate::slots::{Slot, is_kept, patterned};
use column::column::Column;
use lines::columns::read_column;
use lines::cursor::Cursor;
use lines::list::ShownList;
use lines::stop::Stop;
use lines::text::Value;
use partition::peers::peer_groups;
use std::alloc::{AllocError, Global};

// The call on a list that holds the pattern.
fn call<K: Value>(heap: Global, column: &Column<'_, K>, length: usize) -> Result<String, AllocError>
    ensures { IfOk result (λ s. string_bytes s ≡ told_text span_text (grouping_refusal K.Kind.same column.now length) (column_groups K.Kind.same column.now)) }
{
    let pattern = <(usize, usize)>::pattern();
    let mut groups = patterned(heap, pattern, length)?;
    let made = peer_groups(column, groups.as_mut_slice());
    let count = made.unwrap_or(0);
    if !is_kept(groups.as_slice(), count, pattern) {
        return String::from_str(heap, "clobbered");
    }
    match made {
        Ok(count) => {
            groups.truncate(count);
            format!(in heap; "ok:{}", ShownList(groups.as_slice()))
        }
        Err(fault) => Refusal(fault).to_string(heap),
    }
}

// The outcome of a call that is read from here on.
pub(crate) fn answer_groups<K: Value>(heap: Global, cursor: &mut Cursor<'_>) -> Result<String, Stop>
    ensures { (values : List K) (marks : List Bool) (length : ℕ) → ListFits K.Text.fits values → length ≤ row_limit → ahead cursor.old ≡ column_text K.Show.text 32 values marks ++ (codes " O" ++ decimal length) → MatchResult result (λ s. string_bytes s ≡ groups_text K.Kind.same values marks length) (λ stop. stop ≡ Memory) }
{
    let column = read_column::<K>(heap, cursor, b' ')?;
    cursor.expect(b' ')?;
    cursor.expect(b'O')?;
    let length = read_length(cursor)?;
    cursor.end()?;
    Ok(call(heap, &column.as_column(), length)?)
}
