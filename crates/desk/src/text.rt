// Writes records with answers behind them.
ghost use Rattle.std.specs.Prelude.{◌≡◌, ℕ, List, ◌++◌, IfOk, OnOk, length};
ghost use Rattle.desk.specs.Texts.{AllRows, HaveTurns, Line, Places, Wrote, Written};

use column::kind::Kind;
use fields::answers::Answer;
use std::alloc::{AllocError, Global};
use table::write::write_field;
use turns::layout::Turn;

// The places of the rows in turn, by row.
fn places(heap: Global, turns: &[Turn]) -> Result<Vec<usize>, AllocError>
    requires { HaveTurns (length turns.now) turns.now }
    ensures { IfOk result (λ v. Places turns.now v.items) }
{
    let mut places = vec![in heap; 0usize; turns.len()]?;
    for (place, turn) in turns.iter().enumerate() {
        if let Some(slot) = places.get_mut(turn.row) {
            *slot = place;
        }
    }
    Ok(places)
}

// A record as it stands, with a field of this content behind it.
fn write_line(text: &mut Vec<u8>, raw: &[u8], content: &[u8]) -> Result<(), AllocError>
    ensures { OnOk result ((line : List ℕ) × (text.new.items ≡ text.old.items ++ line) × Line raw.now content.now line) }
{
    text.extend_from_slice(raw)?;
    text.push(b',')?;
    write_field(text, content)?;
    text.push(b'\n')?;
    Ok(())
}

// The records below the header, each with the answer of its row.
fn write_rows<K: Kind, A: Answer<K>>(
    heap: Global,
    text: &mut Vec<u8>,
    records: &[&[u8]],
    turns: &[Turn],
    answers: &[A],
) -> Result<(), AllocError>
    requires turns { HaveTurns (length turns.now) turns.now }
    requires rows { length records.now ≡ length turns.now }
    requires answers { length answers.now ≡ length turns.now }
    ensures { OnOk result (Wrote A.Answer.writes turns.now answers.now records.now text.old.items text.new.items) }
{
    let places = places(heap, turns)?;
    let mut content = Vec::new(heap);
    for (row, raw) in records.iter().enumerate() {
        content.clear();
        answers[places[row]].write(heap, &mut content)?;
        write_line(text, *raw, content.as_slice())?;
    }
    Ok(())
}

// Each record as it stands in the file, with its answer; the header with the name of the new column.
pub(crate) fn write_table<K: Kind, A: Answer<K>>(
    heap: Global,
    records: &[&[u8]],
    name: &[u8],
    turns: &[Turn],
    answers: &[A],
) -> Result<Vec<u8>, AllocError>
    requires rows { AllRows records.now turns.now }
    requires answers { length answers.now ≡ length turns.now }
    ensures { IfOk result (λ v. Written A.Answer.writes turns.now answers.now records.now name.now v.items) }
{
    let mut text = Vec::new(heap);
    if let [header, rows @ ..] = records {
        write_line(&mut text, *header, name)?;
        write_rows::<K, A>(heap, &mut text, rows, turns, answers)?;
    }
    Ok(text)
}
