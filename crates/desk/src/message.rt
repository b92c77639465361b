// The message of a refusal, with its place in the file.
ghost use Rattle.std.specs.Prelude.{IfOk, string_bytes};
ghost use Rattle.desk.specs.Messages.{Message};

use crate::refusal::Refusal;
use std::alloc::{AllocError, Global};
use table::columns::field_place;

// `FILE:LINE:COLUMN: WHAT`, without a place where there is none.
pub fn message(
    heap: Global,
    file: &str,
    text: &[u8],
    refusal: &Refusal<'_>,
) -> Result<String, AllocError>
    ensures { IfOk result (λ s. Message file.now text.now refusal.now (string_bytes s)) }
{
    match *refusal {
        Refusal::Unread(unread) => format!(in heap; "{file}:{unread}"),
        Refusal::Column { .. } => format!(in heap; "{file}:1:1: {refusal}"),
        Refusal::NoValue { record, column, .. } => {
            let place = field_place(heap, text, record, column)?;
            let line = place.line;
            let column = place.column;
            format!(in heap; "{file}:{line}:{column}: {refusal}")
        }
        _ => format!(in heap; "{file}: {refusal}"),
    }
}
