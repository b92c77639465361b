// One record, cut from the front of a text.
ghost use Rattle.std.specs.Prelude.{◌≡◌, ℕ, List, ◌++◌, MatchResult, OnOk, IfErr, IfOk};
ghost use Rattle.std.specs.Borrow.{Bor};
ghost use Rattle.table.specs.Rows.{Leads, NoRow};

use crate::field::{Then, cut_field};
use crate::stop::Stop;

// A record as it stands in the text, and the text behind its end.
#[derive(Clone, Copy)]
pub(crate) struct Row<'a> {
    pub raw: &'a [u8],
    pub rest: &'a [u8],
}

// The record that a text begins with; its fields come behind those that are there.
pub(crate) fn cut_row<'a>(text: &'a [u8], fields: &mut Vec<&'a [u8]>) -> Result<Row<'a>, Stop>
    ensures row { IfOk result (λ r. (more : List (Bor (List ℕ))) × (fields.new.items ≡ fields.old.items ++ more) × Leads text.now r.raw.now more r.rest.now) }
    ensures stop { IfErr result (NoRow text.now) }
{
    let mut rest = text;
    let mut at = 0;
    'fields: loop {
        let cut = match cut_field(rest) {
            Ok(cut) => cut,
            Err(bad) => {
                return Err(Stop::At {
                    at: at + bad.at,
                    fault: bad.fault,
                });
            }
        };
        fields.push(cut.raw)?;
        let end = at + cut.raw.len();
        match cut.then {
            Then::Comma(after) => {
                at = end + 1;
                rest = after;
            }
            Then::Line(after) => {
                return Ok(Row {
                    raw: &text[..end],
                    rest: after,
                });
            }
            Then::End => {
                return Ok(Row {
                    raw: text,
                    rest: &text[end..],
                });
            }
        }
    }
}
