// Reads a text as a table.
ghost use Rattle.std.specs.Prelude.{◌≡◌, MatchResult};
ghost use Rattle.table.specs.Tables.{IsBody, IsTable, NotBody, NotRead, Unmarked};

use crate::fault::{Fault, Unread};
use crate::place::end_of;
use crate::row::cut_row;
use crate::stop::Stop;
use std::alloc::Global;

// The records of a file with its header first, and the fields of each, `width` a record; all as they stand in the text.
#[derive(Drop)]
pub struct Table<'a> {
    pub width: usize,
    pub records: Vec<&'a [u8]>,
    pub fields: Vec<&'a [u8]>,
}

pub(crate) fn without_mark(text: &[u8]) -> &[u8]
    ensures { Unmarked text.now result.now }
{
    match text {
        [0xEF, 0xBB, 0xBF, body @ ..] => body,
        _ => text,
    }
}

fn read_rows<'a>(heap: Global, body: &'a [u8]) -> Result<Table<'a>, Stop>
    ensures { MatchResult result (λ t. IsBody body.now t.width t.records.items t.fields.items) (NotBody body.now) }
{
    if body.is_empty() {
        return Err(Stop::At {
            at: 0,
            fault: Fault::Empty,
        });
    }
    let mut records = Vec::new(heap);
    let mut fields = Vec::new(heap);
    let header = match cut_row(body, &mut fields) {
        Ok(header) => header,
        Err(stop) => return Err(stop),
    };
    records.push(header.raw)?;
    let width = fields.len();
    let mut rest = header.rest;
    'rows: while !rest.is_empty() {
        let at = body.len() - rest.len();
        let before = fields.len();
        let row = match cut_row(rest, &mut fields) {
            Ok(row) => row,
            Err(Stop::Memory) => return Err(Stop::Memory),
            Err(Stop::At { at: inside, fault }) => {
                return Err(Stop::At {
                    at: at + inside,
                    fault,
                });
            }
        };
        let found = fields.len() - before;
        if found != width {
            return Err(Stop::At {
                at,
                fault: Fault::Ragged {
                    found,
                    expected: width,
                },
            });
        }
        records.push(row.raw)?;
        rest = row.rest;
    }
    Ok(Table {
        width,
        records,
        fields,
    })
}

// The table of a text, or the first fault that it has.
pub fn read<'a>(heap: Global, text: &'a [u8]) -> Result<Table<'a>, Unread>
    ensures { MatchResult result (λ t. IsTable text.now t.width t.records.items t.fields.items) (NotRead text.now) }
{
    let body = without_mark(text);
    match read_rows(heap, body) {
        Ok(table) => Ok(table),
        Err(Stop::Memory) => Err(Unread::Memory),
        Err(Stop::At { at, fault }) => {
            let place = end_of(&body[..at]);
            Err(Unread::At {
                line: place.line,
                column: place.column,
                fault,
            })
        }
    }
}
