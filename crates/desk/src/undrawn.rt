ghost use Rattle.std.specs.Prelude.{◌≡◌, IfOk, string_bytes};
ghost use Rattle.desk.specs.Pictures.{NoPictureMessage, of_stop, of_undrawn};
ghost use Rattle.desk.specs.declared.refusal.Refusal.TheVariants.{Memory};
ghost use Rattle.desk.specs.declared.undrawn.NoPicture.TheVariants.{Unanswered};

use crate::message::message;
use crate::refusal::Refusal;
use fields::answers::Stop;
use picture::row::Undrawn;
use std::alloc::{AllocError, Global};

// Why there is no picture of a table.
#[derive(Clone, Copy)]
pub enum NoPicture<'a> {
    // the table gets no answers
    Unanswered(Refusal<'a>),
    // no record has these contents
    NoPartition,
    // none of the rows that are named is one of the partition's, which has so many
    NoRows { count: usize },
    TooManyRows,
}

impl<'a> From<Refusal<'a>> for NoPicture<'a> {
    ghost from_gives = { λ refusal r. r ≡ Unanswered refusal };

    fn from(refusal: Refusal<'a>) -> NoPicture<'a> {
        NoPicture::Unanswered(refusal)
    }
}

impl<'a> From<AllocError> for NoPicture<'a> {
    ghost from_gives = { λ _ r. r ≡ Unanswered Memory };

    fn from(_: AllocError) -> NoPicture<'a> {
        NoPicture::Unanswered(Refusal::Memory)
    }
}

impl<'a> From<Stop> for NoPicture<'a> {
    ghost from_gives = { λ stop r. r ≡ of_stop stop };

    fn from(stop: Stop) -> NoPicture<'a> {
        match stop {
            Stop::Memory => NoPicture::Unanswered(Refusal::Memory),
            Stop::Refused(fault) => NoPicture::Unanswered(Refusal::Call(fault)),
        }
    }
}

impl<'a> From<Undrawn> for NoPicture<'a> {
    ghost from_gives = { λ undrawn r. r ≡ of_undrawn undrawn };

    fn from(undrawn: Undrawn) -> NoPicture<'a> {
        match undrawn {
            Undrawn::Memory => NoPicture::Unanswered(Refusal::Memory),
            Undrawn::TooMany => NoPicture::TooManyRows,
        }
    }
}

// `FILE:LINE:COLUMN: WHAT`, without a place where there is none.
pub fn picture_message(
    heap: Global,
    file: &str,
    text: &[u8],
    refusal: &NoPicture<'_>,
) -> Result<String, AllocError>
    ensures { IfOk result (λ s. NoPictureMessage file.now text.now refusal.now (string_bytes s)) }
{
    match *refusal {
        NoPicture::Unanswered(refusal) => message(heap, file, text, &refusal),
        NoPicture::NoPartition => {
            format!(in heap;
                "{file}: no record has the contents of --partition in the columns of --partition-by"
            )
        }
        NoPicture::NoRows { count } => {
            format!(in heap; "{file}: the partition has {count} rows, and none of --rows")
        }
        NoPicture::TooManyRows => {
            format!(in heap; "{file}: more than 10000 rows to draw: name some with --rows")
        }
    }
}
