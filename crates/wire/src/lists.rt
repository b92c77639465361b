// Lists as C lends them.
ghost use Rattle.std.specs.Prelude.{◌≡◌, ℕ, ◌<◌, ◌≤◌, length, get_or, IfOk};
ghost use Rattle.wire.specs.Stops.{Makes, stopped};
ghost use Rattle.wire.specs.Lists.{mark_flaw, marks_of, pairs_of};
ghost use Rattle.wire.specs.declared.stop.Stop.TheVariants.{Mark};

use crate::stop::Stop;
use std::alloc::{AllocError, Global};

// A frame or a peer group: its first row, and the row after its last.
#[repr(C)]
#[derive(Clone, Copy)]
pub struct Span {
    pub start: usize,
    pub end: usize,
}

// The largest byte: a loop without an early end, which is compiled to one over many bytes at once.
fn largest(bytes: &[u8]) -> u8
    ensures { (k : ℕ) → k < length bytes.now → get_or bytes.now k 0 ≤ result }
{
    let mut largest = 0;
    for byte in bytes {
        largest = largest.max(*byte);
    }
    largest
}

// The first byte that is no mark.
#[tactic(auto, using(crate::proofs::Largest::no_flaw))]
fn mark_flaw(bytes: &[u8]) -> Option<usize>
    ensures { result ≡ mark_flaw bytes.now }
{
    if largest(bytes) <= 1 {
        return None;
    }
    bytes.iter().position(|byte| *byte > 1)
}

fn to_marks(heap: Global, bytes: &[u8]) -> Result<Vec<bool>, AllocError>
    ensures { IfOk result (λ v. v.items ≡ marks_of bytes.now) }
{
    bytes.iter().map(|byte| *byte == 1).collect(heap)
}

// The marks of a list of bytes, each 0 or 1.
pub(crate) fn read_marks(heap: Global, bytes: &[u8]) -> Result<Vec<bool>, Stop>
    ensures { Makes result (stopped Mark (mark_flaw bytes.now)) (λ v. v.items ≡ marks_of bytes.now) }
{
    if let Some(place) = mark_flaw(bytes) {
        return Err(Stop::Mark(place));
    }
    Ok(to_marks(heap, bytes)?)
}

// The same spans as the library has them; the same list cannot serve, since C knows no tuples.
pub(crate) fn read_spans(heap: Global, spans: &[Span]) -> Result<Vec<(usize, usize)>, AllocError>
    ensures { IfOk result (λ v. v.items ≡ pairs_of spans.now) }
{
    spans
        .iter()
        .map(|span| (span.start, span.end))
        .collect(heap)
}
