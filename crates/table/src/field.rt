// One field, cut from the front of a text.
ghost use Rattle.std.specs.Prelude.{◌≡◌, ◌≢◌, ℕ, List, ◌∷◌, ◌++◌, ◌<◌, ◌≤◌, true, false, length, take, slice_get, slice_index, MatchOption, MatchResult, Some, IfSome, IfNone};
ghost use Rattle.table.specs.Fields.{After, BadAt, Breaks, Closed, Cuts, Open, Plain, Stray, doubled, special};

use crate::fault::Fault;

// What comes behind a field, and what comes behind that.
#[derive(Clone, Copy)]
pub(crate) enum Then<'a> {
    Comma(&'a [u8]),
    Line(&'a [u8]),
    End,
}

// A field as it stands in the text.
#[derive(Clone, Copy)]
pub(crate) struct Cut<'a> {
    pub raw: &'a [u8],
    pub then: Then<'a>,
}

// Where no field goes on, and why.
#[derive(Clone, Copy)]
pub(crate) struct Bad {
    pub at: usize,
    pub fault: Fault,
}

fn is_special(byte: u8) -> bool
    ensures { result ≡ special byte }
{
    byte == b'"' || byte == b',' || byte == b'\n' || byte == b'\r'
}

fn behind<'a>(text: &'a [u8]) -> Option<Then<'a>>
    ensures { MatchOption result (Stray text.now) (After text.now) }
{
    match text {
        [] => Some(Then::End),
        [b',', rest @ ..] => Some(Then::Comma(rest)),
        [b'\n', rest @ ..] => Some(Then::Line(rest)),
        [b'\r', b'\n', rest @ ..] => Some(Then::Line(rest)),
        _ => None,
    }
}

// Where the first byte stands that needs quotes, or the end.
pub(crate) fn plain_end(text: &[u8]) -> usize
    ensures within { result ≤ length text.now }
    ensures plain { Plain (take result text.now) }
    ensures stops { result < length text.now → special (slice_index text.now result) ≡ true }
{
    text.iter()
        .position(|byte| is_special(*byte))
        .unwrap_or(text.len())
}

// Where the quote stands that closes a field, in what comes behind the one that opens it.
fn closing_quote(body: &[u8]) -> Option<usize>
    ensures { MatchOption result (Open body.now) (Closed body.now) }
{
    let mut pending = false;
    for (i, byte) in body.iter().enumerate() {
        if *byte == b'"' {
            pending = !pending;
        } else if pending {
            return Some(i - 1);
        }
    }
    if pending { Some(body.len() - 1) } else { None }
}

// What a field without quotes does not go on with.
fn plain_fault(rest: &[u8]) -> Fault
    requires stray { Stray rest.now }
    requires special { special (slice_index rest.now 0) ≡ true }
    ensures { Breaks rest.now result }
{
    if rest.first() == Some(&b'"') {
        return Fault::QuoteInside;
    }
    Fault::LoneReturn
}

fn cut_plain<'a>(text: &'a [u8]) -> Result<Cut<'a>, Bad>
    requires { slice_get text.now 0 ≢ Some 34 }
    ensures { MatchResult result (λ c. Cuts text.now c.raw.now c.then) (λ b. BadAt text.now b.at b.fault) }
{
    let at = plain_end(text);
    let (raw, rest) = text.split_at(at);
    match behind(rest) {
        Some(then) => Ok(Cut { raw, then }),
        None => Err(Bad {
            at,
            fault: plain_fault(rest),
        }),
    }
}

fn cut_quoted<'a>(text: &'a [u8]) -> Result<Cut<'a>, Bad>
    requires { slice_get text.now 0 ≡ Some 34 }
    ensures { MatchResult result (λ c. Cuts text.now c.raw.now c.then) (λ b. BadAt text.now b.at b.fault) }
{
    let end = closing_quote(&text[1..]).ok_or(Bad {
        at: 0,
        fault: Fault::Unclosed,
    })?;
    let (raw, rest) = text.split_at(end + 2);
    match behind(rest) {
        Some(then) => Ok(Cut { raw, then }),
        None => Err(Bad {
            at: end + 2,
            fault: Fault::AfterQuote,
        }),
    }
}

// The field that a text begins with.
pub(crate) fn cut_field<'a>(text: &'a [u8]) -> Result<Cut<'a>, Bad>
    ensures { MatchResult result (λ c. Cuts text.now c.raw.now c.then) (λ b. BadAt text.now b.at b.fault) }
{
    if text.first() == Some(&b'"') {
        return cut_quoted(text);
    }
    cut_plain(text)
}
