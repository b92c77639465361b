// Values of columns as fields have them.
ghost use Rattle.std.specs.Prelude.{◌≡◌, ◌==◌, ℕ, ℤ, List, ◌∷◌, ◌++◌, IfSome, MatchOption, OnOk, length, position, slice_index};
ghost use Rattle.std.specs.Str.Iter.{LacksByte};
ghost use Rattle.fields.specs.Values.{SaysCode, SaysInstant, SaysOutcome, SaysPseudonym, SaysWhole, code_text, front_to, instant_text, outcome_text, pseudonym_text};

use column::kind::{CollegeCode, Instant, Kind, LoginOutcome, Pseudonym};
use std::alloc::{AllocError, Global};
use std::str;

// A kind of value that fields hold.
pub trait FieldValue: Kind {
    // Holds of a content and the value that it says.
    ghost says: { List ℕ → Self → Type 0 };

    // The content that a value is written as.
    ghost text: { Self → List ℕ };

    // The value that a content says, which is not empty.
    fn read(content: &[u8]) -> Option<Self>
        ensures { IfSome result (says content.now) };

    // Writes the content of a value behind a text.
    fn write(&self, heap: Global, out: &mut Vec<u8>) -> Result<(), AllocError>
        ensures { OnOk result (out.new.items ≡ out.old.items ++ text self.now) };

    // What the kind is called.
    fn kind() -> &'static str;

    // What stands at a row that has no value.
    fn filler() -> Self;
}

// A whole number of 64 bits: digits, perhaps behind a sign.
pub fn whole_number(content: &[u8]) -> Option<i64>
    ensures { MatchOption result ((n : ℤ) → SaysWhole content.now n → ⊥) (SaysWhole content.now) }
{
    str::from_utf8(content).ok()?.parse::<i64>().ok()
}

// A whole number.
impl FieldValue for Instant {
    ghost says = { SaysInstant };

    ghost text = { instant_text };

    fn read(content: &[u8]) -> Option<Instant> {
        Some(Instant(whole_number(content)?))
    }

    fn write(&self, heap: Global, out: &mut Vec<u8>) -> Result<(), AllocError> {
        let text = self.0.to_string(heap)?;
        out.extend_from_slice(text.as_str().as_bytes())
    }

    fn kind() -> &'static str {
        "whole number of 64 bits"
    }

    fn filler() -> Instant {
        Instant(0)
    }
}

// The parts of a text before and behind its first colon.
fn halves(text: &str) -> Option<(&str, &str)>
    ensures { MatchOption result (LacksByte 58 text.now) (λ h. (text.now ≡ h.0.now ++ (58 ∷ h.1.now)) × LacksByte 58 h.0.now) }
{
    text.split_once(':')
}

// `HIGH:LOW`.
impl FieldValue for Pseudonym {
    ghost says = { SaysPseudonym };

    ghost text = { pseudonym_text };

    fn read(content: &[u8]) -> Option<Pseudonym> {
        let text = str::from_utf8(content).ok()?;
        let (high, low) = halves(text)?;
        Some(Pseudonym {
            high: high.parse::<u64>().ok()?,
            low: low.parse::<u64>().ok()?,
        })
    }

    fn write(&self, heap: Global, out: &mut Vec<u8>) -> Result<(), AllocError> {
        let high = self.high;
        let low = self.low;
        let text = format!(in heap; "{high}:{low}")?;
        out.extend_from_slice(text.as_str().as_bytes())
    }

    fn kind() -> &'static str {
        "pseudonym HIGH:LOW of whole numbers of 64 bits"
    }

    fn filler() -> Pseudonym {
        Pseudonym { high: 0, low: 0 }
    }
}

// A byte, 0 past the end.
fn byte_or_0(content: &[u8], i: usize) -> u8
    ensures { result ≡ slice_index content.now i }
{
    content.get(i).copied().unwrap_or(0)
}

fn first_zero(bytes: &[u8]) -> Option<usize>
    ensures { result ≡ position (λ b. b == 0) bytes.now }
{
    bytes.iter().position(|byte| *byte == 0)
}

// The bytes up to the first 0.
fn used(bytes: &[u8]) -> &[u8]
    ensures { result.now ≡ front_to (position (λ b. b == 0) bytes.now) bytes.now }
{
    match first_zero(bytes) {
        Some(end) => bytes.get(..end).unwrap_or(bytes),
        None => bytes,
    }
}

// Up to eight bytes of text, none of them 0.
impl FieldValue for CollegeCode {
    ghost says = { SaysCode };

    ghost text = { code_text };

    fn read(content: &[u8]) -> Option<CollegeCode> {
        if content.len() > 8 || content.contains(&0) {
            return None;
        }
        Some(CollegeCode(u64::from_be_bytes([
            byte_or_0(content, 0),
            byte_or_0(content, 1),
            byte_or_0(content, 2),
            byte_or_0(content, 3),
            byte_or_0(content, 4),
            byte_or_0(content, 5),
            byte_or_0(content, 6),
            byte_or_0(content, 7),
        ])))
    }

    fn write(&self, _heap: Global, out: &mut Vec<u8>) -> Result<(), AllocError> {
        let bytes = self.0.to_be_bytes();
        out.extend_from_slice(used(&bytes))
    }

    fn kind() -> &'static str {
        "code of at most eight bytes"
    }

    fn filler() -> CollegeCode {
        CollegeCode(0)
    }
}

// `granted`, `timed out`, or `refused` and the reason.
impl FieldValue for LoginOutcome {
    ghost says = { SaysOutcome };

    ghost text = { outcome_text };

    fn read(content: &[u8]) -> Option<LoginOutcome> {
        let text = str::from_utf8(content).ok()?;
        if text == "granted" {
            return Some(LoginOutcome::Granted);
        }
        if text == "timed out" {
            return Some(LoginOutcome::TimedOut);
        }
        let reason = text.strip_prefix("refused ")?;
        Some(LoginOutcome::Refused(reason.parse::<u16>().ok()?))
    }

    fn write(&self, heap: Global, out: &mut Vec<u8>) -> Result<(), AllocError> {
        match *self {
            LoginOutcome::Granted => out.extend_from_slice(b"granted"),
            LoginOutcome::TimedOut => out.extend_from_slice(b"timed out"),
            LoginOutcome::Refused(reason) => {
                let text = format!(in heap; "refused {reason}")?;
                out.extend_from_slice(text.as_str().as_bytes())
            }
        }
    }

    fn kind() -> &'static str {
        "outcome: granted, timed out, or refused and a number below 65536"
    }

    fn filler() -> LoginOutcome {
        LoginOutcome::Granted
    }
}
