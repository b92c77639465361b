ghost use Rattle.std.specs.Prelude.{decimal};
ghost use Rattle.lines.specs.Begins.{instant_begins, pseudonym_begins, code_begins, outcome_begins, pair_begins, cell_begins, mark_begins, span_begins, instant_present, pseudonym_present, code_present, outcome_present, pair_present};
ghost use Rattle.lines.specs.Fits.{InstantFits, PseudonymFits, CodeFits, OutcomeFits, PairFits, CellFits, SpanFits};
ghost use Rattle.lines.specs.Reads.{ReadsInstant, ReadsPseudonym, ReadsCode, ReadsOutcome, ReadsPair, ReadsCell, ReadsMark, ReadsSpan};
ghost use Rattle.lines.specs.Texts.{instant_text, pseudonym_text, code_text, outcome_text, pair_text, cell_text, mark_text, span_text, fraction_text};

use crate::cursor::Cursor;
use crate::stop::Bad;
use crate::text::{Show, Shown, Text, Value};
use column::kind::{CollegeCode, Instant, LoginOutcome, Pair, Pseudonym};
use std::fmt;
use std::num::f64_to_bits_with_nan;

// A decimal number.
// No trait over the wrapped number for this and `CollegeCode`: an impl of it would have more items than each of these.
impl Show for Instant {
    ghost text = { instant_text };

    fn write<W: fmt::Write>(&self, f: &mut fmt::Formatter<W>) -> fmt::Result {
        write!(f, "{}", self.0)
    }
}

impl Text for Instant {
    ghost reads = { ReadsInstant };

    ghost fits = { InstantFits };

    fn read(cursor: &mut Cursor<'_>) -> Result<Instant, Bad> {
        Ok(Instant(cursor.number::<i64>()?))
    }

    ghost begins = { instant_begins };
}

impl Value for Instant {
    fn pattern() -> Instant {
        Instant(7)
    }

    ghost present = { instant_present };
}

// `A:B`, the high part first.
impl Show for Pseudonym {
    ghost text = { pseudonym_text };

    fn write<W: fmt::Write>(&self, f: &mut fmt::Formatter<W>) -> fmt::Result {
        write!(f, "{}:{}", self.high, self.low)
    }
}

impl Text for Pseudonym {
    ghost reads = { ReadsPseudonym };

    ghost fits = { PseudonymFits };

    fn read(cursor: &mut Cursor<'_>) -> Result<Pseudonym, Bad> {
        let high = cursor.number::<u64>()?;
        cursor.expect(b':')?;
        let low = cursor.number::<u64>()?;
        Ok(Pseudonym { high, low })
    }

    ghost begins = { pseudonym_begins };
}

impl Value for Pseudonym {
    fn pattern() -> Pseudonym {
        Pseudonym { high: 7, low: 7 }
    }

    ghost present = { pseudonym_present };
}

// The decimal number of the code.
impl Show for CollegeCode {
    ghost text = { code_text };

    fn write<W: fmt::Write>(&self, f: &mut fmt::Formatter<W>) -> fmt::Result {
        write!(f, "{}", self.0)
    }
}

impl Text for CollegeCode {
    ghost reads = { ReadsCode };

    ghost fits = { CodeFits };

    fn read(cursor: &mut Cursor<'_>) -> Result<CollegeCode, Bad> {
        Ok(CollegeCode(cursor.number::<u64>()?))
    }

    ghost begins = { code_begins };
}

impl Value for CollegeCode {
    fn pattern() -> CollegeCode {
        CollegeCode(7)
    }

    ghost present = { code_present };
}

// `g`, `t`, or `r` and the reason.
impl Show for LoginOutcome {
    ghost text = { outcome_text };

    fn write<W: fmt::Write>(&self, f: &mut fmt::Formatter<W>) -> fmt::Result {
        match *self {
            LoginOutcome::Granted => f.write_str("g"),
            LoginOutcome::Refused(reason) => write!(f, "r{reason}"),
            LoginOutcome::TimedOut => f.write_str("t"),
        }
    }
}

impl Text for LoginOutcome {
    ghost reads = { ReadsOutcome };

    ghost fits = { OutcomeFits };

    fn read(cursor: &mut Cursor<'_>) -> Result<LoginOutcome, Bad> {
        if cursor.take(b'g') {
            return Ok(LoginOutcome::Granted);
        }
        if cursor.take(b't') {
            return Ok(LoginOutcome::TimedOut);
        }
        cursor.expect(b'r')?;
        Ok(LoginOutcome::Refused(cursor.number::<u16>()?))
    }

    ghost begins = { λ x f. outcome_begins x };
}

impl Value for LoginOutcome {
    fn pattern() -> LoginOutcome {
        LoginOutcome::Refused(7)
    }

    ghost present = { λ x f. outcome_present x };
}

// `<V;V>`.
impl<A: Show, B: Show> Show for Pair<A, B> {
    ghost text = { pair_text A.Show.text B.Show.text };

    fn write<W: fmt::Write>(&self, f: &mut fmt::Formatter<W>) -> fmt::Result {
        write!(f, "<{};{}>", Shown(self.first), Shown(self.second))
    }
}

impl<A: Text, B: Text> Text for Pair<A, B> {
    ghost reads = { ReadsPair A.Text.reads B.Text.reads };

    ghost fits = { PairFits A.Text.fits B.Text.fits };

    fn read(cursor: &mut Cursor<'_>) -> Result<Pair<A, B>, Bad> {
        cursor.expect(b'<')?;
        let first = A::read(cursor)?;
        cursor.expect(b';')?;
        let second = B::read(cursor)?;
        cursor.expect(b'>')?;
        Ok(Pair { first, second })
    }

    ghost begins = { λ x f. pair_begins A.Show.text B.Show.text x };
}

impl<A: Value, B: Value> Value for Pair<A, B> {
    fn pattern() -> Pair<A, B> {
        let first = A::pattern();
        let second = B::pattern();
        Pair { first, second }
    }

    ghost present = { λ x f. pair_present A.Show.text B.Show.text x };
}

// `_` for NULL, else a value.
impl<K: Show> Show for Option<K> {
    ghost text = { cell_text K.Show.text };

    fn write<W: fmt::Write>(&self, f: &mut fmt::Formatter<W>) -> fmt::Result {
        match *self {
            Some(value) => value.write(f),
            None => f.write_str("_"),
        }
    }
}

impl<K: Value> Text for Option<K> {
    ghost reads = { ReadsCell K.Text.reads };

    ghost fits = { CellFits K.Text.fits };

    fn read(cursor: &mut Cursor<'_>) -> Result<Option<K>, Bad> {
        if cursor.take(b'_') {
            return Ok(None);
        }
        Ok(Some(K::read(cursor)?))
    }

    ghost begins = { λ x f. cell_begins K.Show.text K.Text.fits K.Text.begins x f };
}

// A mark: 1 present, 0 NULL.
impl Show for bool {
    ghost text = { mark_text };

    fn write<W: fmt::Write>(&self, f: &mut fmt::Formatter<W>) -> fmt::Result {
        f.write_str(if *self { "1" } else { "0" })
    }
}

impl Text for bool {
    ghost reads = { ReadsMark };

    fn read(cursor: &mut Cursor<'_>) -> Result<bool, Bad> {
        if cursor.take(b'1') {
            return Ok(true);
        }
        cursor.expect(b'0')?;
        Ok(false)
    }

    ghost begins = { λ x f. mark_begins x };
}

// `S-E`: a frame or a group.
impl Show for (usize, usize) {
    ghost text = { span_text };

    fn write<W: fmt::Write>(&self, f: &mut fmt::Formatter<W>) -> fmt::Result {
        write!(f, "{}-{}", self.0, self.1)
    }
}

impl Text for (usize, usize) {
    ghost reads = { ReadsSpan };

    ghost fits = { SpanFits };

    fn read(cursor: &mut Cursor<'_>) -> Result<(usize, usize), Bad> {
        let start = cursor.number::<usize>()?;
        cursor.expect(b'-')?;
        let end = cursor.number::<usize>()?;
        Ok((start, end))
    }

    ghost begins = { span_begins };
}

// A whole number, as evaluators answer.
impl Show for u64 {
    ghost text = { decimal };

    fn write<W: fmt::Write>(&self, f: &mut fmt::Formatter<W>) -> fmt::Result {
        write!(f, "{self}")
    }
}

// A fraction, as evaluators answer: its bits, in 16 hexadecimal digits.
impl Show for f64 {
    ghost text = { fraction_text };

    fn write<W: fmt::Write>(&self, f: &mut fmt::Formatter<W>) -> fmt::Result {
        write!(f, "{:016x}", f64_to_bits_with_nan(*self))
    }
}
