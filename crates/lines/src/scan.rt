// The steps of a cursor: none goes backward.
// `Onward` stands at each: it relates two moments of a cursor, which no invariant of one moment can.
// `IsCharBoundary` is a premise and no ghost field: `take` and `run` go by bytes, so they may stop inside a character.
ghost use Rattle.std.specs.Prelude.{◌≡◌, ◌≢◌, ℕ, List, [], ◌∷◌, ◌++◌, drop, ◌+◌, ◌-◌, ◌^◌, ◌<◌, ◌≤◌, T, false, true, length, IfOk, IfErr, if◌then◌else◌, Ok, OnOk, MatchResult, decimal, nat_le, slice_get, slice_index, slice_range};
ghost use Rattle.std.specs.Int.{IsInRange};
ghost use Rattle.std.specs.Str.{IsCharBoundary, IsUtf8};
ghost use Rattle.std.specs.Range.{range_inclusive_start, range_inclusive_end, range_inclusive_exhausted};
ghost use Rattle.lines.specs.Back.{Ends, EndsWord, IsNumber, IsReadAs, IsWord, ReadsBack};
ghost use Rattle.lines.specs.Cursors.{Onward, ahead, passed};
ghost use Rattle.lines.specs.Reads.{ReadsUnsigned};

use crate::cursor::Cursor;
use crate::stop::Bad;
use std::ops::RangeInclusive;
use std::str::FromStr;

// Where the first byte from a place on stands that fails a test, or the end.
fn run_end<F: Fn(u8) -> bool>(text: &[u8], from: usize, passes: F) -> usize
    requires within { from ≤ length text.now }
    requires callable { F.IsAlwaysCallable passes }
    ensures within { (from ≤ result) × (result ≤ length text.now) }
    ensures stops { result < length text.now → F.post passes (slice_index text.now result) false }
    ensures each { (k : ℕ) → from + k < result → F.post passes (slice_index text.now (from + k)) true }
{
    text[from..]
        .iter()
        .position(|b| !passes(*b))
        .map_or(text.len(), |n| from + n)
}

// The end of the number that begins at a place: a minus sign, then digits.
fn number_end(text: &[u8], from: usize) -> usize
    requires { from ≤ length text.now }
    ensures within { (from ≤ result) × (result ≤ length text.now) }
    ensures back { (bs rest : List ℕ) → drop from text.now ≡ bs ++ rest → Ends rest → IsNumber bs → result ≡ from + length bs }
{
    let digits = if text.get(from) == Some(&b'-') {
        from + 1
    } else {
        from
    };
    run_end(text, digits, |b| b.is_ascii_digit())
}

impl<'a> Cursor<'a> {
    // At the beginning of a line.
    pub fn new(text: &'a str) -> Cursor<'a>
        ensures text { result.text.now ≡ text.now }
        ensures at { result.at ≡ 0 }
    {
        Cursor { text, at: 0 }
    }

    // The column of this place, as where reading stopped.
    pub fn bad(&self) -> Bad
        ensures { result.column ≡ self.now.at + 1 }
    {
        Bad {
            column: self.at + 1,
        }
    }

    // How many bytes are left.
    pub fn left(&self) -> usize
        ensures { result ≡ length self.now.text.now - self.now.at }
    {
        self.text.len() - self.at
    }

    // The next byte.
    pub fn peek(&self) -> Option<u8>
        ensures { result ≡ slice_get self.now.text.now self.now.at }
    {
        self.text.as_bytes().get(self.at).copied()
    }

    // Passes over a byte, where it is the next.
    #[tactic(auto, using(crate::proofs::Numbers::next_byte))]
    pub fn take(&mut self, byte: u8) -> bool
        ensures step { self.new.at ≡ (if result then self.old.at + 1 else self.old.at) }
        ensures found { T result → slice_index self.old.text.now self.old.at ≡ byte }
        ensures text { T result → passed self.old self.new ≡ byte ∷ [] }
        ensures back { (rest : List ℕ) → ahead self.old ≡ byte ∷ rest → T result × (ahead self.new ≡ rest) }
        ensures onward { Onward self.old self.new }
    {
        if self.peek() == Some(byte) {
            self.at += 1;
            return true;
        }
        false
    }

    // Passes over a byte that has to come.
    pub fn expect(&mut self, byte: u8) -> Result<(), Bad>
        ensures found { OnOk result ((slice_index self.old.text.now self.old.at ≡ byte) × (self.new.at ≡ self.old.at + 1)) }
        ensures text { OnOk result (passed self.old self.new ≡ byte ∷ []) }
        ensures back { (rest : List ℕ) → ahead self.old ≡ byte ∷ rest → (result ≡ Ok tt) × (ahead self.new ≡ rest) }
        ensures place { IfErr result (λ bad. (bad.column ≡ self.old.at + 1) × (self.new.at ≡ self.old.at)) }
        ensures onward { Onward self.old self.new }
    {
        if self.take(byte) {
            return Ok(());
        }
        Err(self.bad())
    }

    // A number, as its type reads a text of a sign and digits.
    pub fn number<N: FromStr>(&mut self) -> Result<N, Bad>
    where
        N::Err: Drop,
        ensures reads { IfOk result (λ n. N.FromStr.from_str_gives (passed self.old self.new) (Ok n)) }
        ensures place { IfErr result (λ bad. (bad.column ≡ self.old.at + 1) × (self.new.at ≡ self.old.at)) }
        ensures back { (bs : List ℕ) (n : N) → IsNumber bs → IsReadAs N.FromStr.from_str_gives bs n → ReadsBack bs n self.old result self.new }
        ensures onward { Onward self.old self.new }
    {
        let start = self.bad();
        let end = number_end(self.text.as_bytes(), self.at);
        let digits = self.text.get(self.at..end).ok_or(start)?;
        let n = digits.parse::<N>().map_err(|_| start)?;
        self.at = end;
        Ok(n)
    }

    // A number that lies in a range.
    pub fn number_in(&mut self, range: RangeInclusive<usize>) -> Result<usize, Bad>
        ensures place { IfErr result (λ bad. bad.column ≡ self.old.at + 1) }
        ensures within { IfOk result (λ n. (range_inclusive_start range ≤ n) × (n ≤ range_inclusive_end range)) }
        ensures reads { IfOk result (λ n. ReadsUnsigned (passed self.old self.new) n) }
        ensures back { (n : ℕ) → IsInRange (range_inclusive_start range) (range_inclusive_end range) n → range_inclusive_exhausted range ≡ false → n < 2 ^ 64 → ReadsBack (decimal n) n self.old result self.new }
        ensures onward { Onward self.old self.new }
    {
        let start = self.bad();
        let n = self.number::<usize>()?;
        if range.contains(&n) {
            return Ok(n);
        }
        Err(start)
    }

    // The text up to the first byte that fails a test.
    fn run<F: Fn(u8) -> bool>(&mut self, passes: F) -> &'a str
        requires { F.IsAlwaysCallable passes }
        ensures stops { self.new.at < length self.old.text.now → F.post passes (slice_index self.old.text.now self.new.at) false }
        ensures each { (k : ℕ) → self.old.at + k < self.new.at → F.post passes (slice_index self.old.text.now (self.old.at + k)) true }
        ensures text { IsCharBoundary self.old.text.now self.old.at → IsCharBoundary self.old.text.now self.new.at → result.now ≡ passed self.old self.new }
        ensures utf8 { IsUtf8 self.old.text.now }
        ensures onward { Onward self.old self.new }
    {
        let from = self.at;
        self.at = run_end(self.text.as_bytes(), from, passes);
        self.since(from)
    }

    // A word of small letters.
    pub fn word(&mut self) -> &'a str
        ensures text { IsCharBoundary self.old.text.now self.old.at → IsCharBoundary self.old.text.now self.new.at → result.now ≡ passed self.old self.new }
        ensures letters { (k : ℕ) → self.old.at + k < self.new.at → IsInRange 97 122 (slice_index self.old.text.now (self.old.at + k)) }
        ensures stops { self.new.at < length self.old.text.now → ¬ (IsInRange 97 122 (slice_index self.old.text.now self.new.at)) }
        ensures utf8 { IsUtf8 self.old.text.now }
        ensures back { (bs rest : List ℕ) → IsWord bs → ahead self.old ≡ bs ++ rest → EndsWord rest → (result.now ≡ bs) × (ahead self.new ≡ rest) }
        ensures onward { Onward self.old self.new }
    {
        self.run(|b| b.is_ascii_lowercase())
    }

    // What comes before the next blank.
    pub fn field(&mut self) -> &'a str
        ensures text { IsCharBoundary self.old.text.now self.old.at → result.now ≡ passed self.old self.new }
        ensures filled { (k : ℕ) → self.old.at + k < self.new.at → slice_index self.old.text.now (self.old.at + k) ≢ 32 }
        ensures stops { self.new.at < length self.old.text.now → slice_index self.old.text.now self.new.at ≡ 32 }
        ensures onward { Onward self.old self.new }
    {
        self.run(|b| b != b' ')
    }

    // Whether the line ends here.
    pub fn is_end(&self) -> bool
        ensures { result ≡ nat_le (length self.now.text.now) self.now.at }
    {
        self.at >= self.text.len()
    }

    // Asks that the line ends here.
    pub fn end(&self) -> Result<(), Bad>
        ensures { MatchResult result (λ _. length self.now.text.now ≡ self.now.at) (λ bad. (self.now.at < length self.now.text.now) × (bad.column ≡ self.now.at + 1)) }
    {
        if self.is_end() {
            return Ok(());
        }
        Err(self.bad())
    }

    // What was read since a place.
    pub fn since(&self, from: usize) -> &'a str
        ensures { IsCharBoundary self.now.text.now from → IsCharBoundary self.now.text.now self.now.at → result.now ≡ slice_range self.now.text.now from self.now.at }
    {
        self.text.get(from..self.at).unwrap_or("")
    }
}
