// Lines and columns.
ghost use Rattle.std.specs.Prelude.{◌≡◌, ◌≢◌, ℕ, ◌<◌, ◌≤◌, ◌+◌, ◌-◌, ◌==◌, length, count_by, slice_index};
ghost use Rattle.table.specs.Tables.{Ends, starts};

// Where a text ends: the line, and the column of what comes next, in characters; both count from 1.
#[derive(Clone, Copy)]
pub struct Place {
    pub line: usize,
    pub column: usize,
}

fn starts_character(byte: u8) -> bool
    ensures { result ≡ starts byte }
{
    byte < 128 || byte >= 192
}

// Where the last line of a text begins.
fn line_start(text: &[u8]) -> usize
    ensures within { result ≤ length text.now }
    ensures last { (k : ℕ) → result ≤ k → k < length text.now → slice_index text.now k ≢ 10 }
    ensures feed { 0 < result → slice_index text.now (result - 1) ≡ 10 }
{
    text.iter()
        .rposition(|byte| *byte == b'\n')
        .map_or(0, |feed| feed + 1)
}

fn count_feeds(text: &[u8]) -> usize
    ensures { result ≡ count_by (λ b. b == 10) text.now }
{
    text.iter().filter(|byte| **byte == b'\n').count()
}

fn count_characters(text: &[u8]) -> usize
    ensures { result ≡ count_by starts text.now }
{
    text.iter().filter(|byte| starts_character(**byte)).count()
}

pub fn end_of(text: &[u8]) -> Place
    ensures { Ends text.now result.line result.column }
{
    let (_, here) = text.split_at(line_start(text));
    Place {
        line: count_feeds(text) + 1,
        column: count_characters(here) + 1,
    }
}
