// The words of a text, with blanks between them.
ghost use Rattle.std.specs.Prelude.{◌≡◌, ◌<◌, ◌+◌, ◌^◌, IfOk, IsTrue, ◌↔◌, map, vec_len};
ghost use Rattle.std.specs.List.{join_with_byte};
ghost use Rattle.options.specs.Words.{Apart, Cut, Is, column_at, spread, word_at, words_from};

use std::alloc::{AllocError, Global};

// A word, and the column of its first byte, from 1.
#[derive(Clone, Copy)]
pub(crate) struct Word<'a> {
    pub(crate) text: &'a str,
    pub(crate) column: usize,
}

// The words of a text, and the column behind its end.
#[derive(Drop)]
pub(crate) struct Words<'a> {
    pub(crate) list: Vec<Word<'a>>,
    pub(crate) end: usize,
}

impl<'a> Words<'a> {
    // A word, empty past the last one.
    pub(crate) fn word(&self, k: usize) -> &'a str
        ensures { result.now ≡ word_at self.now k }
    {
        match self.list.get(k) {
            Some(word) => word.text,
            None => "",
        }
    }

    // The column of a word, past the last one that behind the text.
    pub(crate) fn column(&self, k: usize) -> usize
        ensures { result ≡ column_at self.now k }
    {
        match self.list.get(k) {
            Some(word) => word.column,
            None => self.end,
        }
    }

    // Whether a word is this one, in any case.
    pub(crate) fn is(&self, k: usize, word: &str) -> bool
        ensures { IsTrue result ↔ Is word.now (word_at self.now k) }
    {
        self.word(k).eq_ignore_ascii_case(word)
    }
}

// The pieces of a text between its blanks.
fn pieces<'a>(heap: Global, text: &'a str) -> Result<Vec<&'a str>, AllocError>
    ensures whole { IfOk result (λ v. text.now ≡ join_with_byte 32 (map (λ x. x.now) v.items)) }
    ensures apart { IfOk result (λ v. Apart v.items) }
    ensures some { IfOk result (λ v. 0 < vec_len v) }
{
    text.split(' ').collect(heap)
}

// The pieces that are not empty, each with its column.
fn filled<'a>(heap: Global, pieces: &[&'a str]) -> Result<Vec<Word<'a>>, AllocError>
    requires { spread pieces.now < 2 ^ 63 + 1 }
    ensures { IfOk result (λ v. v.items ≡ words_from 1 pieces.now) }
{
    let mut words = Vec::new(heap);
    let mut column = 1;
    for piece in pieces {
        if !piece.is_empty() {
            words.push(Word {
                text: piece,
                column,
            })?;
        }
        column += piece.len() + 1;
    }
    Ok(words)
}

// The words of a text.
#[tactic(auto, using(crate::proofs::Pieces::spread_joined))]
pub(crate) fn cut<'a>(heap: Global, text: &'a str) -> Result<Words<'a>, AllocError>
    ensures { IfOk result (Cut text.now) }
{
    let pieces = pieces(heap, text)?;
    let list = filled(heap, pieces.as_slice())?;
    Ok(Words {
        list,
        end: text.len() + 1,
    })
}
