// What a field says, without the quotes around it and those that double its own.
ghost use Rattle.std.specs.Prelude.{◌≡◌, ◌≢◌, ℕ, List, IfOk, MatchOption, Some, slice_get};
ghost use Rattle.table.specs.Contents.{Says, bytes_of};
ghost use Rattle.table.specs.Fields.{doubled, quoted};

use std::alloc::{AllocError, Global};

// A part of the text, or a copy of one without doubled quotes.
#[derive(Drop)]
pub enum Content<'a> {
    Plain(&'a [u8]),
    Unquoted(Vec<u8>),
}

impl<'a> Content<'a> {
    pub fn bytes(&self) -> &[u8]
        ensures { result.now ≡ bytes_of self.now }
    {
        match self {
            Content::Plain(bytes) => *bytes,
            Content::Unquoted(bytes) => bytes.as_slice(),
        }
    }
}

// One quote for each two.
fn undouble(heap: Global, body: &[u8]) -> Result<Vec<u8>, AllocError>
    ensures { IfOk result (λ v. (content : List ℕ) → body.now ≡ doubled content → v.items ≡ content) }
{
    let mut content = Vec::new(heap);
    let mut pending = false;
    for byte in body {
        if *byte == b'"' {
            pending = !pending;
        }
        if !pending {
            content.push(*byte)?;
        }
    }
    Ok(content)
}

// What stands between the quotes of a field.
fn between(raw: &[u8]) -> Option<&[u8]>
    ensures { MatchOption result ((content : List ℕ) → raw.now ≢ quoted content) (λ b. (slice_get raw.now 0 ≡ Some 34) × ((content : List ℕ) → raw.now ≡ quoted content → b.now ≡ doubled content)) }
{
    if raw.first() != Some(&b'"') {
        return None;
    }
    if raw.len() < 2 {
        return None;
    }
    Some(&raw[1..raw.len() - 1])
}

// The content of a field as it stands in the text.
pub fn unquote<'a>(heap: Global, raw: &'a [u8]) -> Result<Content<'a>, AllocError>
    ensures { IfOk result (λ c. Says raw.now (bytes_of c)) }
{
    let Some(body) = between(raw) else {
        return Ok(Content::Plain(raw));
    };
    if body.contains(&b'"') {
        return Ok(Content::Unquoted(undouble(heap, body)?));
    }
    Ok(Content::Plain(body))
}
