// Texts as XML writes them, long ones cut.
ghost use Rattle.std.specs.Prelude.{◌≡◌, ◌++◌, IfOk, OnOk, string_bytes, take};
ghost use Rattle.std.specs.List.{flat_map};
ghost use Rattle.std.specs.Str.{chars};
ghost use Rattle.picture.specs.Escape.{ellipsis, escaped, shown};

use std::alloc::{AllocError, Global};

fn push_escaped(text: &mut String, c: char) -> Result<(), AllocError>
    ensures { OnOk result (string_bytes text.new ≡ string_bytes text.old ++ escaped c) }
{
    match c {
        '<' => text.push_str("&lt;"),
        '>' => text.push_str("&gt;"),
        '&' => text.push_str("&amp;"),
        '"' => text.push_str("&quot;"),
        _ => text.push(c),
    }
}

#[tactic(auto, using(std::proofs::lemmas::Str::chars_from_encodes))]
fn chars_of(heap: Global, part: &str) -> Result<Vec<char>, AllocError>
    ensures { IfOk result (λ v. v.items ≡ chars part.now) }
{
    part.chars().collect(heap)
}

// The characters that fit.
fn fitting(chars: &[char], width: usize) -> &[char]
    ensures { result.now ≡ take width chars.now }
{
    &chars[..chars.len().min(width)]
}

fn push_all(text: &mut String, chars: &[char]) -> Result<(), AllocError>
    ensures { OnOk result (string_bytes text.new ≡ string_bytes text.old ++ flat_map escaped chars.now) }
{
    for c in chars {
        push_escaped(text, *c)?;
    }
    Ok(())
}

// The ellipsis, where a text of so many characters is cut.
fn push_ellipsis(text: &mut String, width: usize, count: usize) -> Result<(), AllocError>
    ensures { OnOk result (string_bytes text.new ≡ string_bytes text.old ++ ellipsis width count) }
{
    if count > width {
        text.push('…')?;
    }
    Ok(())
}

// A text as it is shown, with an ellipsis for what does not fit.
pub(crate) fn shown(heap: Global, width: usize, part: &str) -> Result<String, AllocError>
    ensures { IfOk result (λ s. string_bytes s ≡ shown width part.now) }
{
    let chars = chars_of(heap, part)?;
    let mut text = String::new(heap);
    push_all(&mut text, fitting(chars.as_slice(), width))?;
    push_ellipsis(&mut text, width, chars.len())?;
    Ok(text)
}
