// Writes a field.
ghost use Rattle.std.specs.Prelude.{◌≡◌, ℕ, List, ◌++◌, ◌∷◌, [], OnOk, false};
ghost use Rattle.table.specs.Fields.{Wrote, doubled, quoted};

use crate::field::plain_end;
use std::alloc::AllocError;

// A text with each quote of it twice.
fn write_doubled(out: &mut Vec<u8>, content: &[u8]) -> Result<(), AllocError>
    ensures { OnOk result (out.new.items ≡ out.old.items ++ doubled content.now) }
{
    for byte in content {
        if *byte == b'"' {
            out.push(b'"')?;
        }
        out.push(*byte)?;
    }
    Ok(())
}

fn write_quoted(out: &mut Vec<u8>, content: &[u8]) -> Result<(), AllocError>
    ensures { OnOk result (out.new.items ≡ out.old.items ++ quoted content.now) }
{
    out.push(b'"')?;
    write_doubled(out, content)?;
    out.push(b'"')?;
    Ok(())
}

// A field of this content, in quotes only where it needs them.
pub fn write_field(out: &mut Vec<u8>, content: &[u8]) -> Result<(), AllocError>
    ensures { OnOk result (Wrote out.old.items content.now out.new.items) }
{
    if plain_end(content) == content.len() {
        out.extend_from_slice(content)?;
        return Ok(());
    }
    write_quoted(out, content)
}
