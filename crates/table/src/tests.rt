// Texts as they are read, and refused.
use crate::content::unquote;
use crate::fault::Fault;
use crate::read::read;
use crate::write::write_field;
use std::test::Fail;

// The contents of a text's fields, each with a bar behind it.
fn shown(rt: &HostRuntime, text: &str) -> Result<Vec<u8>, Fail> {
    let table = read(rt.alloc(), text.as_bytes())?;
    let mut out = Vec::new(rt.alloc());
    for raw in &table.fields {
        out.extend_from_slice(unquote(rt.alloc(), raw)?.bytes())?;
        out.push(b'|')?;
    }
    Ok(out)
}

#[test]
fn reads_fields(rt: HostRuntime) -> Result<(), Fail> {
    let text = "\u{feff}a,b\r\n\"x,\"\"y\"\"\n\",\n,\"\"";
    let fields = shown(&rt, text)?;
    assert_eq!(rt; fields.as_slice(), b"a|b|x,\"y\"\n||||".as_slice());
    Ok(())
}
