ghost use Rattle.std.specs.Prelude.{◌≤◌, length};

// A place in a line, never past its end.
#[derive(Drop)]
pub struct Cursor<'a> {
    pub(crate) text: &'a str,
    pub at: usize,
    ghost within: { at ≤ length text.now },
}
