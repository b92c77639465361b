ghost use Rattle.std.specs.Prelude.{codes, IfOk};
ghost use Rattle.lines.specs.Cursors.{Onward, passed};
ghost use Rattle.replayed.specs.Calls.{ReadsClose, ReadsFrame, ReadsNamed, ReadsOp};

use lines::cursor::Cursor;
use lines::stop::Bad;
use lines::text::Text;

// A call as a line has it: a request shows rows of the column, from the first up to the second, which is not shown.
#[derive(Clone, Copy)]
pub enum Op {
    Request {
        from: usize,
        to: usize,
        frame: Option<(usize, usize)>,
    },
    Settle,
    Mark,
    Close(usize),
    Finish,
}

// Nothing, or a blank and a frame `S-E`.
fn read_frame(cursor: &mut Cursor<'_>) -> Result<Option<(usize, usize)>, Bad>
    ensures reads { IfOk result (λ f. ReadsFrame (passed cursor.old cursor.new) f) }
    ensures onward { Onward cursor.old cursor.new }
{
    if cursor.is_end() {
        return Ok(None);
    }
    cursor.expect(b' ')?;
    Ok(Some(<(usize, usize)>::read(cursor)?))
}

// ` FROM TO`, and perhaps a frame, of so many rows.
fn read_request(cursor: &mut Cursor<'_>, rows: usize) -> Result<Op, Bad>
    ensures reads { IfOk result (λ op. ReadsNamed rows (codes "request") (passed cursor.old cursor.new) op) }
    ensures onward { Onward cursor.old cursor.new }
{
    cursor.expect(b' ')?;
    let from = cursor.number_in(0..=rows)?;
    cursor.expect(b' ')?;
    let to = cursor.number_in(from..=rows)?;
    let frame = read_frame(cursor)?;
    Ok(Op::Request { from, to, frame })
}

// ` ROWS`.
fn read_close(cursor: &mut Cursor<'_>) -> Result<usize, Bad>
    ensures reads { IfOk result (λ total. ReadsClose (passed cursor.old cursor.new) total) }
    ensures onward { Onward cursor.old cursor.new }
{
    cursor.expect(b' ')?;
    cursor.number::<usize>()
}

// The call of this word, from what stands behind it; an unknown word is bad where it begins.
fn read_named(cursor: &mut Cursor<'_>, name: &str, start: Bad, rows: usize) -> Result<Op, Bad>
    ensures reads { IfOk result (λ op. ReadsNamed rows name.now (passed cursor.old cursor.new) op) }
    ensures onward { Onward cursor.old cursor.new }
{
    match name {
        "request" => read_request(cursor, rows),
        "close" => Ok(Op::Close(read_close(cursor)?)),
        "settle" => Ok(Op::Settle),
        "mark" => Ok(Op::Mark),
        "finish" => Ok(Op::Finish),
        _ => Err(start),
    }
}

// `request FROM TO [S-E]`, `settle`, `mark`, `close ROWS` or `finish`.
pub fn read_op(line: &str, rows: usize) -> Result<Op, Bad>
    ensures reads { IfOk result (λ op. ReadsOp rows line.now op) }
{
    let mut cursor = Cursor::new(line);
    let start = cursor.bad();
    let name = cursor.word();
    let op = read_named(&mut cursor, name, start, rows)?;
    cursor.end()?;
    Ok(op)
}
