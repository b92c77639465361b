// The operations of a run as a line has them.
ghost use Rattle.std.specs.Prelude.{◌≡◌, ◌+◌, IfOk, OnOk};
ghost use Rattle.std.specs.Str.{IsCharBoundary};
ghost use Rattle.lines.specs.Cursors.{Onward, ahead, passed};
ghost use Rattle.drive.specs.Reads.{IsOutcome, ReadsFrame, ReadsNamed, ReadsOp, ReadsRequest, ReadsStep, ReadsSteps};

use lines::columns::{Lists, read_column};
use lines::cursor::Cursor;
use lines::stop::{Bad, Stop};
use lines::text::{Text, Value};
use std::alloc::Global;

#[derive(Drop)]
pub struct Request<K> {
    pub begin: usize,
    pub column: Lists<K>,
    pub frame: Option<(usize, usize)>,
}

#[derive(Drop)]
pub enum Op<K> {
    Request(Request<K>),
    Settle,
    KeepMark,
    Close(usize),
    Finish,
}

// An operation, with its text and where that begins in the line.
#[derive(Drop)]
pub struct Step<'a, K> {
    pub op: Op<K>,
    pub text: &'a str,
    pub start: Bad,
}

// A frame, or `-` where there is none.
fn read_frame(cursor: &mut Cursor<'_>) -> Result<Option<(usize, usize)>, Bad>
    ensures reads { IfOk result (λ f. ReadsFrame (passed cursor.old cursor.new) f) }
    ensures onward { Onward cursor.old cursor.new }
{
    if cursor.take(b'-') {
        return Ok(None);
    }
    Ok(Some(<(usize, usize)>::read(cursor)?))
}

// `b|V[..]|M[..]|FRAME`.
fn read_request<K: Value>(heap: Global, cursor: &mut Cursor<'_>) -> Result<Request<K>, Stop>
    ensures reads { IfOk result (λ q. ReadsRequest K.Text.reads (passed cursor.old cursor.new) q) }
    ensures onward { Onward cursor.old cursor.new }
{
    let begin = cursor.number::<usize>()?;
    cursor.expect(b'|')?;
    let column = read_column::<K>(heap, cursor, b'|')?;
    cursor.expect(b'|')?;
    let frame = read_frame(cursor)?;
    Ok(Request {
        begin,
        column,
        frame,
    })
}

// The operation of this name, from what its braces hold; an unknown name is bad where it begins.
fn read_named<K: Value>(
    heap: Global,
    cursor: &mut Cursor<'_>,
    name: &str,
    start: Bad,
) -> Result<Op<K>, Stop>
    ensures reads { IfOk result (λ op. ReadsNamed K.Text.reads name.now (passed cursor.old cursor.new) op) }
    ensures onward { Onward cursor.old cursor.new }
{
    match name {
        "q" => Ok(Op::Request(read_request(heap, cursor)?)),
        "s" => Ok(Op::Settle),
        "m" => Ok(Op::KeepMark),
        "c" => Ok(Op::Close(cursor.number::<usize>()?)),
        "e" => Ok(Op::Finish),
        _ => Err(Stop::Unread(start)),
    }
}

fn read_op<K: Value>(heap: Global, cursor: &mut Cursor<'_>) -> Result<Op<K>, Stop>
    ensures reads { IfOk result (λ op. ReadsOp K.Text.reads (passed cursor.old cursor.new) op) }
    ensures bounds { OnOk result (IsCharBoundary cursor.old.text.now cursor.old.at × IsCharBoundary cursor.new.text.now cursor.new.at) }
    ensures onward { Onward cursor.old cursor.new }
{
    let start = cursor.bad();
    let name = cursor.word();
    cursor.expect(b'{')?;
    let op = read_named(heap, cursor, name, start)?;
    cursor.expect(b'}')?;
    Ok(op)
}

// Past an outcome, where one stands.
fn pass_outcome(cursor: &mut Cursor<'_>)
    ensures outcome { IsOutcome (passed cursor.old cursor.new) (ahead cursor.new) }
    ensures onward { Onward cursor.old cursor.new }
{
    if cursor.take(b'>') {
        cursor.field();
    }
}

// An operation, and past an outcome that stands behind it.
fn read_step<'a, K: Value>(heap: Global, cursor: &mut Cursor<'a>) -> Result<Step<'a, K>, Stop>
    ensures reads { IfOk result (λ s. ReadsStep K.Text.reads (passed cursor.old cursor.new) (ahead cursor.new) s) }
    ensures start { IfOk result (λ s. s.start.column ≡ cursor.old.at + 1) }
    ensures onward { Onward cursor.old cursor.new }
{
    let start = cursor.bad();
    let from = cursor.at;
    let op = read_op(heap, cursor)?;
    let text = cursor.since(from);
    pass_outcome(cursor);
    Ok(Step { op, text, start })
}

// The operations up to the line's end.
pub(crate) fn read_steps<'a, K: Value>(
    heap: Global,
    cursor: &mut Cursor<'a>,
) -> Result<Vec<Step<'a, K>>, Stop>
    ensures reads { IfOk result (λ v. ReadsSteps K.Text.reads (ahead cursor.old) v.items) }
{
    let mut steps = Vec::new(heap);
    while !cursor.is_end() {
        cursor.expect(b' ')?;
        steps.push(read_step::<K>(heap, cursor)?)?;
    }
    Ok(steps)
}
