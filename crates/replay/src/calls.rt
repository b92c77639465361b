use column::column::Window;
use column::fault::Fault;

// A call on a run.
#[derive(Clone, Copy)]
pub enum Call<'a, K> {
    Request(Window<'a, K>, Option<(usize, usize)>),
    Settle,
    KeepMark,
    Close(usize),
}

// What a call that was not refused gives; a closed run does not take a close.
#[derive(Clone, Copy)]
pub enum Reply<A> {
    Answer(A),
    Done,
    Mark(usize),
    NotTaken,
}

// What is noted of a call: the keep mark that it found, and its reply or refusal.
#[derive(Clone, Copy)]
pub struct Entry<A> {
    pub mark: usize,
    pub outcome: Result<Reply<A>, Fault>,
}
