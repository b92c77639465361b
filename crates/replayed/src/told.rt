// How calls ended, in words.
ghost use Rattle.std.specs.Prelude.{Some};
ghost use Rattle.replayed.specs.Told.{ending_text, outcome_text, refusal_text};

use column::fault::Fault;
use lines::text::{Show, Shown};
use replay::calls::Reply;
use std::fmt;

// A refusal by its number and place.
#[derive(Clone, Copy)]
pub(crate) struct Refused(pub(crate) Fault);

impl fmt::Display for Refused {
    ghost output = { λ r. Some (refusal_text r.0) };

    fn fmt<W: fmt::Write>(&self, f: &mut fmt::Formatter<W>) -> fmt::Result {
        write!(f, "refused by {} at {}", self.0.number(), self.0.place())
    }
}

// What a call ended in.
#[derive(Clone, Copy)]
pub(crate) struct Told<A>(pub(crate) Result<Reply<A>, Fault>);

impl<A: Show> fmt::Display for Told<A> {
    ghost output = { λ x. Some (outcome_text A.Show.text x.0) };

    fn fmt<W: fmt::Write>(&self, f: &mut fmt::Formatter<W>) -> fmt::Result {
        match self.0 {
            Ok(Reply::Answer(answer)) => write!(f, "answer {}", Shown(answer)),
            Ok(Reply::Done) => f.write_str("done"),
            Ok(Reply::Mark(mark)) => write!(f, "keep from row {mark}"),
            Ok(Reply::NotTaken) => f.write_str("closed already"),
            Err(fault) => write!(f, "{}", Refused(fault)),
        }
    }
}

// What finishing ends in: the rows or a refusal, and nothing where the run is not closed.
#[derive(Clone, Copy)]
pub(crate) struct Ending(pub(crate) Option<Result<usize, Fault>>);

impl fmt::Display for Ending {
    ghost output = { λ e. Some (ending_text e.0) };

    fn fmt<W: fmt::Write>(&self, f: &mut fmt::Formatter<W>) -> fmt::Result {
        match self.0 {
            Some(Ok(rows)) => write!(f, "{rows} rows answered"),
            Some(Err(fault)) => write!(f, "{}", Refused(fault)),
            None => f.write_str("not closed yet"),
        }
    }
}
