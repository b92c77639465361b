ghost use Rattle.std.specs.Prelude.{Some};
ghost use Rattle.drive.specs.Outcomes.{refusal_text};

use column::fault::Fault;
use std::fmt;

// A refusal, printed as `no:NUMBER:PLACE`.
#[derive(Clone, Copy)]
pub struct Refusal(pub Fault);

impl fmt::Display for Refusal {
    ghost output = { λ r. Some (refusal_text r.0) };

    fn fmt<W: fmt::Write>(&self, f: &mut fmt::Formatter<W>) -> fmt::Result {
        write!(f, "no:{}:{}", self.0.number(), self.0.place())
    }
}
