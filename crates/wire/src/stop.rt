ghost use Rattle.std.specs.Prelude.{◌≡◌};
ghost use Rattle.wire.specs.Stops.{number, place, told, told_done};
ghost use Rattle.wire.specs.declared.stop.Stop.TheVariants.{Memory, Refused};

use column::fault::Fault;
use std::alloc::AllocError;

// Why a call from C gave nothing.
#[derive(Clone, Copy)]
pub enum Stop {
    // there was no memory
    Memory,
    // a field of the function's description that stands for nothing; which field
    Function(usize),
    // a value that stands for nothing; its place in the list
    Value(usize),
    // a mark that is neither 0 nor 1; its place in the list
    Mark(usize),
    // bytes of a list of calls that stand for nothing; the first of them
    Call(usize),
    // a check of the library
    Refused(Fault),
}

// What a call tells C: whether it was refused, by which number and at which place.
#[repr(C)]
#[derive(Clone, Copy)]
pub struct Told {
    pub refused: usize,
    pub number: usize,
    // of a call that was not refused, what it counted, else 0
    pub place: usize,
}

impl Stop {
    // The number that C knows it by; those of the library's checks are 1 to 20.
    fn number(self) -> usize
        ensures { result ≡ number self }
    {
        match self {
            Stop::Memory => 0,
            Stop::Function(_) => 21,
            Stop::Value(_) => 22,
            Stop::Mark(_) => 23,
            Stop::Call(_) => 24,
            Stop::Refused(fault) => fault.number(),
        }
    }

    fn place(self) -> usize
        ensures { result ≡ place self }
    {
        match self {
            Stop::Memory => 0,
            Stop::Function(n) | Stop::Value(n) | Stop::Mark(n) | Stop::Call(n) => n,
            Stop::Refused(fault) => fault.place(),
        }
    }
}

impl From<AllocError> for Stop {
    ghost from_gives = { λ e s. s ≡ Memory };

    fn from(_: AllocError) -> Stop {
        Stop::Memory
    }
}

impl From<Fault> for Stop {
    ghost from_gives = { λ f s. s ≡ Refused f };

    fn from(fault: Fault) -> Stop {
        Stop::Refused(fault)
    }
}

impl Told {
    // What is told of a call that counts nothing.
    pub fn of_unit(done: Result<(), Stop>) -> Told
        ensures { result ≡ told_done done }
    {
        Told::of(done.map(|()| 0))
    }

    // What is told of a call that counts.
    pub fn of(counted: Result<usize, Stop>) -> Told
        ensures { result ≡ told counted }
    {
        match counted {
            Ok(count) => Told {
                refused: 0,
                number: 0,
                place: count,
            },
            Err(stop) => Told {
                refused: 1,
                number: stop.number(),
                place: stop.place(),
            },
        }
    }
}
