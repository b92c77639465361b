ghost use Rattle.std.specs.Prelude.{◌≡◌, map, IfOk};
ghost use Rattle.wire.specs.Outcomes.{numbers_of, flawed, outcome_of};
ghost use Rattle.wire.specs.Kinds.{Coding, CodingLaws, plain_coding, outcome_coding, same_instant_code};
ghost use Rattle.wire.specs.KindsLemmas.{plain_lawful, outcome_lawful};
ghost use Rattle.wire.specs.Whole.{default_flaw};
ghost use Rattle.wire.specs.Stops.{Makes, stopped, gives};
ghost use Rattle.wire.specs.declared.stop.Stop.TheVariants.{Value, Function};
ghost use Rattle.std.proofs.Common.{rules};

use crate::stop::Stop;
use column::kind::{CollegeCode, Instant, Kind, LoginOutcome};
use std::alloc::{AllocError, Global};
use std::marker::PhantomData;

// An instant beside a college code: the pair of the two, since C takes no generic struct.
#[repr(C)]
#[derive(Clone, Copy, PartialEq, Eq)]
pub struct InstantCode {
    pub instant: Instant,
    pub code: CollegeCode,
}

impl Kind for InstantCode {
    ghost same = { same_instant_code };

    ghost reflexive = { Prim.search rules };

    ghost symmetric = { Prim.search rules };

    ghost transitive = { Prim.search rules };

    fn same(&self, other: &InstantCode) -> bool {
        self == other
    }
}

// A login outcome as two numbers: 0 granted, 1 refused with the reason, 2 timed out; without a reason 0 stands for it.
#[repr(C)]
#[derive(Clone, Copy)]
pub struct OutcomeNumbers {
    pub tag: u16,
    pub reason: u16,
}

impl OutcomeNumbers {
    // Whether they stand for no outcome.
    fn is_flawed(&self) -> bool
        ensures { result ≡ flawed self.now }
    {
        self.tag > 2 || (self.tag != 1 && self.reason != 0)
    }

    // The outcome of numbers that stand for one.
    fn outcome(&self) -> LoginOutcome
        ensures { result ≡ outcome_of self.now }
    {
        match self.tag {
            0 => LoginOutcome::Granted,
            1 => LoginOutcome::Refused(self.reason),
            _ => LoginOutcome::TimedOut,
        }
    }
}

// The outcomes of a list without a flaw.
fn to_outcomes(heap: Global, list: &[OutcomeNumbers]) -> Result<Vec<LoginOutcome>, AllocError>
    ensures { IfOk result (λ v. v.items ≡ map outcome_of list.now) }
{
    list.iter().map(|numbers| numbers.outcome()).collect(heap)
}

// How values of a kind cross.
pub trait Crossing {
    type Value: Kind;

    // what C has of a value
    type Numbers: Copy;

    ghost coding: { Coding Self.Value Self.Numbers };

    ghost lawful: { CodingLaws coding };

    // Whether numbers stand for no value.
    fn is_flawed(numbers: Self::Numbers) -> bool
        ensures { result ≡ coding.flawed numbers };

    // The first of a list that stands for no value.
    fn flaw(list: &[Self::Numbers]) -> Option<usize>
        ensures { result ≡ coding.flaws list.now };

    // The values of a list without a flaw; those that have to be made go to the room.
    fn values<'a>(
        heap: Global,
        list: &'a [Self::Numbers],
        room: &'a mut Vec<Self::Value>,
    ) -> Result<&'a [Self::Value], AllocError>
        ensures { IfOk result (λ s. s.now ≡ coding.decodes list.entry.now) };

    // The value of numbers without a flaw.
    fn value(numbers: Self::Numbers) -> Self::Value
        ensures { result ≡ coding.decoded numbers };

    fn numbers(value: Self::Value) -> Self::Numbers
        ensures { result ≡ coding.encoded value };
}

// Values that cross as they are.
pub struct Plain<K> {
    kind: PhantomData<K>,
}

impl<K: Kind> Crossing for Plain<K> {
    type Value = K;

    type Numbers = K;

    ghost coding = { plain_coding };

    ghost lawful = { plain_lawful };

    fn is_flawed(_numbers: K) -> bool {
        false
    }

    fn flaw(_list: &[K]) -> Option<usize> {
        None
    }

    fn values<'a>(
        _heap: Global,
        list: &'a [K],
        _room: &'a mut Vec<K>,
    ) -> Result<&'a [K], AllocError> {
        Ok(list)
    }

    fn value(numbers: K) -> K {
        numbers
    }

    fn numbers(value: K) -> K {
        value
    }
}

// Login outcomes, which cross as numbers that are checked.
pub struct Outcomes;

impl Crossing for Outcomes {
    type Value = LoginOutcome;

    type Numbers = OutcomeNumbers;

    ghost coding = { outcome_coding };

    ghost lawful = { outcome_lawful };

    fn is_flawed(numbers: OutcomeNumbers) -> bool {
        numbers.is_flawed()
    }

    fn flaw(list: &[OutcomeNumbers]) -> Option<usize> {
        list.iter().position(|numbers| numbers.is_flawed())
    }

    fn values<'a>(
        heap: Global,
        list: &'a [OutcomeNumbers],
        room: &'a mut Vec<LoginOutcome>,
    ) -> Result<&'a [LoginOutcome], AllocError> {
        *room = to_outcomes(heap, list)?;
        Ok(room.as_slice())
    }

    fn value(numbers: OutcomeNumbers) -> LoginOutcome {
        numbers.outcome()
    }

    fn numbers(value: LoginOutcome) -> OutcomeNumbers {
        match value {
            LoginOutcome::Granted => OutcomeNumbers { tag: 0, reason: 0 },
            LoginOutcome::Refused(reason) => OutcomeNumbers { tag: 1, reason },
            LoginOutcome::TimedOut => OutcomeNumbers { tag: 2, reason: 0 },
        }
    }
}

// The values of a list, or its first flaw.
pub(crate) fn read_values<'a, C: Crossing>(
    heap: Global,
    list: &'a [C::Numbers],
    room: &'a mut Vec<C::Value>,
) -> Result<&'a [C::Value], Stop>
    ensures { Makes result (stopped Value (C.Crossing.coding.flaws list.entry.now)) (λ s. s.now ≡ C.Crossing.coding.decodes list.entry.now) }
{
    if let Some(place) = C::flaw(list) {
        return Err(Stop::Value(place));
    }
    Ok(C::values(heap, list, room)?)
}

// The default, which stands behind the marks of a function's description.
pub(crate) fn read_default<C: Crossing>(numbers: C::Numbers) -> Result<C::Value, Stop>
    ensures { result ≡ gives (C.Crossing.coding.decoded numbers) (stopped Function (default_flaw C.Crossing.coding numbers)) }
{
    if C::is_flawed(numbers) {
        return Err(Stop::Function(8));
    }
    Ok(C::value(numbers))
}
