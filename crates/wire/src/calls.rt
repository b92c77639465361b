// Lists of calls on a run, in bytes.
ghost use Rattle.std.specs.Prelude.{◌≡◌, ◌<◌, length, get_or, [], Some, None, MatchResult};
ghost use Rattle.wire.specs.declared.stop.Stop.TheVariants as stop;
ghost use Rattle.wire.specs.Stops.{Makes, stopped};
ghost use Rattle.wire.specs.Calls.{call_number, part, window_flaw, call_flaw, flaw_from, calls_in, calls_flaw, Stands};

use crate::stop::Stop;
use column::column::{Column, Window};
use column::kind::Kind;
use replay::calls::Call;

// What the windows of a run show parts of.
#[derive(Clone, Copy)]
pub(crate) struct Shown<'a, K> {
    pub(crate) values: &'a [K],
    pub(crate) marks: &'a [bool],
}

// The bytes of a call: eight numbers of eight bytes, the lowest byte first.
const CALL_BYTES: usize = 64;

// The calls of a list without a flaw, each read from its bytes as it is made.
#[derive(Drop)]
pub(crate) struct Calls<'a, K> {
    pub(crate) shown: Shown<'a, K>,
    pub(crate) records: &'a [[u8; CALL_BYTES]],
    ghost sound: { flaw_from shown.values.now shown.marks.now None 0 records.now ≡ None },
}

// A number of a call.
fn number(call: &[u8; CALL_BYTES], place: usize) -> usize
    requires { place < 8 }
    ensures { result ≡ call_number call.now place }
{
    let (numbers, _) = call.as_chunks::<8>();
    usize::from_le_bytes(numbers[place])
}

impl<'a, K: Kind> Shown<'a, K> {
    // The window of a request: its first row, and which values and marks it shows; where it is not, the byte that says so.
    fn window(&self, call: &[u8; CALL_BYTES]) -> Result<Window<'a, K>, usize>
        ensures { MatchResult result
            (λ w. (window_flaw self.now.values.now self.now.marks.now call.now ≡ None) × (w.begin ≡ call_number call.now 1) × (w.rows.values.now ≡ part self.now.values.now (call_number call.now 2) (call_number call.now 3)) × (w.rows.marks.now ≡ part self.now.marks.now (call_number call.now 4) (call_number call.now 5)))
            (λ byte. (window_flaw self.now.values.now self.now.marks.now call.now ≡ Some byte) × (byte < 64)) }
    {
        let values = self
            .values
            .get(number(call, 2)..number(call, 3))
            .ok_or(16usize)?;
        let marks = self
            .marks
            .get(number(call, 4)..number(call, 5))
            .ok_or(32usize)?;
        Ok(Window {
            begin: number(call, 1),
            rows: Column { values, marks },
        })
    }

    // A call: 0 a request without a frame, 1 a request with one, 2 settling, 3 the keep mark, 4 a close.
    fn call(&self, call: &[u8; CALL_BYTES]) -> Result<Call<'a, K>, usize>
        ensures { MatchResult result
            (λ x. (call_flaw self.now.values.now self.now.marks.now call.now ≡ None) × Stands self.now.values.now self.now.marks.now call.now x)
            (λ byte. (call_flaw self.now.values.now self.now.marks.now call.now ≡ Some byte) × (byte < 64)) }
    {
        match number(call, 0) {
            0 => Ok(Call::Request(self.window(call)?, None)),
            1 => Ok(Call::Request(self.window(call)?, Some((number(call, 6), number(call, 7))))),
            2 => Ok(Call::Settle),
            3 => Ok(Call::KeepMark),
            4 => Ok(Call::Close(number(call, 1))),
            _ => Err(0),
        }
    }

    // The calls of a list, or its first flaw.
    pub(crate) fn calls(&self, bytes: &'a [u8]) -> Result<Calls<'a, K>, Stop>
        ensures { Makes result (stopped stop.Call (calls_flaw self.now.values.now self.now.marks.now bytes.now)) (λ c. (c.shown ≡ self.now) × (c.records.now ≡ calls_in bytes.now)) }
    {
        let (records, rest) = bytes.as_chunks::<CALL_BYTES>();
        for (k, record) in records.iter().enumerate() {
            if let Err(byte) = self.call(record) {
                return Err(Stop::Call(k * CALL_BYTES + byte));
            }
        }
        if !rest.is_empty() {
            return Err(Stop::Call(records.len() * CALL_BYTES));
        }
        Ok(Calls {
            shown: *self,
            records,
        })
    }
}

impl<'a, K: Kind> Calls<'a, K> {
    pub(crate) fn len(&self) -> usize
        ensures { result ≡ length self.now.records.now }
    {
        self.records.len()
    }

    // Call number k.
    #[tactic(auto, using(crate::proofs::Flaws::no_flaw))]
    pub(crate) fn get(&self, k: usize) -> Call<'a, K>
        requires { k < length self.now.records.now }
        ensures { Stands self.now.shown.values.now self.now.shown.marks.now (get_or self.now.records.now k []) result }
    {
        match self.shown.call(&self.records[k]) {
            Ok(call) => call,
            Err(_) => unreachable!(),
        }
    }
}
