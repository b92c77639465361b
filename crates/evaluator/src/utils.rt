// Ported from `utils.rs` of the crate datafusion-functions-window 55.0.0 (Apache-2.0), and changed:
// an argument is an enum in place of a `ScalarValue`, and a refusal a `Fault` in place of a text.
ghost use Rattle.std.specs.Prelude.{◌≡◌};
ghost use Rattle.evaluator.specs.Arguments.{signed_integer, opposite};

use column::fault::Fault;

// An argument of a window function.
#[derive(Clone, Copy)]
pub enum Argument {
    Missing,
    Null,
    Signed(i64),
    Unsigned(u64),
    NotInteger,
}

// The argument as a signed integer; none if it is missing, and NULL reads as 0.
pub fn get_signed_integer(argument: Argument) -> Result<Option<i64>, Fault>
    ensures { result ≡ signed_integer argument }
{
    match argument {
        Argument::Missing => Ok(None),
        Argument::Null => Ok(Some(0)),
        Argument::Signed(value) => Ok(Some(value)),
        Argument::Unsigned(value) => i64::try_from(value)
            .map(Some)
            .map_err(|_| Fault::TooLarge(1)),
        Argument::NotInteger => Err(Fault::NotInteger(1)),
    }
}

// The same number the other way, wrapping.
pub fn opposite(value: i64) -> i64
    ensures { result ≡ opposite value }
{
    value.wrapping_neg()
}
