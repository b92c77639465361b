use column::fault::Fault;
use column::kind::Instant;
use evaluator::cells::evaluate_cells;
use evaluator::utils::Argument;
use nth_value::{NthValue, cases_hold};
use partition::whole::WholePartition;
use std::process::Abort;
use std::test::Fail;

// 5, NULL, 7, NULL, NULL, 9
const VALUES: [Instant; 6] = [
    Instant(5),
    Instant(-1),
    Instant(7),
    Instant(-1),
    Instant(-1),
    Instant(9),
];

const MARKS: [bool; 6] = [true, false, true, false, false, true];

// up to the row; three rows round it; the worked frame; an empty one; frames that lie ahead; one that falls back
const FRAMES: [(usize, usize); 6] = [(0, 1), (0, 3), (1, 4), (3, 3), (5, 6), (0, 6)];

// The answers over the frames into lists of 77s, a NULL as 77 with a false mark.
fn answers(function: &NthValue<Instant>) -> Result<([Instant; 6], [bool; 6]), Fault> {
    let mut out = [Instant(77); 6];
    let mut present = [true; 6];
    let rows = WholePartition::new(&VALUES, &MARKS, &FRAMES, &[]);
    evaluate_cells(function, &rows, &mut out, &mut present)?;
    Ok((out, present))
}

#[cfg(test)]
fn check_answers(
    rt: &impl Abort,
    function: &NthValue<Instant>,
    numbers: [i64; 6],
) -> Result<(), Fail> {
    let marks = numbers.map(|number| number != 77);
    assert_eq!(rt; answers(function)?, (numbers.map(Instant), marks));
    Ok(())
}

#[test]
fn worked_cases(rt: HostRuntime) {
    assert_eq!(rt; cases_hold(), 7);
}

#[test]
fn ends(rt: HostRuntime) -> Result<(), Fail> {
    check_answers(&rt, &NthValue::first(false), [5, 5, 77, 77, 9, 5])?;
    check_answers(&rt, &NthValue::last(false), [5, 7, 77, 77, 9, 9])?;
    check_answers(&rt, &NthValue::first(true), [5, 5, 7, 77, 9, 5])?;
    check_answers(&rt, &NthValue::last(true), [5, 7, 7, 77, 9, 9])
}

// The worked frame (1, 4) is row 2; a frame of exactly n rows has an n-th row, and n + 1 is past its end.
#[test]
fn counted(rt: HostRuntime) -> Result<(), Fail> {
    let one = NthValue::nth(Argument::Signed(1), false)?;
    check_answers(&rt, &one, [5, 5, 77, 77, 9, 5])?;
    let two = NthValue::nth(Argument::Signed(2), false)?;
    check_answers(&rt, &two, [77, 77, 7, 77, 77, 77])?;
    let two_present = NthValue::nth(Argument::Signed(2), true)?;
    check_answers(&rt, &two_present, [77, 7, 77, 77, 77, 7])?;
    let three = NthValue::nth(Argument::Unsigned(3), false)?;
    check_answers(&rt, &three, [77, 7, 77, 77, 77, 7])?;
    let six = NthValue::nth(Argument::Signed(6), false)?;
    check_answers(&rt, &six, [77, 77, 77, 77, 77, 9])?;
    let seven = NthValue::nth(Argument::Signed(7), false)?;
    check_answers(&rt, &seven, [77; 6])
}

#[test]
fn from_the_end(rt: HostRuntime) -> Result<(), Fail> {
    let own_last = NthValue::nth(Argument::Signed(-1), false)?;
    check_answers(&rt, &own_last, [5, 7, 77, 77, 9, 9])?;
    let last = NthValue::nth(Argument::Signed(-1), true)?;
    check_answers(&rt, &last, [5, 7, 7, 77, 9, 9])?;
    let third = NthValue::nth(Argument::Signed(-3), false)?;
    check_answers(&rt, &third, [77, 5, 77, 77, 77, 77])?;
    let third_present = NthValue::nth(Argument::Signed(-3), true)?;
    check_answers(&rt, &third_present, [77, 77, 77, 77, 77, 5])
}

// Of frames with no present row all answers are NULL.
#[test]
fn all_null(rt: HostRuntime) -> Result<(), Fail> {
    let rows = WholePartition::new(&VALUES, &[false; 6], &FRAMES, &[]);
    for ignore_nulls in [false, true] {
        for function in [
            NthValue::first(ignore_nulls),
            NthValue::last(ignore_nulls),
            NthValue::nth(Argument::Signed(1), ignore_nulls)?,
            NthValue::nth(Argument::Signed(-1), ignore_nulls)?,
        ] {
            let mut out = [Instant(77); 6];
            let mut present = [true; 6];
            evaluate_cells(&function, &rows, &mut out, &mut present)?;
            assert_eq!(rt; (out, present), ([Instant(77); 6], [false; 6]));
        }
    }
    Ok(())
}

// 0, NULL and the extremes count to no row.
#[test]
fn extremes(rt: HostRuntime) -> Result<(), Fail> {
    for ignore_nulls in [false, true] {
        for n in [
            Argument::Null,
            Argument::Signed(0),
            Argument::Signed(i64::MAX),
            Argument::Signed(-9223372036854775807),
        ] {
            check_answers(&rt, &NthValue::nth(n, ignore_nulls)?, [77; 6])?;
        }
    }
    Ok(())
}

fn refusal(argument: Argument) -> Option<Fault> {
    NthValue::<Instant>::nth(argument, false).err()
}

#[test]
fn arguments(rt: HostRuntime) {
    assert_eq!(rt; refusal(Argument::NotInteger), Some(Fault::NotInteger(1)));
    assert_eq!(rt;
        refusal(Argument::Unsigned(9223372036854775808)),
        Some(Fault::TooLarge(1))
    );
    assert_eq!(rt; refusal(Argument::Missing), Some(Fault::MissingArgument(1)));
    assert_eq!(rt;
        refusal(Argument::Signed(i64::MIN)),
        Some(Fault::TooSmall(1))
    );
}

// Wanted frames that are absent, one too few, and one that ends past the rows.
#[test]
fn bad_frames(rt: HostRuntime) {
    let first = NthValue::first(true);
    let mut out = [Instant(77); 2];
    let mut present = [true; 2];
    let absent = WholePartition::new(&VALUES[0..2], &MARKS[0..2], &[], &[]);
    assert_eq!(rt;
        evaluate_cells(&first, &absent, &mut out, &mut present),
        Err(Fault::Absent(0))
    );
    let few = WholePartition::new(&VALUES[0..2], &MARKS[0..2], &[(0, 1)], &[]);
    assert_eq!(rt;
        evaluate_cells(&first, &few, &mut out, &mut present),
        Err(Fault::BadFrames(1))
    );
    let past = WholePartition::new(&VALUES[0..2], &MARKS[0..2], &[(0, 1), (0, 3)], &[]);
    assert_eq!(rt;
        evaluate_cells(&first, &past, &mut out, &mut present),
        Err(Fault::BadFrames(1))
    );
    assert_eq!(rt; out, [Instant(77); 2]);
    assert_eq!(rt; present, [true; 2]);
}
