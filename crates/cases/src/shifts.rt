use column::kind::Instant;
use evaluator::cells::evaluate_cells;
use evaluator::utils::Argument;
use lead_lag::WindowShift;
use lead_lag::offset::WindowShiftKind;
use partition::whole::WholePartition;
use std::process::Abort;
use std::test::Fail;

// 5, NULL, 7, NULL, NULL, 9
const A: ([i64; 6], [bool; 6]) = (
    [5, -1, 7, -1, -1, 9],
    [true, false, true, false, false, true],
);

// 10, 11, 12, 13, NULL, 15
const B: ([i64; 6], [bool; 6]) = (
    [10, 11, 12, 13, -1, 15],
    [true, true, true, true, false, true],
);

// The answers of a shift with default 0, into lists of 77s.
fn shifted(
    kind: WindowShiftKind,
    offset: Argument,
    reversed: bool,
    ignoring: bool,
    column: ([i64; 6], [bool; 6]),
) -> Result<([Instant; 6], [bool; 6]), Fail> {
    let (numbers, marks) = column;
    let values = numbers.map(Instant);
    let mut out = [Instant(77); 6];
    let mut present = [true; 6];
    let shift = WindowShift::new(kind, offset, reversed, ignoring, Some(Instant(0)))?;
    let rows = WholePartition::new(&values, &marks, &[], &[]);
    evaluate_cells(&shift, &rows, &mut out, &mut present)?;
    Ok((out, present))
}

fn check_answers(
    rt: &impl Abort,
    found: ([Instant; 6], [bool; 6]),
    numbers: [i64; 6],
    marks: [bool; 6],
) {
    assert_eq!(rt; found, (numbers.map(Instant), marks));
}

// The worked cases, run.
#[test]
fn ignoring(rt: HostRuntime) -> Result<(), Fail> {
    let lag = WindowShiftKind::Lag;
    let lead = WindowShiftKind::Lead;
    let one = shifted(lag, Argument::Missing, false, true, A)?;
    check_answers(&rt, one, [0, 5, 5, 7, 7, 7], [true; 6]);
    let two = shifted(lag, Argument::Signed(2), false, true, A)?;
    check_answers(&rt, two, [0, 0, 0, 5, 5, 5], [true; 6]);
    let next = shifted(lead, Argument::Missing, false, true, A)?;
    check_answers(&rt, next, [7, 7, 9, 9, 9, 0], [true; 6]);
    let second = shifted(lead, Argument::Unsigned(2), false, true, B)?;
    check_answers(&rt, second, [12, 13, 15, 0, 0, 0], [true; 6]);
    Ok(())
}

// A NULL answer clears the mark and keeps the value that was there.
#[test]
fn respecting(rt: HostRuntime) -> Result<(), Fail> {
    let lag = WindowShiftKind::Lag;
    let one = shifted(lag, Argument::Signed(1), false, false, A)?;
    check_answers(
        &rt,
        one,
        [0, 5, 77, 7, 77, 77],
        [true, true, false, true, false, false],
    );
    let own = shifted(lag, Argument::Null, false, false, A)?;
    check_answers(&rt, own, [5, 77, 7, 77, 77, 9], A.1);
    let ignoring = shifted(lag, Argument::Null, false, true, A)?;
    check_answers(&rt, ignoring, [5, 77, 7, 77, 77, 9], A.1);
    Ok(())
}

// Reversed, LEAD is LAG; a negative offset is the other function; the extremes leave the partition.
#[test]
fn signs(rt: HostRuntime) -> Result<(), Fail> {
    let lag = WindowShiftKind::Lag;
    let lead = WindowShiftKind::Lead;
    let turned = shifted(lead, Argument::Missing, true, true, A)?;
    check_answers(&rt, turned, [0, 5, 5, 7, 7, 7], [true; 6]);
    let negative = shifted(lag, Argument::Signed(-1), false, true, A)?;
    check_answers(&rt, negative, [7, 7, 9, 9, 9, 0], [true; 6]);
    let smallest = shifted(lead, Argument::Signed(i64::MIN), false, false, A)?;
    check_answers(&rt, smallest, [0; 6], [true; 6]);
    let largest = shifted(lag, Argument::Unsigned(9223372036854775807), false, true, A)?;
    check_answers(&rt, largest, [0; 6], [true; 6]);
    Ok(())
}
