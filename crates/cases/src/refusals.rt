use column::column::ROW_LIMIT;
use column::fault::Fault;
use column::kind::{Instant, LoginOutcome};
use evaluator::cells::evaluate_cells;
use evaluator::utils::{Argument, get_signed_integer};
use lead_lag::WindowShift;
use lead_lag::offset::WindowShiftKind;
use partition::whole::{WholePartition, check_whole};
use std::test::Fail;

// 4, 4, NULL
const VALUES: [Instant; 3] = [Instant(4), Instant(4), Instant(0)];

const MARKS: [bool; 3] = [true, true, false];

// The check of a call that wants frames or groups or not, and lends so many slots.
fn checked<'a>(
    marks: &'a [bool],
    frames: &'a [(usize, usize)],
    groups: &'a [(usize, usize)],
    wants: (bool, bool),
    slots: usize,
) -> Result<(), Fault> {
    let rows = WholePartition::new(&VALUES, marks, frames, groups);
    check_whole(&rows, wants.0, wants.1, slots)
}

#[test]
fn arguments(rt: HostRuntime) {
    assert_eq!(rt; get_signed_integer(Argument::Missing), Ok(None));
    assert_eq!(rt; get_signed_integer(Argument::Null), Ok(Some(0)));
    let largest = Argument::Unsigned(9223372036854775807);
    assert_eq!(rt; get_signed_integer(largest), Ok(Some(i64::MAX)));
    let above = Argument::Unsigned(9223372036854775808);
    assert_eq!(rt; get_signed_integer(above), Err(Fault::TooLarge(1)));
    assert_eq!(rt;
        get_signed_integer(Argument::NotInteger),
        Err(Fault::NotInteger(1))
    );
}

#[test]
fn columns_and_outputs(rt: HostRuntime) {
    let none = (false, false);
    assert_eq!(rt;
        checked(&[true], &[(9, 9)], &[], none, 0),
        Err(Fault::Lengths(1))
    );
    assert_eq!(rt; checked(&MARKS, &[], &[], none, 3), Ok(()));
    assert_eq!(rt;
        checked(&MARKS, &[], &[], none, 2),
        Err(Fault::ShortOutput(2))
    );
    assert_eq!(rt;
        checked(&MARKS, &[], &[], (true, false), 0),
        Err(Fault::Absent(0))
    );
    assert_eq!(rt;
        checked(&MARKS, &[], &[], (false, true), 3),
        Err(Fault::Absent(0))
    );
}

#[test]
fn frames(rt: HostRuntime) {
    let wants = (true, false);
    assert_eq!(rt;
        checked(&MARKS, &[(0, 1), (0, 2), (3, 3)], &[], wants, 3),
        Ok(())
    );
    assert_eq!(rt;
        checked(&MARKS, &[(0, 1), (2, 1)], &[], wants, 3),
        Err(Fault::BadFrames(1))
    );
    assert_eq!(rt;
        checked(&MARKS, &[(0, 1), (0, 2)], &[], wants, 3),
        Err(Fault::BadFrames(2))
    );
    let high = [(0, 1), (0, 2), (0, 4)];
    assert_eq!(rt;
        checked(&MARKS, &high, &[(0, 9)], wants, 3),
        Err(Fault::BadFrames(2))
    );
    let many = [(0, 1), (0, 2), (0, 3), (9, 0)];
    assert_eq!(rt;
        checked(&MARKS, &many, &[], wants, 3),
        Err(Fault::BadFrames(3))
    );
}

#[test]
fn groups(rt: HostRuntime) {
    let wants = (false, true);
    assert_eq!(rt; checked(&MARKS, &[], &[(0, 2), (2, 3)], wants, 3), Ok(()));
    assert_eq!(rt;
        checked(&MARKS, &[], &[(0, 3)], wants, 0),
        Err(Fault::BadGroups(0))
    );
    assert_eq!(rt;
        checked(&MARKS, &[], &[(0, 2)], wants, 3),
        Err(Fault::BadGroups(1))
    );
    let many = [(0, 2), (2, 3), (3, 3)];
    assert_eq!(rt;
        checked(&MARKS, &[], &many, wants, 3),
        Err(Fault::BadGroups(2))
    );
}

// After a refusal every list holds what it held.
#[test]
fn untouched(rt: HostRuntime) -> Result<(), Fail> {
    let shift = WindowShift::new(WindowShiftKind::Lag, Argument::Missing, false, true, None)?;
    let rows = WholePartition::new(&VALUES, &MARKS, &[], &[]);
    let mut values = [Instant(77); 3];
    let mut marks = [true; 2];
    let refused = evaluate_cells(&shift, &rows, &mut values, &mut marks);
    assert_eq!(rt; refused, Err(Fault::ShortOutput(2)));
    assert_eq!(rt; (values, marks), ([Instant(77); 3], [true; 2]));
    Ok(())
}

// What lies beyond the rows holds what it held.
#[test]
fn beyond(rt: HostRuntime) -> Result<(), Fail> {
    let shift = WindowShift::new(WindowShiftKind::Lag, Argument::Missing, false, true, None)?;
    let rows = WholePartition::new(&VALUES, &MARKS, &[], &[]);
    let mut values = [Instant(77); 5];
    let mut marks = [true; 5];
    evaluate_cells(&shift, &rows, &mut values, &mut marks)?;
    let found = [
        Instant(77),
        Instant(4),
        Instant(4),
        Instant(77),
        Instant(77),
    ];
    assert_eq!(rt; (values, marks), (found, [false, true, true, true, true]));
    Ok(())
}

// The check of a call on so many rows.
fn checked_rows<'a>(values: &'a [LoginOutcome], marks: &'a [bool]) -> Result<(), Fault> {
    let rows = WholePartition::new(values, marks, &[], &[]);
    check_whole(&rows, false, false, ROW_LIMIT)
}

#[test]
fn row_limit(rt: HostRuntime) -> Result<(), Fail> {
    let heap = rt.alloc();
    let mut values = vec![in heap; LoginOutcome::Granted; 16_777_217]?;
    let mut marks = vec![in heap; true; 16_777_217]?;
    let more = checked_rows(values.as_slice(), marks.as_slice());
    assert_eq!(rt; more, Err(Fault::RowLimit(ROW_LIMIT)));
    values.truncate(ROW_LIMIT);
    marks.truncate(ROW_LIMIT);
    assert_eq!(rt; checked_rows(values.as_slice(), marks.as_slice()), Ok(()));
    Ok(())
}
