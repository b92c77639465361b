use column::column::{ROW_LIMIT, Window};
use column::fault::Fault;
use column::kind::Instant;
use evaluator::utils::Argument;
use lead_lag::WindowShift;
use lead_lag::offset::WindowShiftKind;
use run::rows::RowEvaluator;
use run::run::Open;
use std::test::Fail;

// 5, NULL, 7, NULL, NULL, 9
const VALUES: [Instant; 6] = [
    Instant(5),
    Instant(0),
    Instant(7),
    Instant(0),
    Instant(0),
    Instant(9),
];

const MARKS: [bool; 6] = [true, false, true, false, false, true];

fn ignoring(kind: WindowShiftKind) -> Result<WindowShift<Instant>, Fault> {
    WindowShift::new(kind, Argument::Missing, false, true, Some(Instant(0)))
}

// LEAD 1: row 0 is too early at two rows, and settled by three.
#[test]
fn ahead(rt: HostRuntime) -> Result<(), Fail> {
    let mut run = Open::new(&ignoring(WindowShiftKind::Lead)?, false);
    let two = Window::new(0, &VALUES[0..2], &MARKS[0..2]);
    assert_eq!(rt; run.request(&two, None), Err(Fault::TooEarly(0)));
    let three = Window::new(0, &VALUES[0..3], &MARKS[0..3]);
    assert_eq!(rt; run.request(&three, None), Ok(Some(Instant(7))));
    assert_eq!(rt; run.request(&three, None), Ok(Some(Instant(7))));
    assert_eq!(rt; run.keep_mark(), 2);
    assert_eq!(rt; run.request(&three, None), Err(Fault::TooEarly(2)));
    assert_eq!(rt; run.settle(), Err(Fault::NotFromZero(2)));
    Ok(())
}

// LAG 1: the keep mark is the present row before the next row, and a window must reach back to it.
#[test]
fn back(rt: HostRuntime) -> Result<(), Fail> {
    let mut run = Open::new(&ignoring(WindowShiftKind::Lag)?, true);
    let first = Window::new(0, &VALUES[0..2], &MARKS[0..2]);
    assert_eq!(rt; run.request(&first, None), Ok(Some(Instant(0))));
    assert_eq!(rt; run.request(&first, None), Ok(Some(Instant(5))));
    assert_eq!(rt; run.settle(), Ok(()));
    assert_eq!(rt; run.keep_mark(), 0);
    let late = Window::new(2, &VALUES[2..4], &MARKS[2..4]);
    assert_eq!(rt; run.request(&late, None), Err(Fault::BeginsLate(0)));
    let next = Window::new(0, &VALUES[0..4], &MARKS[0..4]);
    assert_eq!(rt; run.request(&next, None), Ok(Some(Instant(5))));
    assert_eq!(rt; run.keep_mark(), 2);
    assert_eq!(rt; run.request(&late, None), Ok(Some(Instant(7))));
    Ok(())
}

// A closed run knows its total, and is finished once every row is answered.
#[test]
fn closed(rt: HostRuntime) -> Result<(), Fail> {
    let mut run = Open::new(&ignoring(WindowShiftKind::Lead)?, false);
    let one = Window::new(0, &VALUES[0..1], &MARKS[0..1]);
    let three = Window::new(0, &VALUES[0..3], &MARKS[0..3]);
    assert_eq!(rt; run.request(&three, None), Ok(Some(Instant(7))));
    let Err((fault, run)) = run.close(0) else {
        return Err(Fail::new("a total below the next row"));
    };
    assert_eq!(rt; fault, Fault::BadTotal(1));
    let Err((fault, mut run)) = run.close(ROW_LIMIT + 1) else {
        return Err(Fail::new("a total above the row limit"));
    };
    assert_eq!(rt; fault, Fault::BadTotal(1));
    let uneven = Window::new(0, &VALUES[0..3], &MARKS[0..2]);
    assert_eq!(rt; run.request(&uneven, None), Err(Fault::Lengths(2)));
    let far = Window::new(ROW_LIMIT, &VALUES[0..1], &MARKS[0..1]);
    assert_eq!(rt; run.request(&far, None), Err(Fault::RowLimit(ROW_LIMIT)));
    let Ok(run) = run.close(2) else {
        return Err(Fail::new("a total of two"));
    };
    let Err((fault, mut run)) = run.finish() else {
        return Err(Fail::new("a row is unanswered"));
    };
    assert_eq!(rt; fault, Fault::Unanswered(1));
    assert_eq!(rt; run.request(&three, None), Err(Fault::PastTotal(2)));
    assert_eq!(rt; run.request(&one, None), Err(Fault::TooEarly(1)));
    let two = Window::new(0, &VALUES[0..2], &MARKS[0..2]);
    assert_eq!(rt; run.request(&two, None), Ok(Some(Instant(0))));
    assert_eq!(rt; run.request(&two, None), Err(Fault::NoRowLeft(2)));
    match run.finish() {
        Ok((_, rows)) => {
            assert_eq!(rt; rows, 2);
            Ok(())
        },
        Err(_) => Err(Fail::new("every row is answered")),
    }
}
