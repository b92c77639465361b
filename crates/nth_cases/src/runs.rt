use column::column::Window;
use column::fault::Fault;
use column::kind::Instant;
use evaluator::utils::Argument;
use nth_value::NthValue;
use run::rows::RowEvaluator;
use run::run::Open;
use std::test::Fail;

const VALUES: [Instant; 4] = [Instant(5), Instant(6), Instant(7), Instant(8)];

// FIRST over frames from the first row: settled, its answer is fixed and the rows before the last frame's last row may go.
#[test]
fn first_settled(rt: HostRuntime) {
    let mut run = Open::new(&NthValue::first(false), true);
    let all = Window::new(0, &VALUES[0..3], &[true; 3]);
    assert_eq!(rt; run.request(&all, Some((0, 3))), Ok(Some(Instant(5))));
    assert_eq!(rt; run.keep_mark(), 0);
    assert_eq!(rt; run.settle(), Ok(()));
    assert_eq!(rt; run.keep_mark(), 2);
    let late = Window::new(2, &VALUES[2..4], &[true; 2]);
    assert_eq!(rt; run.request(&late, Some((0, 4))), Ok(Some(Instant(5))));
    assert_eq!(rt; run.request(&late, Some((1, 4))), Err(Fault::BadFrame(2)));
}

// With NULLs ignored a NULL answer is not fixed, though the rows that gave it may go.
#[test]
fn null_not_fixed(rt: HostRuntime) {
    let mut run = Open::new(&NthValue::first(true), true);
    let nulls = Window::new(0, &VALUES[0..2], &[false; 2]);
    assert_eq!(rt; run.request(&nulls, Some((0, 2))), Ok(None));
    assert_eq!(rt; run.settle(), Ok(()));
    assert_eq!(rt; run.keep_mark(), 1);
    let more = Window::new(1, &VALUES[1..3], &[false, true]);
    assert_eq!(rt; run.request(&more, Some((0, 3))), Ok(Some(Instant(7))));
}

// LAST holds one row, NTH −2 two; NTH 2 is fixed once more than two answers were given. What lies below the mark is not shown again.
#[test]
fn others_settled(rt: HostRuntime) -> Result<(), Fail> {
    let all = Window::new(0, &VALUES, &[true; 4]);
    let mut last = Open::new(&NthValue::last(false), true);
    assert_eq!(rt; last.request(&all, Some((0, 3))), Ok(Some(Instant(7))));
    assert_eq!(rt; last.settle(), Ok(()));
    assert_eq!(rt; last.keep_mark(), 2);
    let from_two = Window::new(2, &VALUES[2..4], &[true; 2]);
    assert_eq!(rt; last.request(&from_two, Some((0, 4))), Ok(Some(Instant(8))));
    let mut second_last = Open::new(&NthValue::nth(Argument::Signed(-2), false)?, true);
    assert_eq!(rt;
        second_last.request(&all, Some((0, 3))),
        Ok(Some(Instant(6)))
    );
    assert_eq!(rt; second_last.settle(), Ok(()));
    assert_eq!(rt; second_last.keep_mark(), 1);
    let from_one = Window::new(1, &VALUES[1..4], &[true; 3]);
    assert_eq!(rt;
        second_last.request(&from_one, Some((0, 4))),
        Ok(Some(Instant(7)))
    );
    let mut second = Open::new(&NthValue::nth(Argument::Signed(2), false)?, true);
    assert_eq!(rt; second.request(&all, Some((0, 2))), Ok(Some(Instant(6))));
    assert_eq!(rt; second.request(&all, Some((0, 3))), Ok(Some(Instant(6))));
    assert_eq!(rt; second.settle(), Ok(()));
    assert_eq!(rt; second.keep_mark(), 0);
    assert_eq!(rt; second.request(&all, Some((0, 3))), Ok(Some(Instant(6))));
    assert_eq!(rt; second.settle(), Ok(()));
    assert_eq!(rt; second.keep_mark(), 2);
    assert_eq!(rt;
        second.request(&from_two, Some((0, 4))),
        Ok(Some(Instant(6)))
    );
    Ok(())
}

// Settled once more the mark follows the frame's end, and the fixed answer stays. A frame of exactly n rows is enough.
#[test]
fn settled_again(rt: HostRuntime) -> Result<(), Fail> {
    let mut second = Open::new(&NthValue::nth(Argument::Signed(2), false)?, true);
    let three = Window::new(0, &VALUES[0..3], &[true; 3]);
    for _ in 0..3 {
        assert_eq!(rt; second.request(&three, Some((0, 2))), Ok(Some(Instant(6))));
    }
    assert_eq!(rt; second.settle(), Ok(()));
    assert_eq!(rt; second.keep_mark(), 1);
    let from_one = Window::new(1, &VALUES[1..4], &[false; 3]);
    assert_eq!(rt;
        second.request(&from_one, Some((0, 4))),
        Ok(Some(Instant(6)))
    );
    assert_eq!(rt; second.settle(), Ok(()));
    assert_eq!(rt; second.keep_mark(), 3);
    Ok(())
}

// Where there is nothing to settle every row stays: with NULLs ignored, n = 0, the extremes, and FIRST over an empty frame.
#[test]
fn nothing_settled(rt: HostRuntime) -> Result<(), Fail> {
    let all = Window::new(0, &VALUES, &[true; 4]);
    for function in [
        NthValue::last(true),
        NthValue::nth(Argument::Signed(1), true)?,
        NthValue::nth(Argument::Signed(-1), true)?,
        NthValue::nth(Argument::Null, false)?,
        NthValue::nth(Argument::Signed(i64::MAX), false)?,
        NthValue::nth(Argument::Signed(-9223372036854775807), false)?,
    ] {
        let mut run = Open::new(&function, true);
        run.request(&all, Some((0, 3)))?;
        run.request(&all, Some((0, 4)))?;
        assert_eq!(rt; run.settle(), Ok(()));
        assert_eq!(rt; run.keep_mark(), 0);
    }
    let mut empty = Open::new(&NthValue::first(false), true);
    assert_eq!(rt; empty.request(&all, Some((0, 0))), Ok(None));
    assert_eq!(rt; empty.settle(), Ok(()));
    assert_eq!(rt; empty.keep_mark(), 0);
    assert_eq!(rt; empty.request(&all, Some((0, 1))), Ok(Some(Instant(5))));
    Ok(())
}

// A frame that ends past the window is too early until the total is known; a frame ahead of the row moves the mark.
#[test]
fn early_and_ahead(rt: HostRuntime) {
    let mut run = Open::new(&NthValue::last(true), false);
    let two = Window::new(0, &VALUES[0..2], &[true; 2]);
    assert_eq!(rt; run.request(&two, Some((1, 3))), Err(Fault::TooEarly(0)));
    let all = Window::new(0, &VALUES, &[true; 4]);
    assert_eq!(rt; run.request(&all, Some((2, 4))), Ok(Some(Instant(8))));
    assert_eq!(rt; run.keep_mark(), 2);
    assert_eq!(rt; run.request(&all, None), Err(Fault::NoFrame(1)));
    assert_eq!(rt; run.settle(), Err(Fault::NotFromZero(1)));
}
