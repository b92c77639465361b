use crate::ranks::KEYS;
use column::column::Window;
use column::fault::Fault;
use column::kind::Instant;
use rank::rank::{Rank, RankType};
use rank::row_number::RowNumber;
use run::rows::RowEvaluator;
use run::run::Open;

// The answers of a run whose every window holds one row.
fn one_by_one<E: RowEvaluator<Value = Instant, Answer = u64> + Drop>(
    evaluator: &E,
    marks: &[bool; 6],
) -> Result<[u64; 6], Fault> {
    let mut run = Open::new(evaluator, false);
    let mut answers = [0; 6];
    for ((answer, key), mark) in answers.iter_mut().zip(KEYS.chunks(1)).zip(marks.chunks(1)) {
        *answer = run.request(&Window::new(run.keep_mark(), key, mark), None)?;
    }
    Ok(answers)
}

#[test]
fn worked_case(rt: HostRuntime) {
    let marks = [true; 6];
    let ranks = one_by_one(&Rank::new(RankType::Basic), &marks);
    assert_eq!(rt; ranks, Ok([1, 1, 3, 3, 3, 6]));
    let dense = one_by_one(&Rank::new(RankType::Dense), &marks);
    assert_eq!(rt; dense, Ok([1, 1, 2, 2, 2, 3]));
    let numbers = one_by_one(&RowNumber::new(), &marks);
    assert_eq!(rt; numbers, Ok([1, 2, 3, 4, 5, 6]));
}

// 4, NULL, NULL, 6, NULL, 9: NULL keys next to each other form one group.
#[test]
fn null_keys(rt: HostRuntime) {
    let marks = [true, false, false, true, false, true];
    let ranks = one_by_one(&Rank::new(RankType::Basic), &marks);
    assert_eq!(rt; ranks, Ok([1, 2, 2, 4, 5, 6]));
    let dense = one_by_one(&Rank::new(RankType::Dense), &marks);
    assert_eq!(rt; dense, Ok([1, 2, 2, 3, 4, 5]));
}

// A row that is not shown is too early, and a window that begins past the next row is refused.
#[test]
fn refused(rt: HostRuntime) {
    let mut run = Open::new(&Rank::new(RankType::Basic), true);
    assert_eq!(rt;
        run.request(&Window::new(0, &[], &[]), None),
        Err(Fault::TooEarly(0))
    );
    let two = Window::new(0, &KEYS[0..2], &[true; 2]);
    assert_eq!(rt; run.request(&two, None), Ok(1));
    assert_eq!(rt; run.keep_mark(), 1);
    assert_eq!(rt; run.settle(), Ok(()));
    let late = Window::new(2, &KEYS[2..3], &[true; 1]);
    assert_eq!(rt; run.request(&late, None), Err(Fault::BeginsLate(1)));
    assert_eq!(rt; run.request(&two, None), Ok(1));
    assert_eq!(rt; run.request(&two, None), Err(Fault::TooEarly(2)));
    let mut numbers = Open::new(&RowNumber::new(), false);
    assert_eq!(rt; numbers.request(&two, None), Ok(1));
    assert_eq!(rt; numbers.request(&two, None), Ok(2));
    assert_eq!(rt; numbers.request(&two, None), Err(Fault::TooEarly(2)));
}
