use column::fault::Fault;
use column::kind::Instant;
use column::output::Numbers;
use evaluator::evaluator::Evaluator;
use partition::whole::WholePartition;
use rank::cases_hold;
use rank::cume_dist::CumeDist;
use rank::rank::{PercentRank, Rank, RankType};
use rank::row_number::RowNumber;
use std::test::Fail;

// 4, 4, 6, 6, 6, 9
pub(crate) const KEYS: [Instant; 6] = [
    Instant(4),
    Instant(4),
    Instant(6),
    Instant(6),
    Instant(6),
    Instant(9),
];

const MARKS: [bool; 6] = [true; 6];

const GROUPS: [(usize, usize); 3] = [(0, 2), (2, 5), (5, 6)];

// Writes the answers on the keys into a lent list.
fn answer<E: Evaluator<Value = Instant>>(
    evaluator: &E,
    groups: &[(usize, usize)],
    out: &mut [E::Answer],
) -> Result<(), Fault> {
    let rows = WholePartition::new(&KEYS, &MARKS, &[], groups);
    evaluator.evaluate_all(&rows, &mut Numbers { list: out })
}

#[test]
fn worked_case(rt: HostRuntime) -> Result<(), Fail> {
    assert_eq!(rt; cases_hold(), 10);
    let mut out = [77; 7];
    answer(&Rank::new(RankType::Basic), &GROUPS, &mut out)?;
    assert_eq!(rt; out, [1, 1, 3, 3, 3, 6, 77]);
    let mut out = [77; 7];
    answer(&Rank::new(RankType::Dense), &GROUPS, &mut out)?;
    assert_eq!(rt; out, [1, 1, 2, 2, 2, 3, 77]);
    Ok(())
}

// NULL keys form a group of their own, each run of them.
#[test]
fn null_keys(rt: HostRuntime) -> Result<(), Fail> {
    let marks = [false, false, true, false];
    let groups = [(0, 2), (2, 3), (3, 4)];
    let rows = WholePartition::new(&KEYS[0..4], &marks, &[], &groups);
    let mut out = [77; 5];
    Rank::new(RankType::Basic).evaluate_all(&rows, &mut Numbers { list: &mut out })?;
    assert_eq!(rt; out, [1, 1, 3, 4, 77]);
    Rank::new(RankType::Dense).evaluate_all(&rows, &mut Numbers { list: &mut out })?;
    assert_eq!(rt; out, [1, 1, 2, 3, 77]);
    Ok(())
}

// Groups that are not the keys' are refused, and so are none at all.
#[test]
fn refused(rt: HostRuntime) {
    let rank = Rank::new(RankType::Basic);
    let dense = Rank::new(RankType::Dense);
    let mut out = [77; 7];
    let other = answer(&rank, &[(0, 1), (1, 5), (5, 6)], &mut out);
    assert_eq!(rt; other, Err(Fault::BadGroups(0)));
    let fewer = answer(&dense, &GROUPS[0..2], &mut out);
    assert_eq!(rt; fewer, Err(Fault::BadGroups(2)));
    let none = answer(&dense, &[], &mut out);
    assert_eq!(rt; none, Err(Fault::Absent(0)));
    assert_eq!(rt; out, [77; 7]);
}

#[test]
fn fractions(rt: HostRuntime) -> Result<(), Fail> {
    let mut out = [7.0; 6];
    answer(&PercentRank::new(), &GROUPS, &mut out)?;
    assert!(rt; out == [0.0, 0.0, 0.4, 0.4, 0.4, 1.0]);
    answer(&CumeDist::new(), &GROUPS, &mut out)?;
    assert!(rt; out == [2.0 / 6.0, 2.0 / 6.0, 5.0 / 6.0, 5.0 / 6.0, 5.0 / 6.0, 1.0]);
    Ok(())
}

#[test]
fn one_row(rt: HostRuntime) -> Result<(), Fail> {
    let rows = WholePartition::new(&KEYS[0..1], &MARKS[0..1], &[], &[(0, 1)]);
    let mut out = [7.0; 1];
    PercentRank::new().evaluate_all(&rows, &mut Numbers { list: &mut out })?;
    assert!(rt; out == [0.0]);
    CumeDist::new().evaluate_all(&rows, &mut Numbers { list: &mut out })?;
    assert!(rt; out == [1.0]);
    Ok(())
}

// ROW_NUMBER wants no groups.
#[test]
fn row_numbers(rt: HostRuntime) -> Result<(), Fail> {
    let mut out = [77; 6];
    answer(&RowNumber::new(), &[], &mut out)?;
    assert_eq!(rt; out, [1, 2, 3, 4, 5, 6]);
    Ok(())
}
