use column::column::{Column, ROW_LIMIT};
use column::fault::Fault;
use column::kind::{Instant, LoginOutcome};
use column::output::Numbers;
use evaluator::evaluator::Evaluator;
use partition::peers::peer_groups;
use partition::whole::WholePartition;
use rank::cume_dist::CumeDist;
use std::test::Fail;

// 4, 4, NULL, NULL, 9; the values at NULL rows differ
const VALUES: [Instant; 5] = [Instant(4), Instant(4), Instant(1), Instant(2), Instant(9)];

const MARKS: [bool; 5] = [true, true, false, false, true];

fn column<'a, K>(values: &'a [K], marks: &'a [bool]) -> Column<'a, K> {
    Column { values, marks }
}

// NULL keys form one group, and places beyond the groups stay.
#[test]
fn groups(rt: HostRuntime) {
    let mut list = [(7, 7); 4];
    assert_eq!(rt; peer_groups(&column(&VALUES, &MARKS), &mut list), Ok(3));
    assert_eq!(rt; list, [(0, 2), (2, 4), (4, 5), (7, 7)]);
    assert_eq!(rt; peer_groups(&column::<Instant>(&[], &[]), &mut list), Ok(0));
    assert_eq!(rt; list, [(0, 2), (2, 4), (4, 5), (7, 7)]);
}

#[test]
fn refused_groups(rt: HostRuntime) {
    let mut list = [(7, 7); 2];
    let short = peer_groups(&column(&VALUES, &MARKS), &mut list);
    assert_eq!(rt; short, Err(Fault::ShortGroups(2)));
    assert_eq!(rt; list, [(7, 7), (7, 7)]);
    let uneven = peer_groups(&column(&VALUES, &MARKS[0..4]), &mut list);
    assert_eq!(rt; uneven, Err(Fault::Lengths(4)));
    assert_eq!(rt; list, [(7, 7), (7, 7)]);
}

// The groups of rows that are all the same, and the last CUME_DIST.
fn last_of<'a>(
    values: &'a [LoginOutcome],
    marks: &'a [bool],
    groups: &'a mut [(usize, usize)],
    out: &mut [f64],
) -> Result<usize, Fault> {
    let count = peer_groups(&column(values, marks), groups)?;
    let rows = WholePartition::new(values, marks, &[], groups);
    CumeDist::new().evaluate_all(&rows, &mut Numbers { list: out })?;
    Ok(count)
}

#[test]
fn row_limit(rt: HostRuntime) -> Result<(), Fail> {
    let heap = rt.alloc();
    let mut values = vec![in heap; LoginOutcome::Granted; 16_777_217]?;
    let mut marks = vec![in heap; true; 16_777_217]?;
    let mut out = vec![in heap; 0.0; 16_777_216]?;
    let mut groups = [(7, 7); 1];
    let more = last_of(&values, &marks, &mut groups, &mut out);
    assert_eq!(rt; more, Err(Fault::RowLimit(ROW_LIMIT)));
    let rows = WholePartition::new(values.as_slice(), marks.as_slice(), &[], &groups);
    let answered = CumeDist::new().evaluate_all(&rows, &mut Numbers { list: &mut out });
    assert_eq!(rt; answered, Err(Fault::RowLimit(ROW_LIMIT)));
    assert!(rt; groups == [(7, 7)] && out.last() == Some(&0.0));
    values.truncate(ROW_LIMIT);
    marks.truncate(ROW_LIMIT);
    let all = last_of(&values, &marks, &mut groups, &mut out);
    assert_eq!(rt; all, Ok(1));
    assert_eq!(rt; groups, [(0, ROW_LIMIT)]);
    assert!(rt; out.last() == Some(&1.0));
    Ok(())
}
