use column::column::{Column, same_cell};
use column::kind::{CollegeCode, Instant, Kind, LoginOutcome, Pair, Pseudonym};
use std::test::Fail;

#[test]
fn part_by_part(rt: HostRuntime) {
    assert!(rt; Instant(-3).same(&Instant(-3)) && !Instant(-3).same(&Instant(3)));
    let name = Pseudonym { high: 1, low: 2 };
    assert!(rt; name.same(&name) && !name.same(&Pseudonym { high: 1, low: 3 }));
    assert!(rt; !name.same(&Pseudonym { high: 2, low: 2 }));
    assert!(rt; !CollegeCode(0x4142_0000_0000_0000).same(&CollegeCode(0x4142)));
    assert!(rt; LoginOutcome::Refused(7).same(&LoginOutcome::Refused(7)));
    assert!(rt; !LoginOutcome::Refused(7).same(&LoginOutcome::Refused(8)));
    assert!(rt; !LoginOutcome::Granted.same(&LoginOutcome::TimedOut));
}

#[test]
fn pairs_and_cells(rt: HostRuntime) {
    let pair = Pair {
        first: Instant(1),
        second: LoginOutcome::Granted,
    };
    let other = Pair {
        first: Instant(1),
        second: LoginOutcome::TimedOut,
    };
    assert!(rt; pair.same(&pair) && !pair.same(&other));
    assert!(rt; same_cell(Some(pair), Some(pair)));
    assert!(rt; !same_cell(Some(pair), None));
    assert!(rt; !same_cell(None, Some(pair)));
    assert!(rt; same_cell::<Instant>(None, None));
}

#[test]
fn cells_of_a_column(rt: HostRuntime) -> Result<(), Fail> {
    let column = Column {
        values: &[Instant(1), Instant(2), Instant(3)],
        marks: &[true, false],
    };
    let cells = column.to_cells(rt.alloc())?;
    assert_eq!(rt; cells.as_slice(), [Some(Instant(1)), None].as_slice());
    Ok(())
}
