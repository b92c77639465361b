use crate::parts::{DONE, LAG, parts};
use column::kind::Instant;
use std::alloc::{AllocError, Global};
use std::test::Fail;
use wire::function::Function;
use wire::kinds::Plain;
use wire::runs::{Noted, Script, run_cells, run_numbers};

const VALUES: [Instant; 3] = [Instant(5), Instant(5), Instant(7)];

const NOTHING: Noted = Noted {
    what: 9,
    number: 9,
    place: 9,
};

// Each call in bytes.
fn bytes(heap: Global, calls: &[[usize; 8]]) -> Result<Vec<u8>, AllocError> {
    let mut bytes = Vec::new(heap);
    for call in calls {
        for number in call {
            bytes.extend_from_slice(&number.to_le_bytes())?;
        }
    }
    Ok(bytes)
}

fn noted(noted: Noted) -> (usize, usize, usize) {
    (noted.what, noted.number, noted.place)
}

// LEAD by 1 row: too early, answered, its mark read, closed, refused twice, and then not finished.
#[test]
fn cells_by_row(rt: HostRuntime) -> Result<(), Fail> {
    let calls = bytes(
        rt.alloc(),
        &[
            [0, 0, 0, 1, 0, 1, 0, 0],
            [0, 0, 0, 2, 0, 2, 0, 0],
            [3, 0, 0, 0, 0, 0, 0, 0],
            [4, 3, 0, 0, 0, 0, 0, 0],
            [4, 3, 0, 0, 0, 0, 0, 0],
            [0, 1, 1, 3, 1, 2, 0, 0],
            [0, 2, 2, 3, 2, 3, 0, 0],
        ],
    )?;
    let script = Script {
        values: &VALUES,
        marks: &[1, 0, 1],
        calls: calls.as_slice(),
    };
    let lead = Function {
        name: 1,
        finish: 1,
        ..LAG
    };
    let mut outcomes = [NOTHING; 8];
    let mut out = [Instant(77); 7];
    let mut marks = [3; 7];
    let mut ending = NOTHING;
    let told = run_cells::<Plain<Instant>>(
        rt.alloc(),
        &lead,
        Instant(0),
        &script,
        &mut outcomes,
        &mut out,
        &mut marks,
        &mut ending,
    );
    assert_eq!(rt; parts(told), DONE);
    let wanted = [
        (4, 17, 0),
        (0, 0, 0),
        (2, 0, 1),
        (1, 0, 0),
        (3, 0, 0),
        (4, 5, 1),
        (4, 14, 1),
        (9, 9, 9),
    ];
    for (outcome, want) in outcomes.iter().zip(wanted.iter()) {
        assert_eq!(rt; noted(*outcome), *want);
    }
    assert_eq!(rt; marks, [3, 0, 3, 3, 3, 3, 3]);
    assert_eq!(rt; out, [Instant(77); 7]);
    assert_eq!(rt; noted(ending), (4, 20, 1));
    Ok(())
}

// RANK of three rows, closed and finished; and a call that no bytes stand for.
#[test]
fn numbers_by_row(rt: HostRuntime) -> Result<(), Fail> {
    let calls = bytes(
        rt.alloc(),
        &[
            [0, 0, 0, 3, 0, 3, 0, 0],
            [0, 0, 0, 3, 0, 3, 0, 0],
            [0, 2, 2, 3, 2, 3, 0, 0],
            [4, 3, 0, 0, 0, 0, 0, 0],
        ],
    )?;
    let script = Script {
        values: &VALUES,
        marks: &[1; 3],
        calls: calls.as_slice(),
    };
    let rank = Function {
        name: 5,
        finish: 1,
        ..LAG
    };
    let mut outcomes = [NOTHING; 4];
    let mut out = [77; 4];
    let mut ending = NOTHING;
    let told = run_numbers::<Plain<Instant>>(
        rt.alloc(),
        &rank,
        &script,
        &mut outcomes,
        &mut out,
        &mut ending,
    );
    assert_eq!(rt; parts(told), DONE);
    assert_eq!(rt; out, [1, 1, 3, 77]);
    assert_eq!(rt; noted(ending), (5, 0, 3));
    let wrong = bytes(
        rt.alloc(),
        &[[2, 0, 0, 0, 0, 0, 0, 0], [0, 0, 0, 4, 0, 3, 0, 0]],
    )?;
    let script = Script {
        calls: wrong.as_slice(),
        ..script
    };
    let told = run_numbers::<Plain<Instant>>(
        rt.alloc(),
        &rank,
        &script,
        &mut outcomes,
        &mut out,
        &mut ending,
    );
    assert_eq!(rt; parts(told), (1, 24, 80));
    Ok(())
}
