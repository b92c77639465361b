use crate::parts::{DONE, LAG, parts};
use column::kind::Instant;
use wire::function::Function;
use wire::kinds::{OutcomeNumbers, Outcomes, Plain};
use wire::lists::Span;
use wire::whole::{Lent, cells, fractions, groups, numbers};

const VALUES: [Instant; 4] = [Instant(5), Instant(0), Instant(7), Instant(7)];

const MARKS: [u8; 4] = [1, 0, 1, 1];

const GROUPS: [Span; 3] = [
    Span { start: 0, end: 1 },
    Span { start: 1, end: 2 },
    Span { start: 2, end: 4 },
];

const FRAMES: [Span; 4] = [Span { start: 0, end: 3 }; 4];

const ROWS: Lent<'static, Instant> = Lent {
    values: &VALUES,
    marks: &MARKS,
    frames: &FRAMES,
    groups: &GROUPS,
};

#[test]
fn answers_cells(rt: HostRuntime) {
    let default = Instant(9);
    let mut out = [Instant(77); 5];
    let mut marks = [3; 5];
    let told = cells::<Plain<Instant>>(rt.alloc(), &LAG, default, &ROWS, &mut out, &mut marks);
    assert_eq!(rt; parts(told), DONE);
    assert_eq!(rt; marks, [0, 1, 0, 1, 3]);
    assert_eq!(rt; out[1], Instant(5));
    assert_eq!(rt; out[2], Instant(77));
    let last = Function { name: 3, ..LAG };
    let told = cells::<Plain<Instant>>(rt.alloc(), &last, default, &ROWS, &mut out, &mut marks);
    assert_eq!(rt; parts(told), DONE);
    assert_eq!(rt; marks, [1, 1, 1, 1, 3]);
    assert_eq!(rt; out[0], Instant(7));
}

#[test]
fn answers_outcomes(rt: HostRuntime) {
    let refused = OutcomeNumbers {
        tag: 1,
        reason: 404,
    };
    let granted = OutcomeNumbers { tag: 0, reason: 0 };
    let wrong = OutcomeNumbers { tag: 3, reason: 0 };
    let values = [refused, granted];
    let rows = Lent {
        values: &values,
        marks: &MARKS[0..2],
        frames: &[],
        groups: &[],
    };
    let lead = Function {
        name: 1,
        mirrored: 1,
        has_default: 1,
        ..LAG
    };
    let mut out = [granted; 2];
    let mut marks = [3; 2];
    let told = cells::<Outcomes>(rt.alloc(), &lead, refused, &rows, &mut out, &mut marks);
    assert_eq!(rt; parts(told), DONE);
    assert_eq!(rt; marks, [1, 1]);
    assert_eq!(rt; (out[0].tag, out[0].reason), (1, 404));
    assert_eq!(rt; (out[1].tag, out[1].reason), (1, 404));
    let told = cells::<Outcomes>(rt.alloc(), &lead, wrong, &rows, &mut out, &mut marks);
    assert_eq!(rt; parts(told), (1, 21, 8));
    let values = [refused, wrong];
    let rows = Lent {
        values: &values,
        ..rows
    };
    let told = cells::<Outcomes>(rt.alloc(), &lead, refused, &rows, &mut out, &mut marks);
    assert_eq!(rt; parts(told), (1, 22, 1));
}

#[test]
fn answers_numbers(rt: HostRuntime) {
    let mut out = [77; 5];
    let rank = Function { name: 5, ..LAG };
    let told = numbers::<Plain<Instant>>(rt.alloc(), &rank, &ROWS, &mut out);
    assert_eq!(rt; parts(told), DONE);
    assert_eq!(rt; out, [1, 2, 3, 3, 77]);
    let told = numbers::<Plain<Instant>>(rt.alloc(), &LAG, &ROWS, &mut out);
    assert_eq!(rt; parts(told), (1, 21, 0));
    let wrong = Lent {
        marks: &[1, 0, 2, 1],
        ..ROWS
    };
    let told = numbers::<Plain<Instant>>(rt.alloc(), &rank, &wrong, &mut out);
    assert_eq!(rt; parts(told), (1, 23, 2));
    let ungrouped = Lent {
        groups: &[],
        ..ROWS
    };
    let told = numbers::<Plain<Instant>>(rt.alloc(), &rank, &ungrouped, &mut out);
    assert_eq!(rt; parts(told), (1, 10, 0));
}

#[test]
fn answers_fractions(rt: HostRuntime) {
    let mut out = [0.5; 4];
    let cume = Function { name: 9, ..LAG };
    let told = fractions::<Plain<Instant>>(rt.alloc(), &cume, &ROWS, &mut out);
    assert_eq!(rt; parts(told), DONE);
    assert_eq!(rt; out, [0.25, 0.5, 1.0, 1.0]);
}

#[test]
fn works_groups_out(rt: HostRuntime) {
    let mut out = [Span { start: 9, end: 9 }; 4];
    let told = groups::<Plain<Instant>>(rt.alloc(), &VALUES, &MARKS, &mut out);
    assert_eq!(rt; parts(told), (0, 0, 3));
    for (found, group) in out.iter().zip(GROUPS.iter()) {
        assert_eq!(rt; (found.start, found.end), (group.start, group.end));
    }
    assert_eq!(rt; out[3].start, 9);
    let told = groups::<Plain<Instant>>(rt.alloc(), &VALUES, &MARKS, &mut out[0..2]);
    assert_eq!(rt; parts(told), (1, 9, 2));
}
