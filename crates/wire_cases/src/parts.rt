use wire::function::Function;
use wire::stop::Told;

// LAG by 1 row, respecting NULLs, without a default.
pub(crate) const LAG: Function = Function {
    name: 0,
    mirrored: 0,
    reversed: 0,
    ignore_nulls: 0,
    argument: 0,
    has_default: 0,
    from_zero: 0,
    finish: 0,
    signed: 0,
    unsigned: 0,
};

pub(crate) const DONE: (usize, usize, usize) = (0, 0, 0);

pub(crate) fn parts(told: Told) -> (usize, usize, usize) {
    (told.refused, told.number, told.place)
}
