ghost use Rattle.std.specs.Prelude.{◌≡◌, Bool, T};
ghost use Rattle.column.specs.Kinds.{same_instant, same_pseudonym, same_code, same_outcome, same_pair};
ghost use Rattle.std.proofs.Common.{rules};

// A kind of value: copied exactly, with a test of sameness that is an equivalence.
// No `Eq` is asked: a kind may call values the same that its `==` tells apart.
pub trait Kind: Copy {
    ghost same: { Self → Self → Bool };

    fn same(&self, other: &Self) -> bool
        ensures { result ≡ same self.now other.now };

    ghost reflexive: { (x : Self) → T (same x x) };

    ghost symmetric: { (x y : Self) → T (same x y) → T (same y x) };

    ghost transitive: { (x y z : Self) → T (same x y) → T (same y z) → T (same x z) };
}

// A point in time.
#[repr(C)]
#[derive(Clone, Copy, PartialEq, Eq, Debug)]
pub struct Instant(pub i64);

impl Kind for Instant {
    ghost same = { same_instant };

    ghost reflexive = { Prim.search rules };

    ghost symmetric = { Prim.search rules };

    ghost transitive = { Prim.search rules };

    fn same(&self, other: &Instant) -> bool {
        self == other
    }
}

// Who logged in, without a name.
#[repr(C)]
#[derive(Clone, Copy, PartialEq, Eq)]
pub struct Pseudonym {
    pub high: u64,
    pub low: u64,
}

impl Kind for Pseudonym {
    ghost same = { same_pseudonym };

    ghost reflexive = { Prim.search rules };

    ghost symmetric = { Prim.search rules };

    ghost transitive = { Prim.search rules };

    fn same(&self, other: &Pseudonym) -> bool {
        self == other
    }
}

// A college's code of up to eight bytes, the first byte highest, unused bytes 0.
#[repr(C)]
#[derive(Clone, Copy, PartialEq, Eq)]
pub struct CollegeCode(pub u64);

impl Kind for CollegeCode {
    ghost same = { same_code };

    ghost reflexive = { Prim.search rules };

    ghost symmetric = { Prim.search rules };

    ghost transitive = { Prim.search rules };

    fn same(&self, other: &CollegeCode) -> bool {
        self == other
    }
}

// How a login ended.
#[derive(Clone, Copy, PartialEq, Eq)]
pub enum LoginOutcome {
    Granted,
    // with the reason
    Refused(u16),
    TimedOut,
}

impl Kind for LoginOutcome {
    ghost same = { same_outcome };

    ghost reflexive = { Prim.search rules };

    ghost symmetric = { Prim.search rules };

    ghost transitive = { Prim.search rules };

    fn same(&self, other: &LoginOutcome) -> bool {
        self == other
    }
}

// A value of one kind beside a value of another.
#[derive(Clone, Copy, PartialEq, Eq)]
pub struct Pair<A, B> {
    pub first: A,
    pub second: B,
}

impl<A: Kind, B: Kind> Kind for Pair<A, B> {
    ghost same = { same_pair A.Kind.same B.Kind.same };

    ghost reflexive = { Prim.search rules };

    ghost symmetric = { Prim.search rules };

    ghost transitive = { Prim.search rules };

    fn same(&self, other: &Pair<A, B>) -> bool {
        self.first.same(&other.first) && self.second.same(&other.second)
    }
}
