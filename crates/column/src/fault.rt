ghost use Rattle.std.specs.Prelude.{◌≡◌};
ghost use Rattle.column.specs.Fault.{number, place};

// Why a call was refused: a case for each check, with the place of the fault in it.
// No struct of a kind and a place: so a case cannot be told without its place, and `match` reads as the table of checks.
#[derive(Clone, Copy, PartialEq, Eq, Debug)]
pub enum Fault {
    // the argument is no integer; which argument
    NotInteger(usize),
    // the argument lies above 2^63 - 1; which argument
    TooLarge(usize),
    // an argument that has to be given is missing; which argument
    MissingArgument(usize),
    // the argument is -2^63; which argument
    TooSmall(usize),
    // values and marks differ in length; the shorter length
    Lengths(usize),
    // more rows than a partition may have; the limit
    RowLimit(usize),
    // frames that are not one a row, each within the rows; the lowest row at fault, else the shorter length
    BadFrames(usize),
    // groups that are not the column's peer groups; the lowest group that differs, else the shorter length
    BadGroups(usize),
    // fewer places for groups than there are groups; their number
    ShortGroups(usize),
    // wanted frames or groups are absent; 0
    Absent(usize),
    // fewer output slots than rows; their number
    ShortOutput(usize),
    // a wanted frame is absent; the next row
    NoFrame(usize),
    // the run is closed, and no row is left; its total
    NoRowLeft(usize),
    // the window begins above the keep mark; the mark
    BeginsLate(usize),
    // the run is closed, and the window ends above its total; the total
    PastTotal(usize),
    // a frame that may not come next; the next row
    BadFrame(usize),
    // the row is not settled; the next row
    TooEarly(usize),
    // the run is not set to frames that begin at 0; the next row
    NotFromZero(usize),
    // a total that may not close the run; the next row
    BadTotal(usize),
    // rows are unanswered; the next row
    Unanswered(usize),
}

impl Fault {
    // The number of the check.
    pub fn number(&self) -> usize
        ensures { result ≡ number self.now }
    {
        match self {
            Fault::NotInteger(_) => 1,
            Fault::TooLarge(_) => 2,
            Fault::MissingArgument(_) => 3,
            Fault::TooSmall(_) => 4,
            Fault::Lengths(_) => 5,
            Fault::RowLimit(_) => 6,
            Fault::BadFrames(_) => 7,
            Fault::BadGroups(_) => 8,
            Fault::ShortGroups(_) => 9,
            Fault::Absent(_) => 10,
            Fault::ShortOutput(_) => 11,
            Fault::NoFrame(_) => 12,
            Fault::NoRowLeft(_) => 13,
            Fault::BeginsLate(_) => 14,
            Fault::PastTotal(_) => 15,
            Fault::BadFrame(_) => 16,
            Fault::TooEarly(_) => 17,
            Fault::NotFromZero(_) => 18,
            Fault::BadTotal(_) => 19,
            Fault::Unanswered(_) => 20,
        }
    }

    // Where the fault lies.
    pub fn place(&self) -> usize
        ensures { result ≡ place self.now }
    {
        match self {
            Fault::NotInteger(n)
            | Fault::TooLarge(n)
            | Fault::MissingArgument(n)
            | Fault::TooSmall(n)
            | Fault::Lengths(n)
            | Fault::RowLimit(n)
            | Fault::BadFrames(n)
            | Fault::BadGroups(n)
            | Fault::ShortGroups(n)
            | Fault::Absent(n)
            | Fault::ShortOutput(n)
            | Fault::NoFrame(n)
            | Fault::NoRowLeft(n)
            | Fault::BeginsLate(n)
            | Fault::PastTotal(n)
            | Fault::BadFrame(n)
            | Fault::TooEarly(n)
            | Fault::NotFromZero(n)
            | Fault::BadTotal(n)
            | Fault::Unanswered(n) => *n,
        }
    }
}
