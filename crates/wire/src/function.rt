// The function of a call, as C describes it.
ghost use Rattle.std.specs.Prelude.{◌≡◌, ◌==◌};
ghost use Rattle.wire.specs.Stops.{gives, stopped};
ghost use Rattle.wire.specs.Functions.{function_flaw, argument_of, shift_of, plain, mirror_of, choosing, ranking_of, fractional_of};
ghost use Rattle.wire.specs.declared.stop.Stop.TheVariants as stop;

use crate::stop::Stop;
use column::fault::Fault;
use column::kind::Kind;
use evaluator::mirror::MirrorEvaluator;
use evaluator::utils::Argument;
use lead_lag::WindowShift;
use lead_lag::offset::WindowShiftKind;
use nth_value::NthValue;
use rank::rank::RankType;

// A window function with its arguments; the marks are 0 or 1.
#[repr(C)]
#[derive(Clone, Copy)]
pub struct Function {
    // 0 LAG, 1 LEAD, 2 FIRST_VALUE, 3 LAST_VALUE, 4 NTH_VALUE, 5 RANK, 6 DENSE_RANK, 7 ROW_NUMBER, 8 PERCENT_RANK, 9 CUME_DIST
    pub name: u8,
    // a mark: whether its mirror is asked
    pub mirrored: u8,
    pub reversed: u8,
    pub ignore_nulls: u8,
    // 0 missing, 1 NULL, 2 signed, 3 unsigned, 4 no integer
    pub argument: u8,
    pub has_default: u8,
    // of a run: whether its frames all begin at 0, and whether it is to be finished after its calls
    pub from_zero: u8,
    pub finish: u8,
    // the argument
    pub signed: i64,
    pub unsigned: u64,
}

// The functions whose answers are of one type: the first and last name, and whether they have mirrors.
#[derive(Clone, Copy)]
pub(crate) struct Family {
    pub(crate) first: u8,
    pub(crate) last: u8,
    pub(crate) mirrors: u8,
}

pub(crate) const CELLS: Family = Family {
    first: 0,
    last: 4,
    mirrors: 1,
};

pub(crate) const NUMBERS: Family = Family {
    first: 5,
    last: 7,
    mirrors: 0,
};

pub(crate) const FRACTIONS: Family = Family {
    first: 8,
    last: 9,
    mirrors: 0,
};

// The evaluator of such a function.
#[derive(Drop)]
pub enum Chosen<K> {
    Shift(WindowShift<K>),
    Nth(NthValue<K>),
}

// The functions whose answers are numbers.
#[derive(Clone, Copy)]
pub enum Ranking {
    Rank(RankType),
    RowNumber,
}

// The functions whose answers are fractions.
#[derive(Clone, Copy)]
pub enum Fractional {
    PercentRank,
    CumeDist,
}

impl Function {
    // The first field that stands for nothing in a family.
    fn flaw(&self, family: Family) -> Option<usize>
        ensures { result ≡ function_flaw family self.now }
    {
        let flaws = [
            self.name < family.first || self.name > family.last,
            self.mirrored > family.mirrors,
            self.reversed > 1,
            self.ignore_nulls > 1,
            self.argument > 4,
            self.has_default > 1,
            self.from_zero > 1,
            self.finish > 1,
        ];
        flaws.iter().position(|flaw| *flaw)
    }

    pub(crate) fn check(&self, family: Family) -> Result<(), Stop>
        ensures { result ≡ gives tt (stopped stop.Function (function_flaw family self.now)) }
    {
        self.flaw(family)
            .map_or(Ok(()), |field| Err(Stop::Function(field)))
    }

    // Whether the frames of its run all begin at 0.
    pub(crate) fn is_from_zero(&self) -> bool
        ensures { result ≡ (self.now.from_zero == 1) }
    {
        self.from_zero == 1
    }

    fn argument(&self) -> Argument
        ensures { result ≡ argument_of self.now }
    {
        match self.argument {
            0 => Argument::Missing,
            1 => Argument::Null,
            2 => Argument::Signed(self.signed),
            3 => Argument::Unsigned(self.unsigned),
            _ => Argument::NotInteger,
        }
    }

    fn shift<K: Kind>(&self, kind: WindowShiftKind, default: K) -> Result<Chosen<K>, Fault>
        ensures { result ≡ shift_of kind self.now default }
    {
        let default = (self.has_default == 1).then_some(default);
        let shift = WindowShift::new(
            kind,
            self.argument(),
            self.reversed == 1,
            self.ignore_nulls == 1,
            default,
        )?;
        Ok(Chosen::Shift(shift))
    }

    // The evaluator of a description without a flaw.
    fn plain<K: Kind>(&self, default: K) -> Result<Chosen<K>, Fault>
        ensures { result ≡ plain self.now default }
    {
        let ignoring = self.ignore_nulls == 1;
        match self.name {
            0 => self.shift(WindowShiftKind::Lag, default),
            1 => self.shift(WindowShiftKind::Lead, default),
            2 => Ok(Chosen::Nth(NthValue::first(ignoring))),
            3 => Ok(Chosen::Nth(NthValue::last(ignoring))),
            _ => Ok(Chosen::Nth(NthValue::nth(self.argument(), ignoring)?)),
        }
    }

    // The function of numbers of a description without a flaw.
    pub(crate) fn ranking(&self) -> Ranking
        ensures { result ≡ ranking_of self.now }
    {
        match self.name {
            5 => Ranking::Rank(RankType::Basic),
            6 => Ranking::Rank(RankType::Dense),
            _ => Ranking::RowNumber,
        }
    }

    // The function of fractions of a description without a flaw.
    pub(crate) fn fractional(&self) -> Fractional
        ensures { result ≡ fractional_of self.now }
    {
        match self.name {
            8 => Fractional::PercentRank,
            _ => Fractional::CumeDist,
        }
    }

    // The same, or its mirror.
    pub(crate) fn choose<K: Kind>(&self, default: K) -> Result<Chosen<K>, Fault>
        ensures { result ≡ choosing self.now default }
    {
        let chosen = self.plain(default)?;
        Ok(if self.mirrored == 1 {
            chosen.mirror()
        } else {
            chosen
        })
    }
}

impl<K: Kind> Chosen<K> {
    fn mirror(&self) -> Chosen<K>
        ensures { result ≡ mirror_of self.now }
    {
        match self {
            Chosen::Shift(shift) => Chosen::Shift(shift.mirror()),
            Chosen::Nth(nth) => Chosen::Nth(nth.mirror()),
        }
    }
}
