ghost use Rattle.std.specs.Prelude.{length, MatchOption, MatchResult};
ghost use Rattle.sessions.specs.Header.{Absent, First, Column, Header};
ghost use Rattle.sessions.specs.Faults.{NameFault, NamesFault};

use crate::columns::Columns;
use crate::problem::Problem;

pub const SESSION: &str = "session";

pub const INSTANT: &str = "instant";

pub const EXPIRY: &str = "renewed_expiry";

// The first column of a name.
fn first_named(names: &[&str], name: &str) -> Option<usize>
    ensures { MatchOption result (Absent names.now name.now (length names.now)) (First names.now name.now) }
{
    names.iter().position(|other| *other == name)
}

// The one column of a name.
fn find_column<'a>(names: &[&'a str], name: &'static str) -> Result<usize, Problem<'a>>
    ensures { MatchResult result (Column names.now name.now (length names.now)) (NameFault names.now name.now) }
{
    let first = first_named(names, name).ok_or(Problem::NoColumn(name))?;
    if names[first + 1..].contains(&name) {
        return Err(Problem::ColumnTwice(name));
    }
    Ok(first)
}

pub(crate) fn find_columns<'a>(names: &[&'a str]) -> Result<Columns, Problem<'a>>
    ensures { MatchResult result (Header names.now) (NamesFault names.now) }
{
    let session = find_column(names, SESSION)?;
    let instant = find_column(names, INSTANT)?;
    let expiry = find_column(names, EXPIRY)?;
    Ok(Columns {
        session,
        instant,
        expiry,
        count: names.len(),
    })
}
