ghost use Rattle.help.specs.Texts.{Calls};

use options::function::Function;

// What a function answers, its options and an example.
pub fn usage(function: Function) -> &'static str
    ensures { Calls function result.now }
{
    match function {
        Function::Lag => {
            "window lag --of COLUMN [options] [FILE]

The value of COLUMN one row before each row of its partition, or as many rows before as --offset says. Where there is no such row the answer is the default.

  --offset N        how many rows before (1); 0 is the row itself, -1 the row behind
  --default V       the answer where there is no such row (empty)
  --ignore-nulls    count only rows whose COLUMN is not empty

Example: the last expiry that was renewed before each record of its session.

  window lag --of renewed_expiry --partition-by session --ignore-nulls sessions.csv

The options that every function takes: window --help.
"
        }
        Function::Lead => {
            "window lead --of COLUMN [options] [FILE]

The value of COLUMN one row behind each row of its partition, or as many rows behind as --offset says. Where there is no such row the answer is the default.

  --offset N        how many rows behind (1); 0 is the row itself, -1 the row before
  --default V       the answer where there is no such row (empty)
  --ignore-nulls    count only rows whose COLUMN is not empty

Example: the next expiry of each session, and 0 where none comes.

  window lead --of renewed_expiry --partition-by session --ignore-nulls --default 0 sessions.csv

The options that every function takes: window --help.
"
        }
        Function::FirstValue => {
            "window first_value --of COLUMN [options] [FILE]

The value of COLUMN in the first row of each row's frame.

  --frame TEXT      the frame, in SQL's words for ROWS (from the partition's first row to the last that is equal to the row by --order-by)
  --ignore-nulls    the first row whose COLUMN is not empty

Example: the first expiry of each session.

  window first_value --of renewed_expiry --partition-by session --ignore-nulls sessions.csv

The options that every function takes, and frames: window --help.
"
        }
        Function::LastValue => {
            "window last_value --of COLUMN [options] [FILE]

The value of COLUMN in the last row of each row's frame.

  --frame TEXT      the frame, in SQL's words for ROWS (from the partition's first row to the last that is equal to the row by --order-by)
  --ignore-nulls    the last row whose COLUMN is not empty

Example: the latest expiry among each record and the two before it.

  window last_value --of renewed_expiry --partition-by session --ignore-nulls --frame 'rows 2 preceding' sessions.csv

The options that every function takes, and frames: window --help.
"
        }
        Function::NthValue => {
            "window nth_value --of COLUMN --n N [options] [FILE]

The value of COLUMN in the N-th row of each row's frame, counted from its start, or from its end where N is negative. Where the frame has too few rows the answer is empty.

  --n N             which row: 2 the second, -1 the last
  --frame TEXT      the frame, in SQL's words for ROWS (from the partition's first row to the last that is equal to the row by --order-by)
  --ignore-nulls    count only rows whose COLUMN is not empty

Example: the second expiry of each session.

  window nth_value --of renewed_expiry --n 2 --partition-by session --ignore-nulls sessions.csv

The options that every function takes, and frames: window --help.
"
        }
        Function::Rank => {
            "window rank --order-by COLUMN [options] [FILE]

The rank of each row in its partition: 1 and the number of rows before the first that equals it by COLUMN. Equal rows have one rank, and the ranks behind them are left out.

Example: the rank of each record of a session by its instant.

  window rank --order-by instant --partition-by session sessions.csv

The options that every function takes: window --help.
"
        }
        Function::DenseRank => {
            "window dense_rank --order-by COLUMN [options] [FILE]

The rank of each row in its partition, with no rank left out behind equal rows.

Example: the number of each instant in its session.

  window dense_rank --order-by instant --partition-by session sessions.csv

The options that every function takes: window --help.
"
        }
        Function::PercentRank => {
            "window percent_rank --order-by COLUMN [options] [FILE]

The rank of each row less 1, divided by the number of rows less 1: from 0 to 1. It wants the whole partition, so it has no --by-rows.

Example:

  window percent_rank --order-by instant --partition-by session sessions.csv

The options that every function takes: window --help.
"
        }
        Function::CumeDist => {
            "window cume_dist --order-by COLUMN [options] [FILE]

The number of rows up to the last that equals the row by COLUMN, divided by the number of rows: above 0, up to 1. It wants the whole partition, so it has no --by-rows.

Example:

  window cume_dist --order-by instant --partition-by session sessions.csv

The options that every function takes: window --help.
"
        }
        Function::RowNumber => {
            "window row_number [options] [FILE]

The number of each row in its partition, from 1.

Example: the number of each record in its session.

  window row_number --partition-by session sessions.csv

The options that every function takes: window --help.
"
        }
    }
}
