ghost use Rattle.help.specs.Texts.{Explains};

use crate::functions::usage;
use options::command::Topic;

// The program's words.
const PROGRAM: &str =
    "window FUNCTION [options] [FILE]     write FILE with the function's answers as a new last column
window picture FUNCTION [options] [FILE]     draw one partition as SVG: where each answer comes from
window replay [FILE]     make a list of calls on a run, and tell how each ended
window report [FILE]     the report of session records
window explain NUMBER    what a refusal means, and what to do
window FUNCTION --help   a function, its options and an example

FILE is a CSV file with a header; without it, or with -, standard input is read.

Functions: lag, lead, first_value, last_value, nth_value, rank, dense_rank, percent_rank, cume_dist, row_number.

Options of every function:
  --partition-by A,B    rows that are alike in these columns are one partition (all rows)
  --order-by A,B        the columns by which rows of a partition are ordered (as they stand in FILE)
  --as NAME             the name of the new column (the function's)
  --by-rows K           answer row by row, as a node does that is shown K rows at a time
  --quiet               write no summary

Options of functions of values:
  --of COLUMN           the column whose values are answered
  --kind KIND           what its values are: instant, pseudonym, code or outcome (instant)
  --ignore-nulls        pass over empty values

Options of pictures:
  --partition A,B       draw the partition with these contents in the columns of --partition-by (the first record's)
  --rows FROM-TO        draw these rows of it (all)

Frames are SQL's, of ROWS: rows between BOUND and BOUND, or rows BOUND, which ends at the current row. BOUND is unbounded preceding, N preceding, current row, N following or unbounded following. Give a frame as one word, in quotes.
";

// The text of a topic.
pub fn text(topic: Topic) -> &'static str
    ensures { Explains topic result.now }
{
    match topic {
        Topic::Program => PROGRAM,
        Topic::Function(function) => usage(function),
    }
}
