ghost use Rattle.std.specs.Prelude.{◌↔◌, ◌≤◌, IfSome, IsSome};
ghost use Rattle.help.specs.Texts.{Numbered};

// What the refusal of a number means, and what to do; refusals have the numbers 1 to 20.
pub fn explanation(number: usize) -> Option<&'static str>
    ensures numbers { IsSome result ↔ ((1 ≤ number) × (number ≤ 20)) }
    ensures begins { IfSome result (λ text. Numbered number text.now) }
{
    match number {
        1 => Some(
            "1: the argument of the function is no integer.\nGive --offset or --n a whole number such as 2 or -1, or leave --offset out to look one row away.\n",
        ),
        2 => Some(
            "2: the argument of the function is too large.\nIt has to be at most 9223372036854775807. Check --offset or --n for digits too many.\n",
        ),
        3 => Some(
            "3: nth_value has no argument.\nSay which row of the frame is wanted: --n 2 for the second, --n -1 for the last.\n",
        ),
        4 => Some(
            "4: the argument of nth_value is -9223372036854775808.\nThat number cannot be counted from the end. Give a smaller count to --n.\n",
        ),
        5 => Some(
            "5: the values of a column and their NULL marks differ in number.\nThe program never hands over such a column. In a call of the library, or in a file to replay, give each row one value and one mark.\n",
        ),
        6 => Some(
            "6: there are too many rows.\nA partition has at most 16777216 rows. Split the file with --partition-by, or leave out rows that no answer needs.\n",
        ),
        7 => Some(
            "7: the frames do not fit the rows.\nThere has to be one frame for each row, and none may start behind its end or end past the last row. The place is the first row at fault. The program works frames out by itself, so this comes only from a call of the library.\n",
        ),
        8 => Some(
            "8: the peer groups are not those of the column.\nPeer groups are the longest runs of equal rows. The place is the first group that differs. The program works them out by itself, so this comes only from a call of the library.\n",
        ),
        9 => Some(
            "9: the list for the peer groups is too short.\nLend a list with a place for each row, which is always enough.\n",
        ),
        10 => Some(
            "10: the function needs frames or peer groups, and there are none.\nfirst_value, last_value and nth_value need frames; the ranks need peer groups. Hand them over, unless there are no rows.\n",
        ),
        11 => Some("11: the output is too short.\nLend a list with a place for each row.\n"),
        12 => Some(
            "12: a row was asked for without its frame.\nfirst_value, last_value and nth_value need the frame of each row. Add it to the request: request FIRST-END START-END.\n",
        ),
        13 => Some(
            "13: every row is answered.\nThe partition was closed with a number of rows, and each of them has its answer. Do not ask for more; call finish.\n",
        ),
        14 => Some(
            "14: the node let go of a row that is still needed.\nThe rows shown begin above the keep mark, and the answer may lie below. Keep every row from the mark on; the place is the mark.\n",
        ),
        15 => Some(
            "15: more rows are shown than the partition has.\nThe partition was closed with a number of rows, which is the place, and the window ends past it.\n",
        ),
        16 => Some(
            "16: this frame may not come next.\nFrom row to row neither the start nor the end of a frame may fall, and it may not end past the last row. A run that is set to frames that begin at 0 takes no others. The place is the row that was asked for.\n",
        ),
        17 => Some(
            "17: it is too early to answer this row.\nThe rows shown so far do not settle the answer: a later row may change it. Show more rows and ask again, or close the partition if there are no more. The place is the row.\n",
        ),
        18 => Some(
            "18: this run cannot settle.\nSettling needs frames that all begin at row 0, and the run was not set so. Begin it with the word `zero`, or do not settle.\n",
        ),
        19 => Some(
            "19: the partition cannot be closed with this number of rows.\nMore rows are answered, or the last frame ends later, or it is above 16777216. The place is the next row.\n",
        ),
        20 => Some(
            "20: rows are left without an answer.\nA run is finished only when each row of the closed partition is answered. The place is the first that is not: ask for it.\n",
        ),
        _ => None,
    }
}
