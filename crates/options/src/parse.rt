// The command that words stand for.
ghost use Rattle.std.specs.Prelude.{◌≡◌, ◌↔◌, IsTrue, MatchResult};
ghost use Rattle.options.specs.Functions.{function_text};
ghost use Rattle.options.specs.Asking.{AllTaken, Asks, HasColumn, NoColumn, NotAsked, Strays};
ghost use Rattle.options.specs.Commands.{Draws, IsAnswer, IsDrawing, IsHelp, Means, NoCommand, NoName, NotAnswer, NotDrawing, NotDrawn, NotOneFile, NotOneNumber, OneFile, OneNumber, Says, SaysNothing, Unwanted, UnwantedDrawing, Wants, WantsDrawing};

use crate::asked::Asked;
use crate::command::{Command, Drawing, Topic};
use crate::frame_text::count_of;
use crate::function::Function;
use crate::given::{Given, read_given, value_of};
use crate::key::Key;
use crate::misuse::Misuse;
use crate::values::{argument, by_rows, columns, file, flag, frame, kind, named_file, rows};
use std::alloc::Global;

// How many refusals there are.
const REFUSALS: usize = 20;

// Asks that the function takes each option that is given.
fn expect_taken<'a>(function: Function, drawn: bool, given: &[Given<'a>]) -> Result<(), Misuse<'a>>
    ensures { MatchResult result (λ _. AllTaken function drawn given.now) (Strays function drawn given.now) }
{
    for one in given {
        if !function.takes(drawn, one.key) {
            return Err(Misuse::NotTaken {
                function,
                key: one.key,
            });
        }
    }
    Ok(())
}

// Asks for the column whose values are answered, where the function answers values.
fn expect_column<'a>(function: Function, given: &[Given<'a>]) -> Result<(), Misuse<'a>>
    ensures { MatchResult result (λ _. HasColumn function given.now) (NoColumn function given.now) }
{
    match value_of(given, Key::Of) {
        None if function.is_valued() => Err(Misuse::Missing {
            function,
            key: Key::Of,
        }),
        _ => Ok(()),
    }
}

// What is asked of a function by options.
fn asked<'a>(
    heap: Global,
    function: Function,
    drawn: bool,
    given: &[Given<'a>],
) -> Result<Asked<'a>, Misuse<'a>>
    ensures { MatchResult result (Asks function drawn given.now) (NotAsked function drawn given.now) }
{
    expect_taken(function, drawn, given)?;
    expect_column(function, given)?;
    let frame = frame(heap, given)?;
    let kind = kind(given)?;
    let by_rows = by_rows(given)?;
    let partition_by = columns(heap, given, Key::PartitionBy)?;
    let order_by = columns(heap, given, Key::OrderBy)?;
    Ok(Asked {
        function,
        of: value_of(given, Key::Of),
        partition_by,
        order_by,
        offset: argument(given, Key::Offset),
        n: argument(given, Key::N),
        default: value_of(given, Key::Default),
        ignore_nulls: flag(given, Key::IgnoreNulls),
        frame,
        kind,
        as_name: value_of(given, Key::As),
        by_rows,
        quiet: flag(given, Key::Quiet),
        file: file(given),
    })
}

// The one file that words name, or none.
fn one_file<'a>(words: &[&'a str]) -> Result<Option<&'a str>, Misuse<'a>>
    ensures { MatchResult result (OneFile words.now) (NotOneFile words.now) }
{
    if let Some(second) = words.get(1) {
        return Err(Misuse::TooManyWords(second));
    }
    match words.first() {
        None => Ok(None),
        Some(word) if word.starts_with("--") => Err(Misuse::UnknownOption(word)),
        Some(word) => Ok(named_file(word)),
    }
}

// The number of a refusal.
fn refusal<'a>(words: &[&'a str]) -> Result<usize, Misuse<'a>>
    ensures { MatchResult result (OneNumber words.now) (NotOneNumber words.now) }
{
    if let Some(second) = words.get(1) {
        return Err(Misuse::TooManyWords(second));
    }
    let word = words.first().ok_or(Misuse::NoRefusal)?;
    match count_of(word) {
        Some(number) if (1..=REFUSALS).contains(&number) => Ok(number),
        _ => Err(Misuse::UnknownRefusal(word)),
    }
}

// The function that a word names.
fn function<'a>(word: &'a str) -> Result<Function, Misuse<'a>>
    ensures { MatchResult result (λ f. word.now ≡ function_text f) (NoName word.entry) }
{
    word.parse().map_err(|_| Misuse::UnknownFunction(word))
}

// Whether words are `--help` alone.
fn is_help(words: &[&str]) -> bool
    ensures { IsTrue result ↔ IsHelp words.now }
{
    words.len() == 1 && words[0] == "--help"
}

// What words ask of a function.
fn wanted<'a>(heap: Global, function: Function, words: &[&'a str]) -> Result<Asked<'a>, Misuse<'a>>
    ensures { MatchResult result (Wants function words.now) (Unwanted function words.now) }
{
    let given = read_given(heap, words)?;
    let asked = asked(heap, function, false, given.as_slice())?;
    Ok(asked)
}

// A function with its options, answered.
fn answer<'a>(heap: Global, name: &'a str, words: &[&'a str]) -> Result<Command<'a>, Misuse<'a>>
    ensures { MatchResult result (IsAnswer name.now words.now) (NotAnswer name.entry words.now) }
{
    let function = function(name)?;
    if is_help(words) {
        return Ok(Command::Help(Topic::Function(function)));
    }
    let asked = wanted(heap, function, words)?;
    Ok(Command::Answer(asked))
}

// A picture that options ask for.
fn drawn<'a>(
    heap: Global,
    function: Function,
    given: &[Given<'a>],
) -> Result<Drawing<'a>, Misuse<'a>>
    ensures { MatchResult result (Draws function given.now) (NotDrawn function given.now) }
{
    let asked = asked(heap, function, true, given)?;
    let rows = rows(given)?;
    let partition = columns(heap, given, Key::Partition)?;
    Ok(Drawing {
        asked,
        partition,
        rows,
    })
}

// A picture that words ask for.
fn wanted_drawing<'a>(
    heap: Global,
    function: Function,
    words: &[&'a str],
) -> Result<Drawing<'a>, Misuse<'a>>
    ensures { MatchResult result (WantsDrawing function words.now) (UnwantedDrawing function words.now) }
{
    let given = read_given(heap, words)?;
    let drawing = drawn(heap, function, given.as_slice())?;
    Ok(drawing)
}

// A function with its options, drawn.
fn drawing<'a>(heap: Global, words: &[&'a str]) -> Result<Drawing<'a>, Misuse<'a>>
    ensures { MatchResult result (IsDrawing words.now) (NotDrawing words.now) }
{
    let (name, options) = words.split_first().ok_or(Misuse::NoFunction)?;
    let function = function(name)?;
    let drawing = wanted_drawing(heap, function, options)?;
    Ok(drawing)
}

// The command of a word and those behind it.
fn command<'a>(heap: Global, name: &'a str, words: &[&'a str]) -> Result<Command<'a>, Misuse<'a>>
    ensures { MatchResult result (Says name.now words.now) (SaysNothing name.entry words.now) }
{
    match name {
        "report" => {
            let file = one_file(words)?;
            Ok(Command::Report { file })
        }
        "replay" => {
            let file = one_file(words)?;
            Ok(Command::Replay { file })
        }
        "explain" => {
            let number = refusal(words)?;
            Ok(Command::Explain { number })
        }
        "picture" => {
            let drawing = drawing(heap, words)?;
            Ok(Command::Picture(drawing))
        }
        _ => {
            let answer = answer(heap, name, words)?;
            Ok(answer)
        }
    }
}

// The command of a program's words.
pub fn parse<'a>(heap: Global, words: &[&'a str]) -> Result<Command<'a>, Misuse<'a>>
    ensures { MatchResult result (Means words.now) (NoCommand words.now) }
{
    if is_help(words) {
        return Ok(Command::Help(Topic::Program));
    }
    let (name, others) = words.split_first().ok_or(Misuse::NoFunction)?;
    let command = command(heap, name, others)?;
    Ok(command)
}
