#![tactic(auto)]

// The desk's program: `window FUNCTION [OPTIONS] [FILE]` writes the table of FILE, or of standard input, with the answers as its last column.
use desk::answer::{Answered, answer};
use desk::drawn::picture;
use desk::message::message;
use desk::undrawn::picture_message;
use help::refusals::explanation;
use help::topics::text as help_text;
use options::asked::Asked;
use options::command::{Command, Drawing};
use options::parse::parse;
use replayed::script::replayed;
use sessions::report::report;
use std::io::{IsTerminal, Write};
use std::process::ExitCode;
use std::{env, fs, io};

const INPUT: &str = "-";

fn text_of(rt: &HostRuntime, file: Option<&str>) -> io::Result<String> {
    match file {
        Some(file) => fs::read_to_string(rt, file),
        None => io::read_to_string(rt.alloc(), rt.stdin()),
    }
}

// The text of a file, or of standard input; what it cannot be read for is told.
fn read_file(rt: &HostRuntime, file: Option<&str>) -> io::Result<Option<String>> {
    match text_of(rt, file) {
        Ok(text) => Ok(Some(text)),
        Err(e) => {
            let name = file.unwrap_or(INPUT);
            eprintln!(rt; "{name}: {e}")?;
            Ok(None)
        }
    }
}

// From how many lines on a file is long enough for its user to be told what is done.
const LONG: usize = 2_000_000;

// A line for a user at a terminal who waits for a long file.
fn tell_progress(rt: &HostRuntime, asked: &Asked<'_>, lines: usize, done: &str) -> io::Result<()> {
    if asked.quiet || lines < LONG || !rt.stderr().is_terminal() {
        return Ok(());
    }
    eprintln!(rt; "window: {lines} lines {done}")
}

fn write_answers(rt: &HostRuntime, quiet: bool, answered: &Answered) -> io::Result<()> {
    io::writer(rt).write_all(answered.text.as_slice())?;
    match answered.told {
        Some(told) if !quiet => {
            let held = told.held;
            let early = told.early;
            eprintln!(rt;
                "by rows: as the whole partitions; at most {held} rows held, {early} requests too early"
            )
        }
        _ => Ok(()),
    }
}

// Each `match` prints what failed beside the name: for a `?` one error would have to own both texts, where a refusal lends from its input.
fn run_answer(rt: &HostRuntime, asked: &Asked<'_>) -> io::Result<ExitCode> {
    let file = asked.file.filter(|file| *file != INPUT);
    let Some(text) = read_file(rt, file)? else {
        return Ok(ExitCode::FAILURE);
    };
    let heap = rt.alloc();
    let bytes = text.as_str().as_bytes();
    let lines = bytes.iter().filter(|byte| **byte == b'\n').count();
    tell_progress(rt, asked, lines, "read")?;
    match answer(heap, bytes, asked) {
        Ok(answered) => {
            tell_progress(rt, asked, lines, "answered")?;
            write_answers(rt, asked.quiet, &answered)?;
            Ok(ExitCode::SUCCESS)
        }
        Err(refusal) => {
            let told = message(heap, file.unwrap_or(INPUT), bytes, &refusal)?;
            eprintln!(rt; "{told}")?;
            Ok(ExitCode::FAILURE)
        }
    }
}

// A partition, drawn.
fn run_picture(rt: &HostRuntime, wanted: &Drawing<'_>) -> io::Result<ExitCode> {
    let file = wanted.asked.file.filter(|file| *file != INPUT);
    let Some(text) = read_file(rt, file)? else {
        return Ok(ExitCode::FAILURE);
    };
    let heap = rt.alloc();
    let bytes = text.as_str().as_bytes();
    match picture(heap, bytes, wanted) {
        Ok(drawn) => {
            print!(rt; "{drawn}")?;
            Ok(ExitCode::SUCCESS)
        }
        Err(refusal) => {
            let told = picture_message(heap, file.unwrap_or(INPUT), bytes, &refusal)?;
            eprintln!(rt; "{told}")?;
            Ok(ExitCode::FAILURE)
        }
    }
}

// The sessions' report.
fn run_report(rt: &HostRuntime, file: Option<&str>) -> io::Result<ExitCode> {
    let file = file.filter(|file| *file != INPUT);
    let Some(text) = read_file(rt, file)? else {
        return Ok(ExitCode::FAILURE);
    };
    match report(rt.alloc(), text.as_str()) {
        Ok(written) => {
            print!(rt; "{written}")?;
            Ok(ExitCode::SUCCESS)
        }
        Err(refusal) => {
            let name = file.unwrap_or(INPUT);
            eprintln!(rt; "{name}:{refusal}")?;
            Ok(ExitCode::FAILURE)
        }
    }
}

// A list of calls, each with how it ended.
fn run_replay(rt: &HostRuntime, file: Option<&str>) -> io::Result<ExitCode> {
    let file = file.filter(|file| *file != INPUT);
    let Some(text) = read_file(rt, file)? else {
        return Ok(ExitCode::FAILURE);
    };
    match replayed(rt.alloc(), text.as_str()) {
        Ok(told) => {
            print!(rt; "{told}")?;
            Ok(ExitCode::SUCCESS)
        }
        Err(wrong) => {
            let name = file.unwrap_or(INPUT);
            eprintln!(rt; "{name}:{wrong}")?;
            Ok(ExitCode::FAILURE)
        }
    }
}

fn run(rt: &HostRuntime, words: &[&str]) -> io::Result<ExitCode> {
    match parse(rt.alloc(), words) {
        Ok(Command::Answer(asked)) => run_answer(rt, &asked),
        Ok(Command::Report { file }) => run_report(rt, file),
        Ok(Command::Explain { number }) => {
            let told = explanation(number).unwrap_or("");
            print!(rt; "{told}")?;
            Ok(ExitCode::SUCCESS)
        }
        Ok(Command::Help(topic)) => {
            let told = help_text(topic);
            print!(rt; "{told}")?;
            Ok(ExitCode::SUCCESS)
        }
        Ok(Command::Replay { file }) => run_replay(rt, file),
        Ok(Command::Picture(drawing)) => run_picture(rt, &drawing),
        Err(misuse) => {
            eprintln!(rt; "window: {misuse}")?;
            Ok(ExitCode::FAILURE)
        }
    }
}

fn main(rt: HostRuntime) -> io::Result<ExitCode> {
    let args = env::args(&rt)?.skip(1).collect::<Vec<String>>(rt.alloc())?;
    let words = args
        .iter()
        .map(|word| word.as_str())
        .collect::<Vec<&str>>(rt.alloc())?;
    run(&rt, words.as_slice())
}
