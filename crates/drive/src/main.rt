#![tactic(auto)]

// `drive [FILE]` reads lines that stand for calls, from FILE or from standard input, and writes each with its outcome.
mod answer;
mod groups;
mod handed;
mod line;
mod ops;
mod outcome;
mod runs;
mod slots;
mod whole;

use crate::line::answer_line;
use anyhow::anyhow;
use std::{env, fs, io};

// The same stands in `window`: a crate for this function alone would be longer than it.
fn text_of(rt: &HostRuntime, file: Option<&str>) -> io::Result<String> {
    match file {
        Some(file) => fs::read_to_string(rt, file),
        None => io::read_to_string(rt.alloc(), rt.stdin()),
    }
}

fn run(rt: &HostRuntime) -> anyhow::Result<()> {
    let mut args = env::args(rt)?.skip(1);
    let file = args.next();
    if args.next().is_some() {
        return Err(anyhow!("usage: drive [FILE]"));
    }
    let text = text_of(rt, file.as_deref())?;
    for line in text.as_str().lines() {
        let answered = answer_line(rt.alloc(), line).map_err(|_| anyhow!("not enough memory"))?;
        println!(rt; "{answered}")?;
    }
    Ok(())
}

fn main(rt: HostRuntime) -> anyhow::Result<()> {
    run(&rt)
}
