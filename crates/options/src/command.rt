use crate::asked::Asked;
use crate::function::Function;

// Rows of a partition by number, from the first to the last that is wanted.
#[derive(Clone, Copy)]
pub struct Rows {
    pub from: usize,
    pub to: usize,
}

// A picture that is asked for: of the partition with these contents, the first record's where none are named, and of these rows of it, all where none are.
#[derive(Drop)]
pub struct Drawing<'a> {
    pub asked: Asked<'a>,
    pub partition: Vec<&'a str>,
    pub rows: Option<Rows>,
}

// What a help text is about.
#[derive(Clone, Copy)]
pub enum Topic {
    Program,
    Function(Function),
}

// What the words of a call ask for.
#[derive(Drop)]
pub enum Command<'a> {
    Answer(Asked<'a>),
    Picture(Drawing<'a>),
    Replay { file: Option<&'a str> },
    Report { file: Option<&'a str> },
    Explain { number: usize },
    Help(Topic),
}
