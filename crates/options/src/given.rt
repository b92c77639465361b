// The options that words give, each with its value.
ghost use Rattle.std.specs.Prelude.{◌≡◌, ◌<◌, MatchOption, MatchResult, length};
ghost use Rattle.options.specs.Given.{Absent, At, Gives, OneFault, Reads, Repeats, Ungiven, ValueIs, width};

use crate::key::Key;
use crate::misuse::Misuse;
use std::alloc::Global;

// An option with the text of its value, which is empty where it has none; of a file the word itself.
#[derive(Clone, Copy)]
pub(crate) struct Given<'a> {
    pub(crate) key: Key,
    pub(crate) text: &'a str,
}

// Where an option stands.
fn place_of(given: &[Given<'_>], key: Key) -> Option<usize>
    ensures { MatchOption result (Absent given.now key) (At given.now key) }
{
    for (k, one) in given.iter().enumerate() {
        if one.key.is(key) {
            return Some(k);
        }
    }
    None
}

// Asks that an option is not there yet.
fn expect_new<'a>(given: &[Given<'_>], key: Key) -> Result<(), Misuse<'a>>
    ensures { MatchResult result (λ _. Absent given.now key) (Repeats given.now key) }
{
    match place_of(given, key) {
        Some(_) => Err(Misuse::Twice(key)),
        None => Ok(()),
    }
}

// The value of an option, if it is given.
pub(crate) fn value_of<'a>(given: &[Given<'a>], key: Key) -> Option<&'a str>
    ensures { MatchOption result (Absent given.now key) (ValueIs given.now key) }
{
    let place = place_of(given, key)?;
    Some(given[place].text)
}

// What word k gives, with the one behind it where the option has a value.
fn read_one<'a>(words: &[&'a str], k: usize) -> Result<Given<'a>, Misuse<'a>>
    requires { k < length words.now }
    ensures { MatchResult result (Reads words.now k) (OneFault words.now k) }
{
    let word = words[k];
    let key: Key = word.parse().map_err(|_| Misuse::UnknownOption(word))?;
    if key.is(Key::File) {
        return Ok(Given { key, text: word });
    }
    if !key.has_value() {
        return Ok(Given { key, text: "" });
    }
    let text = words.get(k + 1).ok_or(Misuse::WithoutValue(key))?;
    Ok(Given { key, text })
}

// How many words give an option.
fn width(one: &Given<'_>) -> usize
    ensures { result ≡ width one.now }
{
    if one.key.has_value() { 2 } else { 1 }
}

// The options that words give, in their order.
pub(crate) fn read_given<'a>(heap: Global, words: &[&'a str]) -> Result<Vec<Given<'a>>, Misuse<'a>>
    ensures { MatchResult result (λ v. Gives words.now v.items) (Ungiven words.now) }
{
    let mut given = Vec::new(heap);
    let mut k = 0;
    while k < words.len() {
        let one = read_one(words, k)?;
        expect_new(given.as_slice(), one.key)?;
        given.push(one)?;
        k += width(&one);
    }
    Ok(given)
}
