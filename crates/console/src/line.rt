//! The lines of a recording in text.
ghost use Rattle.std.specs.Prelude.{codes};
ghost use Rattle.std.specs.Str.{IsUtf8};
ghost use Rattle.std.specs.Str.Iter.{split_whitespace_rest};
ghost use Rattle.console.specs.Line.{IsOther, LineAnswer, NextNumber, NextWord, NoWordLeft, RestAnswer};

use std::error::Error;
use std::fmt;
use std::num::ParseIntError;
use std::str::SplitWhitespace;
use words::Call;

/// A line that says nothing that is understood.
#[derive(Clone, Copy, PartialEq, Eq, Debug)]
pub struct Unreadable;

impl fmt::Display for Unreadable {
    fn fmt<W: fmt::Write>(&self, f: &mut fmt::Formatter<W>) -> fmt::Result {
        f.write_str("cannot be read")
    }
}

impl Error for Unreadable {}

impl From<ParseIntError> for Unreadable {
    fn from(_error: ParseIntError) -> Unreadable {
        Unreadable
    }
}

/// What a line says: `stations 3`, `0 w 5 7` or `0 r 5 7`; none if it is empty or begins with `#`.
// A word is taken only where the ones before it leave the answer open: past the last word each call of `next` goes over all that is left.
pub fn parse(text: &str) -> Result<Option<Call<'static>>, Unreadable>
    ensures { LineAnswer text.now result }
{
    let mut words = text.split_whitespace();
    match next(&mut words) {
        "" => Ok(None),
        first if first.starts_with('#') => Ok(None),
        "stations" => start(&mut words),
        first => operation(first, &mut words),
    }
}

// The next word of a line, empty if there is none.
fn next<'a>(words: &mut SplitWhitespace<'a>) -> &'a str
    ensures { NextWord words.old result.now words.new }
{
    words.next().unwrap_or("")
}

// The number that the next word writes.
fn number(words: &mut SplitWhitespace<'_>) -> Result<u32, Unreadable>
    ensures { NextNumber words.old result words.new }
{
    Ok(next(words).parse()?)
}

// The call, if no word is left.
fn ended(
    call: Call<'static>,
    words: &mut SplitWhitespace<'_>,
) -> Result<Option<Call<'static>>, Unreadable>
    ensures { NoWordLeft words.old call.entry result words.new }
{
    match next(words) {
        "" => Ok(Some(call)),
        _ => Err(Unreadable),
    }
}

// What a line says that begins with `stations`.
fn start(words: &mut SplitWhitespace<'_>) -> Result<Option<Call<'static>>, Unreadable>
    requires { IsUtf8 (split_whitespace_rest words.old) }
    ensures { RestAnswer (codes "stations") words.old result }
{
    let stations = number(words)?;
    ended(Call::Start(stations), words)
}

// What a line says that begins with another word.
fn operation(
    first: &str,
    words: &mut SplitWhitespace<'_>,
) -> Result<Option<Call<'static>>, Unreadable>
    requires first { IsOther first.now }
    requires utf8 { IsUtf8 (split_whitespace_rest words.old) }
    ensures { RestAnswer first.now words.old result }
{
    let station = first.parse()?;
    let call = match next(words) {
        "w" => Call::Write {
            station,
            register: number(words)?,
            value: number(words)?,
        },
        "r" => Call::Read {
            station,
            register: number(words)?,
            value: number(words)?,
        },
        _ => return Err(Unreadable),
    };
    ended(call, words)
}
