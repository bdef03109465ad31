// How many lines are told, by their first words.
ghost use Rattle.std.specs.Prelude.{◌≡◌, ◌≢◌, ℕ, ◌++◌, ◌+◌, ◌<◌, ◌^◌, [], cond, take, drop, length, OnOk};
ghost use Rattle.std.specs.List.{position_or_len};
ghost use Rattle.pr_outside.specs.pr_words.Lines.{is_feed, lines_of};
ghost use Rattle.pr_exercise.specs.Summary.{begins_with, number_line, tells_fault};
ghost use Rattle.pr_exercise.specs.private.Tallies.{HasRoom, counted, counted_all, no_lines, summary_by};

use itoa::Buffer;
use pr_outside::words_crate::{line_len, split_first};
use std::alloc::AllocError;

fn begins_with(word: &[u8], line: &[u8]) -> bool
    ensures { result ≡ begins_with word.now line.now }
{
    let (first, _) = split_first(line);
    first == word
}

// Whether a line tells the fault of a rule.
fn tells_fault(line: &[u8]) -> bool
    ensures { result ≡ tells_fault line.now }
{
    let (word, rest) = split_first(line);
    let (_, rest) = split_first(rest);
    let (outcome, _) = split_first(rest);
    word == b"rule".as_slice() && outcome == b"fault".as_slice()
}

// One more, where it is one of those that are counted.
fn more_if(is_one: bool, count: u128) -> u128
    requires { count + 1 < 2 ^ 128 }
    ensures { result ≡ count + cond is_one 1 0 }
{
    if is_one { count + 1 } else { count }
}

// The first line of a text that has one, and what stands behind it.
fn split_line(text: &[u8]) -> (&[u8], &[u8])
    ensures line { result.0.now ≡ take (position_or_len is_feed text.now) text.now }
    ensures behind { result.1.now ≡ drop 1 (drop (position_or_len is_feed text.now) text.now) }
    ensures shorter { text.now ≢ [] → length result.1.now < length text.now }
{
    let (line, rest) = text.split_at(line_len(text));
    match rest {
        [] => (line, rest),
        [_, behind @ ..] => (line, behind),
    }
}

/// How many lines there are, and how many of them tell of samples, of markers, of what is sent, and of
/// rules that have a fault. An exercise has fewer than 2^128 lines, since it has fewer than 2^20 events,
/// and the text of each is shorter than 2^63 bytes.
#[derive(Clone, Copy)]
pub(crate) struct Tally {
    lines: u128,
    samples: u128,
    stales: u128,
    sends: u128,
    faults: u128,
}

impl Tally {
    /// No line yet.
    pub(crate) fn new() -> Tally
        ensures { result ≡ no_lines }
    {
        Tally {
            lines: 0,
            samples: 0,
            stales: 0,
            sends: 0,
            faults: 0,
        }
    }

    // One more line.
    fn count_line(self, line: &[u8]) -> Tally
        requires { HasRoom 1 self }
        ensures { result ≡ counted self line.now }
    {
        Tally {
            lines: more_if(true, self.lines),
            samples: more_if(begins_with(b"sample", line), self.samples),
            stales: more_if(begins_with(b"stale", line), self.stales),
            sends: more_if(begins_with(b"send", line), self.sends),
            faults: more_if(tells_fault(line), self.faults),
        }
    }

    /// The lines of one more text.
    pub(crate) fn count_lines(self, text: &[u8]) -> Tally
        requires { HasRoom (length text.now) self }
        ensures counted { result ≡ counted_all self (lines_of text.now) }
        ensures room { (more : ℕ) → HasRoom (more + length text.now) self → HasRoom more result }
    {
        let mut tally = self;
        let mut rest = text;
        'counting: while !rest.is_empty() {
            let (line, after) = split_line(rest);
            tally = tally.count_line(line);
            rest = after;
        }
        tally
    }

    /// Appends what is written of so many rounds.
    pub(crate) fn push_summary(&self, text: &mut Vec<u8>, rounds: u32) -> Result<(), AllocError>
        ensures { OnOk result (text.new.items ≡ text.old.items ++ summary_by rounds self.now) }
    {
        push_number_line(text, b"exercise", u128::from(rounds))?;
        push_number_line(text, b"lines", self.lines)?;
        push_number_line(text, b"samples", self.samples)?;
        push_number_line(text, b"stales", self.stales)?;
        push_number_line(text, b"sends", self.sends)?;
        push_number_line(text, b"faults", self.faults)
    }
}

fn push_number_line(text: &mut Vec<u8>, word: &[u8], number: u128) -> Result<(), AllocError>
    ensures { OnOk result (text.new.items ≡ text.old.items ++ number_line word.now number) }
{
    let mut buffer = Buffer::new();
    text.extend_from_slice(word)?;
    text.extend_from_slice(b" ")?;
    text.extend_from_slice(buffer.format(number).as_bytes())?;
    text.extend_from_slice(b"\n")
}
