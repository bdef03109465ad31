// The lines of a text, and the places in it.
ghost use Rattle.std.specs.Prelude.{◌≡◌, ◌==◌, ◌≤◌, ◌<◌, ◌+◌, ◌^◌, [], ◌∷◌, ◌++◌, length, drop, Some, IfSome, OnOk, IsTrue, MatchOption};
ghost use Rattle.pr_words.specs.Lines.{text_lines};
ghost use Rattle.pr_yaml.specs.Bytes.{is_bare, is_spaces};
ghost use Rattle.pr_yaml.specs.Lines.{Cursor, along, next_line, line_start, end_line, is_alone, is_sign_by, document_sign, is_sign, is_deeper, feeds, folded_break};
ghost use Rattle.pr_yaml.specs.private.Spots.{lines_below, bytes_below, IsBelow};

use crate::yaml_scan::bytes::{blanks_len, is_bare, is_comment, is_spaces};
use pr_words::{first_feed, without_return};
use std::alloc::AllocError;
use std::marker::Model;

/// The signs of a document's start and end.
#[derive(Clone, Copy)]
pub(crate) enum DocumentSign {
    /// `---`
    Begin,
    /// `...`
    End,
}

/// A place in a text.
#[derive(Drop)]
pub(crate) struct Spot<'a> {
    /// The number of the line, from 1.
    pub(crate) line: usize,
    /// The column, in bytes from 0.
    pub(crate) column: usize,
    /// What stands on the line from the place on.
    pub(crate) here: &'a [u8],
    /// The bytes of the lines below it, where there are any.
    below: Option<&'a [u8]>,
}

impl<'a> Model for Spot<'a> {
    ghost use Rattle.pr_yaml.specs.Lines.{Cursor};
    ghost use Rattle.pr_yaml.specs.private.Spots.{place_of, IsPlace};

    ghost Value = { Cursor };

    ghost view = { λ s. place_of s.line s.column s.here s.below };

    ghost invariant = { λ s. IsPlace s.line s.column s.here s.below };
}

/// The first line of a text, and the bytes below it, where a line's end stands.
fn split_line(text: &[u8]) -> (&[u8], Option<&[u8]>)
    ensures lines { text_lines text.now ≡ result.0.now ∷ lines_below result.1 }
    ensures within { length result.0.now + bytes_below result.1 ≤ length text.now }
{
    match first_feed(text) {
        Some(at) => (without_return(&text[..at]), Some(&text[at + 1..])),
        None => (text, None),
    }
}

impl<'a> Spot<'a> {
    /// The first place of a text.
    pub(crate) fn first(text: &'a [u8]) -> Spot<'a>
        requires { length text.now < 2 ^ 32 }
        ensures { result ≡ line_start 1 (text_lines text.now) }
    {
        let (here, below) = split_line(text);
        Spot {
            line: 1,
            column: 0,
            here,
            below,
        }
    }

    /// The same place.
    pub(crate) fn copy(&self) -> Spot<'a>
        ensures { result ≡ self.now }
    {
        Spot {
            line: self.line,
            column: self.column,
            here: self.here,
            below: self.below,
        }
    }

    /// So many bytes further on the line.
    pub(crate) fn along(&self, n: usize) -> Spot<'a>
        requires { n ≤ length self.now.here }
        ensures { result ≡ along n self.now }
    {
        Spot {
            line: self.line,
            column: self.column + n,
            here: &self.here[n..],
            below: self.below,
        }
    }

    /// The start of the line below, where there is one.
    pub(crate) fn line_below(&self) -> Option<Spot<'a>>
        ensures next { MatchOption result (self.now.below ≡ []) (IsBelow self.now) }
        ensures small { IfSome result (λ q. q.line ≤ 2 ^ 32) }
    {
        match self.below {
            Some(text) => {
                let (here, below) = split_line(text);
                Some(Spot {
                    line: self.line + 1,
                    column: 0,
                    here,
                    below,
                })
            }
            None => None,
        }
    }

    /// The number of the line, where a byte stands at the place.
    pub(crate) fn line_number(&self) -> u32
        requires { 1 ≤ length self.now.here }
        ensures { result ≡ self.now.line }
    {
        self.line as u32
    }

    /// The column.
    pub(crate) fn column_number(&self) -> u32
        ensures { result ≡ self.now.column }
    {
        self.column as u32
    }

    /// The line of the text's last byte, which is on this one or, where this one is empty, on the
    /// one above.
    #[tactic(auto, unfolding(crate::specs::Lines::end_line))]
    pub(crate) fn last_byte_line(&self) -> u32
        ensures { result ≡ end_line self.now.line self.now.here [] }
    {
        if self.here.is_empty() {
            (self.line - self.line.min(1)) as u32
        } else {
            self.line as u32
        }
    }

    /// Whether no byte but blanks stands on the line from the place on.
    pub(crate) fn is_bare(&self) -> bool
        ensures { result ≡ is_bare self.now.here }
    {
        is_bare(self.here)
    }

    /// Whether no byte but spaces stands on the line from the place on.
    pub(crate) fn is_spaces(&self) -> bool
        ensures { result ≡ is_spaces self.now.here }
    {
        is_spaces(self.here)
    }

    /// Whether no line stands below.
    pub(crate) fn is_last(&self) -> bool
        ensures { result ≡ (length self.now.below == 0) }
    {
        match self.line_below() {
            Some(_) => false,
            None => true,
        }
    }

    /// The end of the text.
    pub(crate) fn end(&self) -> Spot<'a>
        ensures { result ≡ line_start 0 [] }
    {
        Spot {
            line: 1,
            column: 0,
            here: &self.here[..0],
            below: None,
        }
    }

    /// The start of the line below, or the end of the text.
    pub(crate) fn next_line(&self) -> Spot<'a>
        ensures { result ≡ next_line self.now }
    {
        match self.line_below() {
            Some(next) => next,
            None => self.end(),
        }
    }
}

#[tactic(auto, unfolding(crate::specs::Lines::is_sign_by))]
fn is_sign_by(byte: u8, line: &[u8]) -> bool
    ensures value { result ≡ is_sign_by byte line.now }
    ensures some { IsTrue result → 1 ≤ length line.now }
{
    line.len() >= 3 && line[0] == byte && line[1] == byte && line[2] == byte && is_alone(&line[3..])
}

/// Whether only blanks stand there, and a comment after a blank.
#[tactic(auto, unfolding(crate::specs::Lines::is_alone))]
fn is_alone(rest: &[u8]) -> bool
    ensures { result ≡ is_alone rest.now }
{
    let blanks = blanks_len(rest);
    is_bare(rest) || (blanks > 0 && is_comment(&rest[blanks..]))
}

/// The document's sign that a line is.
#[tactic(auto, unfolding(crate::specs::Lines::document_sign))]
pub(crate) fn document_sign(line: &[u8]) -> Option<DocumentSign>
    ensures value { result ≡ document_sign line.now }
    ensures some { IfSome result (λ _. 1 ≤ length line.now) }
{
    if is_sign_by(b'-', line) {
        Some(DocumentSign::Begin)
    } else if is_sign_by(b'.', line) {
        Some(DocumentSign::End)
    } else {
        None
    }
}

#[tactic(auto, unfolding(crate::specs::Lines::is_sign))]
pub(crate) fn is_sign(line: &[u8]) -> bool
    ensures { result ≡ is_sign line.now }
{
    is_sign_by(b'-', line) || is_sign_by(b'.', line)
}

/// Whether a column is deeper than that of the last key or dash.
pub(crate) fn is_deeper(parent: Option<u32>, column: usize) -> bool
    ensures { result ≡ is_deeper parent column }
{
    match parent {
        Some(parent) => (parent as usize) < column,
        None => true,
    }
}

/// Puts so many line feeds at the end.
pub(crate) fn push_feeds(text: &mut Vec<u8>, count: usize) -> Result<(), AllocError>
    ensures { OnOk result (text.new.items ≡ text.old.items ++ feeds count) }
{
    let mut done = 0;
    while done < count {
        text.push(b'\n')?;
        done += 1;
    }
    Ok(())
}

/// Puts what a fold makes of a break at the end.
#[tactic(auto, unfolding(crate::specs::Lines::folded_break))]
pub(crate) fn push_break(text: &mut Vec<u8>, empty: usize) -> Result<(), AllocError>
    ensures { OnOk result (text.new.items ≡ text.old.items ++ folded_break empty) }
{
    if empty == 0 {
        text.push(b' ')?;
        Ok(())
    } else {
        push_feeds(text, empty)
    }
}
