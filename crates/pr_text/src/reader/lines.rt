// The input, asked for one line after another.
ghost use Rattle.std.specs.Prelude.{◌≡◌, ◌+◌, ◌^◌, ◌<◌, ◌≤◌, ◌++◌, ◌==◌, not, [], codes, take, drop, length, IfOk, IfSome, IfNone, OnOk, true, false};
ghost use Rattle.std.specs.List.{list_all};
ghost use Rattle.std.specs.Io.KnownBytes.{Consumes, Keeps, IsAtEnd};
ghost use Rattle.pr_outside.specs.Courses.{IsInTime};
ghost use Rattle.pr_outside.specs.declared.course.Course.{Course};
ghost use Rattle.pr_outside.specs.Ends.{AtInput, ReadEnds};
ghost use Rattle.pr_outside.specs.Status.{Took};
ghost use Rattle.pr_text.specs.private.LineReading.{held, KnowsEnd, IsReading, IsReadOn, KnowsCourse, ahead, without_feed, TakesPart, HandsLine, CountsBytes, IsCutLine, IsBeyond};
ghost use Rattle.pr_text.specs.Taken.{is_no_feed, TookWithin};

use pr_outside::Source;
use pr_outside::status::Stop;
use std::alloc::{AllocError, Global};

// The input has fewer bytes.
const INPUT_LIMIT: u64 = 0x1_0000_0000;

// At most so many bytes are read at once.
const PIECE: usize = 4096;

/// What was read of the input and not yet handed out, which stands in the last piece from a place
/// on; and how many bytes were read; and whether the input's end was met.
#[derive(Drop)]
pub(crate) struct LineReader {
    piece: Vec<u8>,
    at: usize,
    count: u64,
    ended: bool,
}

// Where the first line feed stands.
fn line_end(bytes: &[u8]) -> Option<usize>
    ensures some { IfSome result (λ i. (i < length bytes.now) × (list_all is_no_feed (take i bytes.now) ≡ true)
        × (drop i bytes.now ≡ codes "\n" ++ drop (i + 1) bytes.now)) }
    ensures none { IfNone result (list_all is_no_feed bytes.now ≡ true) }
{
    for (i, b) in bytes.iter().enumerate() {
        if *b == b'\n' {
            return Some(i);
        }
    }
    None
}

fn has_bytes(line: &[u8]) -> bool
    ensures { result ≡ not (length line.now == 0) }
{
    !line.is_empty()
}

/// A line without its line feed, which may be missing.
#[tactic(auto, using(crate::proofs::Feeds::fed, crate::proofs::Feeds::unfed, crate::proofs::Feeds::empty))]
pub(crate) fn without_feed(line: &[u8]) -> &[u8]
    ensures { result.now ≡ without_feed line.now }
{
    match line.split_last() {
        Some((last, text)) => { if *last == b'\n' { text } else { line } }
        None => line,
    }
}

impl LineReader {
    /// Nothing was read yet.
    pub(crate) fn new(alloc: Global) -> LineReader
        ensures empty { held result ≡ [] }
        ensures within { result.at ≤ length result.piece.items }
        ensures count { result.count ≡ 0 }
        ensures end { result.ended ≡ false }
    {
        LineReader {
            piece: Vec::new(alloc),
            at: 0,
            count: 0,
            ended: false,
        }
    }

    // Moves what is held to the end of a line, up to a line feed, and says whether there was one.
    fn take_part(&mut self, line: &mut Vec<u8>) -> Result<bool, AllocError>
        requires { self.old.at ≤ length self.old.piece.items }
        ensures part { IfOk result (λ ended. TakesPart ended (held self.old) (held self.new) line.old.items line.new.items) }
        ensures within { OnOk result (self.new.at ≤ length self.new.piece.items) }
        ensures same { OnOk result ((self.new.count ≡ self.old.count) × (self.new.ended ≡ self.old.ended)) }
    {
        let held = &self.piece[self.at..];
        match line_end(held) {
            Some(end) => {
                line.extend_from_slice(&held[..end])?;
                self.at += end + 1;
                Ok(true)
            }
            None => {
                line.extend_from_slice(held)?;
                self.at = self.piece.len();
                Ok(false)
            }
        }
    }

    // Reads the next piece, and says whether there is one. After the end there is no other read.
    #[tactic(auto, using(crate::proofs::Ahead::kept, crate::proofs::Ahead::joined_none, crate::proofs::Ahead::beyond_now))]
    fn fill<I: Source>(&mut self, input: &mut I) -> Result<bool, Stop>
        requires count { self.old.count < 2 ^ 32 + 4096 }
        requires end { KnowsEnd self.old (I.means input.old).left }
        ensures end { OnOk result (KnowsEnd self.new (I.means input.new).left) }
        ensures taken { OnOk result (Consumes (I.means input.old).left (I.means input.new).left (held self.new)) }
        ensures took { OnOk result (Took (I.means input.old) (I.means input.new) (length (held self.new))) }
        ensures within { OnOk result (self.new.at ≤ length self.new.piece.items) }
        ensures count { OnOk result ((self.new.count ≡ self.old.count + length (held self.new)) × (self.new.count < 2 ^ 32 + 4096)) }
        ensures some { IfOk result (λ some. some ≡ true → 0 < length (held self.new)) }
        ensures none { IfOk result (λ some. some ≡ false → IsAtEnd (I.means input.new).left × (held self.new ≡ []) × (self.new.ended ≡ true) × (self.new.count < 2 ^ 32)) }
        ensures stopped { AtInput result (Keeps (I.means input.old).left (I.means input.new).left) }
        ensures going { (first : Course) → IsReadOn first self.old.ended (I.means input.old).course → OnOk result (IsReadOn first self.new.ended (I.means input.new).course) }
        ensures over { (first : Course) → KnowsCourse first self.old.ended (I.means input.old).course → OnOk result (KnowsCourse first self.new.ended (I.means input.new).course) }
        ensures in_time { (first : Course) → IsReadOn first self.old.ended (I.means input.old).course → IsInTime first (I.means input.new).course }
        ensures most { TookWithin (I.means input.old) (I.means input.new) self.old.count }
        ensures ends { ReadEnds (IsBeyond (I.means input.old) (I.means input.new) self.old.count) (I.means input.old) (I.means input.new) result }
    {
        if self.ended {
            self.piece.clear();
            self.at = 0;
            return Ok(false);
        }
        if self.count >= INPUT_LIMIT {
            return Err(Stop::TooLong);
        }
        let mut buffer = [0u8; PIECE];
        let read = input.read(&mut buffer)?;
        self.piece.clear();
        self.at = 0;
        self.piece.extend_from_slice(&buffer[..read])?;
        self.count += read as u64;
        self.ended = read == 0;
        Ok(read > 0)
    }

    /// Hands out the next line with its line feed, which the last one may lack, and says whether
    /// there is one. It reads no further.
    pub(crate) fn next_line<I: Source>(
        &mut self,
        input: &mut I,
        line: &mut Vec<u8>,
    ) -> Result<bool, Stop>
        requires { IsReading self.old (I.means input.old).left }
        ensures ready { OnOk result (IsReading self.new (I.means input.new).left) }
        ensures line { IfOk result (λ more. HandsLine (ahead (held self.old) (I.means input.old).left) (ahead (held self.new) (I.means input.new).left) more line.new.items) }
        ensures bytes { OnOk result (self.new.count + length (held self.old) ≡ self.old.count + (length line.new.items + length (held self.new))) }
        ensures some { IfOk result (λ more. more ≡ not (length line.new.items == 0)) }
        ensures counts { OnOk result (CountsBytes (I.means input.old) (I.means input.new) self.old.count self.new.count) }
        ensures short { IfOk result (λ more. more ≡ false → (self.new.ended ≡ true) × (self.new.count < 2 ^ 32)) }
        ensures cut { AtInput result (IsCutLine (ahead (held self.old) (I.means input.old).left) (I.means input.new).left) }
        ensures going { (first : Course) → IsReadOn first self.old.ended (I.means input.old).course → OnOk result (IsReadOn first self.new.ended (I.means input.new).course) }
        ensures over { (first : Course) → KnowsCourse first self.old.ended (I.means input.old).course → OnOk result (KnowsCourse first self.new.ended (I.means input.new).course) }
        ensures in_time { (first : Course) → IsReadOn first self.old.ended (I.means input.old).course → IsInTime first (I.means input.new).course }
        ensures most { TookWithin (I.means input.old) (I.means input.new) self.old.count }
        ensures ends { ReadEnds (IsBeyond (I.means input.old) (I.means input.new) self.old.count) (I.means input.old) (I.means input.new) result }
    {
        line.clear();
        'joining: while !self.take_part(line)? {
            if !self.fill(input)? {
                return Ok(has_bytes(line));
            }
        }
        line.extend_from_slice(b"\n")?;
        Ok(true)
    }
}
