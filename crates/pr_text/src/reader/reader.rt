// The input, asked for one order after another.
ghost use Rattle.std.specs.Prelude.{◌≡◌, ◌^◌, ◌<◌, ◌≤◌, ◌==◌, not, [], length, None, IfOk, IfSome, OnOk, string_bytes, true, false};
ghost use Rattle.pr_outside.specs.Courses.{IsInTime};
ghost use Rattle.pr_outside.specs.declared.course.Course.{Course};
ghost use Rattle.pr_text.specs.Script.{is_passed_over, takes_body};
ghost use Rattle.pr_outside.specs.Ends.{AtInput, ReadEnds};
ghost use Rattle.pr_text.specs.Taken.{TookWithin};
ghost use Rattle.pr_text.specs.private.LineReading.{ahead, HandsLine, CountsBytes, IsCutLine, IsBeyond, IsReadOn, KnowsCourse};
ghost use Rattle.pr_text.specs.private.Plain.{IsPlain};
ghost use Rattle.pr_text.specs.private.Reading.{unread, IsReady, HandsOrder, FinishesOrder, TakesBody, EndsBody, Advances, IsCutBody, IsCutAt};

use crate::reader::lines::{LineReader, without_feed};
use crate::script::{
    KnownSeries, Numbered, Order, Started, begin_order, is_passed_over, push_body_line,
};
use pr_outside::Source;
use pr_outside::status::Stop;
use pr_words::Items;
use spec_world::Event;
use std::alloc::Global;
use std::mem::swap;

// The bytes of a body.
fn bytes_of(body: String) -> Items<u8>
    ensures { result ≡ string_bytes body }
{
    Items::new(body.into_bytes())
}

/// The lines of the input; the line that was read ahead, or none; how many lines were handed out;
/// and the series texts that were read, which come again.
#[derive(Drop)]
pub struct Reader {
    lines: LineReader,
    waiting: Vec<u8>,
    number: u64,
    known: KnownSeries,
}

impl Reader {
    /// Nothing was read yet.
    pub fn new(alloc: Global) -> Reader
        ensures empty { unread result ≡ [] }
        ensures counts { (result.lines.count ≡ 0) × (result.number ≡ 0) }
        ensures within { result.lines.at ≤ length result.lines.piece.items }
        ensures waiting { result.waiting.items ≡ [] }
        ensures end { result.lines.ended ≡ false }
    {
        Reader {
            lines: LineReader::new(alloc),
            waiting: Vec::new(alloc),
            number: 0,
            known: KnownSeries::new(alloc),
        }
    }

    // Hands out the next line, and says whether there is one.
    #[tactic(auto, using(crate::proofs::Ahead::counts_none))]
    fn next_line<I: Source>(&mut self, input: &mut I, line: &mut Vec<u8>) -> Result<bool, Stop>
        requires { IsReady 0 self.old (I.means input.old).left }
        ensures ready { OnOk result (IsReady (length line.new.items) self.new (I.means input.new).left) }
        ensures some { IfOk result (λ more. more ≡ not (length line.new.items == 0)) }
        ensures line { IfOk result (λ more. HandsLine (ahead (unread self.old) (I.means input.old).left) (ahead (unread self.new) (I.means input.new).left) more line.new.items) }
        ensures waiting { OnOk result (self.new.waiting.items ≡ []) }
        ensures number { OnOk result (self.new.number ≡ self.old.number) }
        ensures counts { OnOk result (CountsBytes (I.means input.old) (I.means input.new) self.old.lines.count self.new.lines.count) }
        ensures short { IfOk result (λ more. more ≡ false → (self.new.lines.ended ≡ true) × (self.new.lines.count < 2 ^ 32)) }
        ensures cut { AtInput result (IsCutLine (ahead (unread self.old) (I.means input.old).left) (I.means input.new).left) }
        ensures going { (first : Course) → IsReadOn first self.old.lines.ended (I.means input.old).course → OnOk result (IsReadOn first self.new.lines.ended (I.means input.new).course) }
        ensures over { (first : Course) → KnowsCourse first self.old.lines.ended (I.means input.old).course → OnOk result (KnowsCourse first self.new.lines.ended (I.means input.new).course) }
        ensures in_time { (first : Course) → IsReadOn first self.old.lines.ended (I.means input.old).course → IsInTime first (I.means input.new).course }
        ensures most { TookWithin (I.means input.old) (I.means input.new) self.old.lines.count }
        ensures ends { ReadEnds (IsBeyond (I.means input.old) (I.means input.new) self.old.lines.count) (I.means input.old) (I.means input.new) result }
    {
        if self.waiting.is_empty() {
            return self.lines.next_line(input, line);
        }
        line.clear();
        swap(line, &mut self.waiting);
        Ok(true)
    }

    // The body that the next lines give. The first line that is none of it is read ahead.
    fn read_body<I: Source>(&mut self, alloc: Global, input: &mut I) -> Result<String, Stop>
        requires { IsReady 0 self.old (I.means input.old).left }
        ensures ready { OnOk result (IsReady 0 self.new (I.means input.new).left) }
        ensures body { IfOk result (λ body. TakesBody (ahead (unread self.old) (I.means input.old).left) (ahead (unread self.new) (I.means input.new).left) self.old.number self.new.number (string_bytes body)) }
        ensures ended { OnOk result (EndsBody (ahead (unread self.new) (I.means input.new).left)) }
        ensures number { OnOk result (self.old.number ≤ self.new.number) }
        ensures counts { OnOk result (CountsBytes (I.means input.old) (I.means input.new) self.old.lines.count self.new.lines.count) }
        ensures cut { AtInput result (IsCutBody (ahead (unread self.old) (I.means input.old).left) (I.means input.new).left) }
        ensures going { (first : Course) → IsReadOn first self.old.lines.ended (I.means input.old).course → OnOk result (IsReadOn first self.new.lines.ended (I.means input.new).course) }
        ensures over { (first : Course) → KnowsCourse first self.old.lines.ended (I.means input.old).course → OnOk result (KnowsCourse first self.new.lines.ended (I.means input.new).course) }
        ensures in_time { (first : Course) → IsReadOn first self.old.lines.ended (I.means input.old).course → IsInTime first (I.means input.new).course }
        ensures most { TookWithin (I.means input.old) (I.means input.new) self.old.lines.count }
        ensures ends { ReadEnds (IsBeyond (I.means input.old) (I.means input.new) self.old.lines.count) (I.means input.old) (I.means input.new) result }
    {
        let mut body = String::new(alloc);
        let mut line = Vec::new(alloc);
        'reading: while self.next_line(input, &mut line)? {
            if !push_body_line(&mut body, without_feed(&line))? {
                swap(&mut self.waiting, &mut line);
                return Ok(body);
            }
            self.number += 1;
        }
        Ok(body)
    }

    // The order that begins with a line, the last one handed out, which is not passed over.
    fn take_order<I: Source>(
        &mut self,
        alloc: Global,
        input: &mut I,
        line: &[u8],
    ) -> Result<Numbered, Stop>
        requires { IsReady 0 self.old (I.means input.old).left }
        ensures ready { OnOk result (IsReady 0 self.new (I.means input.new).left) }
        ensures order { is_passed_over line.now ≡ false → IfOk result (FinishesOrder line.now (ahead (unread self.old) (I.means input.old).left) (ahead (unread self.new) (I.means input.new).left) self.old.number self.new.number) }
        ensures plain { IfOk result (λ o. IsPlain o.order) }
        ensures number { OnOk result (self.old.number ≤ self.new.number) }
        ensures counts { OnOk result (CountsBytes (I.means input.old) (I.means input.new) self.old.lines.count self.new.lines.count) }
        ensures cut { AtInput result ((takes_body line.now ≡ true) × IsCutBody (ahead (unread self.old) (I.means input.old).left) (I.means input.new).left) }
        ensures going { (first : Course) → IsReadOn first self.old.lines.ended (I.means input.old).course → OnOk result (IsReadOn first self.new.lines.ended (I.means input.new).course) }
        ensures over { (first : Course) → KnowsCourse first self.old.lines.ended (I.means input.old).course → OnOk result (KnowsCourse first self.new.lines.ended (I.means input.new).course) }
        ensures in_time { (first : Course) → IsReadOn first self.old.lines.ended (I.means input.old).course → IsInTime first (I.means input.new).course }
        ensures most { TookWithin (I.means input.old) (I.means input.new) self.old.lines.count }
        ensures ends { ReadEnds (IsBeyond (I.means input.old) (I.means input.new) self.old.lines.count) (I.means input.old) (I.means input.new) result }
    {
        let number = self.number;
        match begin_order(alloc, &mut self.known, line)? {
            Started::Whole { order } => Ok(Numbered { number, order }),
            Started::Scrape { time, target } => {
                let body = bytes_of(self.read_body(alloc, input)?);
                let event = Event::Scrape { time, target, body };
                let order = Order::Event { event };
                Ok(Numbered { number, order })
            }
        }
    }

    /// Hands out the next order, if there is one more. It reads no further than that order needs:
    /// of an order that takes a body, up to the first line that is no body line; of any other, no
    /// further than its line.
    pub fn next_order<I: Source>(
        &mut self,
        alloc: Global,
        input: &mut I,
    ) -> Result<Option<Numbered>, Stop>
        requires { IsReady 0 self.old (I.means input.old).left }
        ensures ready { OnOk result (IsReady 0 self.new (I.means input.new).left) }
        ensures order { IfOk result (HandsOrder (ahead (unread self.old) (I.means input.old).left) (ahead (unread self.new) (I.means input.new).left) self.old.number self.new.number) }
        ensures plain { IfOk result (λ o. IfSome o (λ n. IsPlain n.order)) }
        ensures advances { IfOk result (λ o. Advances o self.old.number self.new.number) }
        ensures counts { OnOk result (CountsBytes (I.means input.old) (I.means input.new) self.old.lines.count self.new.lines.count) }
        ensures short { IfOk result (λ o. o ≡ None → (self.new.lines.ended ≡ true) × (self.new.lines.count < 2 ^ 32)) }
        ensures cut { AtInput result (IsCutAt (ahead (unread self.old) (I.means input.old).left) (I.means input.new).left self.old.number) }
        ensures going { (first : Course) → IsReadOn first self.old.lines.ended (I.means input.old).course → OnOk result (IsReadOn first self.new.lines.ended (I.means input.new).course) }
        ensures over { (first : Course) → KnowsCourse first self.old.lines.ended (I.means input.old).course → OnOk result (KnowsCourse first self.new.lines.ended (I.means input.new).course) }
        ensures in_time { (first : Course) → IsReadOn first self.old.lines.ended (I.means input.old).course → IsInTime first (I.means input.new).course }
        ensures most { TookWithin (I.means input.old) (I.means input.new) self.old.lines.count }
        ensures ends { ReadEnds (IsBeyond (I.means input.old) (I.means input.new) self.old.lines.count) (I.means input.old) (I.means input.new) result }
    {
        let mut line = Vec::new(alloc);
        'passing: while self.next_line(input, &mut line)? {
            self.number += 1;
            let text = without_feed(&line);
            if !is_passed_over(text) {
                return Ok(Some(self.take_order(alloc, input, text)?));
            }
        }
        Ok(None)
    }
}
