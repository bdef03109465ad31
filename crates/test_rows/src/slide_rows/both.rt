// A head with ranges of both kinds over it, and how they answer the lines of a row.
ghost use Rattle.std.specs.Prelude.{◌≡◌, ◌<◌, ◌≤ℤ◌, false, length, IfSome};
ghost use Rattle.pr_slide.specs.pr_range.private.Asks.{HasArgument, takes_argument};

use pr_ast::Expr;
use pr_ast::labels::Labels;
use pr_ast::labels::series::read_series_text;
use pr_ast::time::Ms;
use pr_group::continued::carried;
use pr_num::{Num, Point, read, write};
use pr_parse::parse;
use pr_slide::SlidingRanges;
use pr_slide::head::{Append, Head};
use pr_slide::range::{Ask, PlainRanges, RangeFault, RangeFn, Ranges};
use pr_words::Steps;
use std::alloc::{AllocError, Global};
use std::marker::Brand;
use std::mem::replace;
use std::str;
use std::sync::ledger::{Blank, Ledger};

/// A head, and ranges over it that are read anew and that go on.
#[derive(Drop)]
pub(crate) struct Both {
    head: Head,
    plain: PlainRanges,
    sliding: SlidingRanges,
}

// A function without an argument.
fn func_of(name: &str) -> Option<RangeFn>
    ensures { IfSome result (λ f. takes_argument f ≡ false) }
{
    match name {
        "rate" => Some(RangeFn::Rate),
        "increase" => Some(RangeFn::Increase),
        "changes" => Some(RangeFn::Changes),
        "sum_over_time" => Some(RangeFn::SumOverTime),
        "avg_over_time" => Some(RangeFn::AvgOverTime),
        "min_over_time" => Some(RangeFn::MinOverTime),
        "max_over_time" => Some(RangeFn::MaxOverTime),
        "count_over_time" => Some(RangeFn::CountOverTime),
        "last_over_time" => Some(RangeFn::LastOverTime),
        _ => None,
    }
}

// The value of a text; NaN where it is none.
fn value_of(text: &str) -> Num {
    match read(text.as_bytes()) {
        Ok(value) => value,
        Err(_) => Num::NaN,
    }
}

// Whether a sample is taken, of a value or of a marker.
fn is_taken(head: &mut Head, labels: &Labels, time: Ms, text: &str) -> Result<bool, AllocError> {
    let value: Num = value_of(text);
    let point = if text == "stale" {
        Point::Stale
    } else {
        Point::Value(value)
    };
    match head.append(labels, time, point)? {
        Append::Added => Ok(true),
        _ => Ok(false),
    }
}

// The label set of a series of this name; none where it is no such text.
fn labels_of(alloc: Global, name: &str) -> Option<Labels> {
    match read_series_text(alloc, name) {
        Ok(labels) => Some(labels),
        Err(_) => None,
    }
}

// What is answered, as a text.
fn told(alloc: Global, answer: Result<Option<Num>, RangeFault>) -> Result<String, AllocError> {
    match answer {
        Ok(Some(value)) => {
            let mut buffer = [0u8; 40];
            let count = write(value, &mut buffer);
            String::from_str(alloc, str::from_utf8(&buffer[..count]).unwrap_or("no text"))
        }
        Ok(None) => String::from_str(alloc, "none"),
        Err(RangeFault::TooWide) => String::from_str(alloc, "too wide"),
        Err(RangeFault::RangeTooLong { .. }) => String::from_str(alloc, "too long"),
        Err(RangeFault::Memory) => Err(AllocError),
    }
}

// An ask, with a count of its own.
fn answer<R: Ranges, G: Ledger>(
    ranges: &mut R,
    head: &Head,
    node: usize,
    series: usize,
    ask: &Ask,
    blank: Blank,
) -> Result<Option<Num>, RangeFault>
    requires there { series < length head.now }
    requires ordered { ask.now.from ≤ℤ ask.now.to }
    requires argument { HasArgument ask.now }
    requires name { blank.name ≡ G.name }
    requires parts { blank.parts ≡ G.parts }
    requires some { 0 < G.parts }
{
    let mut reads: Steps<G> = Steps::new(blank);
    ranges.ask(head, node, series, ask, &mut reads)
}

// The number at a place of a line; 0 where there is none.
fn number(words: &[&str], place: usize) -> u64 {
    match words.get(place) {
        Some(word) => word.parse::<u64>().unwrap_or(0),
        None => 0,
    }
}

// The moment at a place of a line.
fn moment(words: &[&str], place: usize) -> i64 {
    match words.get(place) {
        Some(word) => word.parse::<i64>().unwrap_or(0),
        None => 0,
    }
}

fn word<'a>(words: &[&'a str], place: usize) -> &'a str {
    match words.get(place) {
        Some(word) => *word,
        None => "",
    }
}

// The ask of a line; none where its function or its range is none.
fn ask_of(words: &[&str], inside: bool) -> Option<Ask>
    ensures ordered { IfSome result (λ a. a.from ≤ℤ a.to) }
    ensures argument { IfSome result HasArgument }
{
    let func = func_of(word(words, 1))?;
    let from = moment(words, 4);
    let to = moment(words, 5);
    if to < from {
        return None;
    }
    Some(Ask {
        from,
        to,
        func,
        arg: None,
        inside,
    })
}

// The expression of a text; none where it is no expression.
fn expression(alloc: Global, text: &str) -> Option<Expr> {
    match parse(alloc, text) {
        Ok(expr) => Some(expr),
        Err(_) => None,
    }
}

// The numbers of older range selectors, as a text.
fn numbers_text(alloc: Global, from: &[Option<usize>]) -> Result<String, AllocError> {
    let mut text = String::new(alloc);
    for choice in from {
        if !text.is_empty() {
            text.push(' ')?;
        }
        match choice {
            Some(older) => text.push_str(&format!(in alloc; "{older}")?)?,
            None => text.push('-')?,
        }
    }
    Ok(text)
}

impl Both {
    /// No samples, and nothing asked.
    pub(crate) fn none(alloc: Global) -> Both {
        Both {
            head: Head::new(alloc),
            plain: PlainRanges::new(alloc),
            sliding: SlidingRanges::new(alloc),
        }
    }

    // A sample, which has to be taken.
    fn put(&mut self, alloc: Global, words: &[&str]) -> Result<String, AllocError> {
        let Some(labels) = labels_of(alloc, word(words, 1)) else {
            return String::from_str(alloc, "no series");
        };
        let Some(time) = Ms::new(number(words, 2)) else {
            return String::from_str(alloc, "no time");
        };
        if is_taken(&mut self.head, &labels, time, word(words, 3))? {
            return Ok(String::new(alloc));
        }
        String::from_str(alloc, "refused")
    }

    // An ask of both.
    fn asked(&mut self, alloc: Global, words: &[&str], inside: bool) -> Result<String, AllocError> {
        let Some(ask) = ask_of(words, inside) else {
            return String::from_str(alloc, "no ask");
        };
        let Some(labels) = labels_of(alloc, word(words, 3)) else {
            return String::from_str(alloc, "no series");
        };
        let Some(series) = self.head.number(&labels) else {
            return String::from_str(alloc, "no series");
        };
        let node = number(words, 2) as usize;
        let plain = answer::<PlainRanges, Brand>(
            &mut self.plain,
            &self.head,
            node,
            series,
            &ask,
            Blank::new(1),
        );
        let slid = answer::<SlidingRanges, Brand>(
            &mut self.sliding,
            &self.head,
            node,
            series,
            &ask,
            Blank::new(1),
        );
        let plain = told(alloc, plain)?;
        let slid = told(alloc, slid)?;
        if plain.as_str() == slid.as_str() {
            return Ok(slid);
        }
        format!(in alloc; "apart {slid}, and anew {plain}")
    }

    // A reload: the windows of an old expression go on under the numbers of a new one.
    fn carry(&mut self, alloc: Global, texts: &str) -> Result<String, AllocError> {
        let (old, new) = texts.split_once(" | ").unwrap_or((texts, ""));
        let (Some(old), Some(new)) = (expression(alloc, old), expression(alloc, new)) else {
            return String::from_str(alloc, "no expression");
        };
        let from = carried(alloc, &new, &old)?;
        let older = replace(&mut self.sliding, SlidingRanges::new(alloc));
        self.sliding.carry(older, &from);
        numbers_text(alloc, &from)
    }

    /// What is answered to a line.
    pub(crate) fn take(&mut self, alloc: Global, line: &str) -> Result<String, AllocError> {
        if let Some(texts) = line.strip_prefix("carry ") {
            return self.carry(alloc, texts);
        }
        let mut words: Vec<&str> = Vec::new(alloc);
        for word in line.split(' ') {
            words.push(word)?;
        }
        match word(&words, 0) {
            "put" => self.put(alloc, &words),
            "trim" => {
                self.head.trim(moment(&words, 1));
                Ok(String::new(alloc))
            }
            "ask" => self.asked(alloc, &words, false),
            "inside" => self.asked(alloc, &words, true),
            "--" => Ok(String::new(alloc)),
            _ => String::from_str(alloc, "a line of no kind"),
        }
    }
}
