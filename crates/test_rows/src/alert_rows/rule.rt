// The records of a rule, and how they answer the lines of a row.
use crate::counted;
use pr_ast::labels::series::read_series_text;
use pr_ast::labels::{Item, Labels};
use pr_ast::time::{Ms, Span};
use pr_group::rule::alert::{AlertFault, Record, Records, RuleElement, State};
use pr_num::{Num, Point, read, write};
use pr_words::Items;
use std::alloc::{AllocError, Global};
use std::str;

/// The records of a rule, and with what the next evaluation is made.
#[derive(Drop)]
pub(crate) struct Rule {
    records: Records,
    hold: u64,
    keep: u64,
    limit: u32,
}

fn labels_text(alloc: Global, labels: &Labels) -> Result<String, AllocError> {
    let mut text = Vec::new(alloc);
    labels.write(&mut text)?;
    String::from_str(alloc, str::from_utf8(&text).unwrap_or("no text"))
}

fn value_text(alloc: Global, value: Num) -> Result<String, AllocError> {
    let mut buffer = [0u8; 40];
    let count = write(value, &mut buffer);
    String::from_str(alloc, str::from_utf8(&buffer[..count]).unwrap_or("no text"))
}

// An element, of a series text, a blank and a value; none where it is no such text.
fn element(alloc: Global, text: &str) -> Option<RuleElement> {
    let (labels, value) = text.rsplit_once(' ')?;
    match read_series_text(alloc, labels) {
        Err(_) => None,
        Ok(labels) => match read(value.as_bytes()) {
            Err(_) => None,
            Ok(value) => Some(RuleElement {
                labels,
                notes: Items::empty(alloc),
                value,
            }),
        },
    }
}

// The elements of a line; those that are none are left out.
fn elements(alloc: Global, text: &str) -> Result<Vec<RuleElement>, AllocError> {
    let mut found = Vec::new(alloc);
    for part in text.split("; ") {
        if let Some(f) = element(alloc, part) {
            found.push(f)?;
        }
    }
    Ok(found)
}

fn point(text: &str) -> Point {
    if text == "stale" {
        return Point::Stale;
    }
    match read(text.as_bytes()) {
        Ok(value) => Point::Value(value),
        Err(_) => Point::Value(Num::NaN),
    }
}

fn state_name(state: State) -> &'static str {
    match state {
        State::Pending => "pending",
        State::Firing => "firing",
        State::Resolved => "resolved",
    }
}

// A time with its name, where there is one.
fn push_time(
    alloc: Global,
    told: &mut String,
    name: &str,
    time: Option<Ms>,
) -> Result<(), AllocError> {
    if let Some(time) = time {
        told.push_str(&format!(in alloc; " {name} {}", time.get())?)?;
    }
    Ok(())
}

fn push_sample(alloc: Global, told: &mut String, item: &Item<Num>) -> Result<(), AllocError> {
    let labels = labels_text(alloc, &item.labels)?;
    let value = value_text(alloc, item.value)?;
    told.push_str(&format!(in alloc; "sample {labels} {value}\n")?)
}

fn push_alert(alloc: Global, told: &mut String, r: &Record) -> Result<(), AllocError> {
    let labels = labels_text(alloc, &r.labels)?;
    let value = value_text(alloc, r.value)?;
    let state = state_name(r.state);
    let active = r.active.get();
    told.push_str(&format!(in alloc; "{state} {labels} value {value} active {active}")?)?;
    push_time(alloc, told, "fired", r.fired)?;
    push_time(alloc, told, "resolved", r.resolved)?;
    push_time(alloc, told, "sent", r.sent)?;
    push_time(alloc, told, "held", r.held)?;
    told.push('\n')
}

fn push_sending(alloc: Global, told: &mut String, r: &Record) -> Result<(), AllocError> {
    let labels = labels_text(alloc, &r.labels)?;
    let value = value_text(alloc, r.value)?;
    let state = state_name(r.state);
    told.push_str(&format!(in alloc; "send {state} {labels} value {value}")?)?;
    push_time(alloc, told, "starts", r.fired)?;
    push_time(alloc, told, "ends", r.resolved)?;
    told.push('\n')
}

fn push_restored(alloc: Global, told: &mut String, r: &Record) -> Result<(), AllocError> {
    let labels = labels_text(alloc, &r.labels)?;
    told.push_str(&format!(in alloc; "restored {labels} active {}\n", r.active.get())?)
}

impl Rule {
    /// No records yet.
    pub(crate) fn none(alloc: Global) -> Rule {
        Rule {
            records: Records::new(alloc),
            hold: 0,
            keep: 0,
            limit: 0,
        }
    }

    // The samples, and then what is sent.
    fn tell(&mut self, alloc: Global, time: Ms, told: &mut String) -> Result<(), AllocError> {
        for item in self.records.samples()?.iter() {
            push_sample(alloc, told, item)?;
        }
        for index in 0..self.records.list().len() {
            self.send(alloc, index, time, told)?;
        }
        Ok(())
    }

    // Sends the alert of a record, if it is due.
    fn send(
        &mut self,
        alloc: Global,
        index: usize,
        time: Ms,
        told: &mut String,
    ) -> Result<(), AllocError> {
        if index >= self.records.list().len() || !self.records.due(index, time) {
            return Ok(());
        }
        push_sending(alloc, told, &self.records.list()[index])?;
        self.records.mark_sent(index, time);
        Ok(())
    }

    fn evaluate(&mut self, alloc: Global, text: &str, told: &mut String) -> Result<(), AllocError> {
        let (time, text) = counted(text);
        let (Some(time), Some(hold), Some(keep)) = (
            Ms::new(time),
            Span::new(self.hold),
            Span::new(self.keep),
        ) else {
            return told.push_str("no time\n");
        };
        let found = elements(alloc, text)?;
        match self.records.evaluate(found, time, hold, keep, self.limit) {
            Ok(()) => {
                told.push_str("ok\n")?;
                self.tell(alloc, time, told)
            }
            Err(AlertFault::LimitExceeded { limit, have }) => {
                told.push_str(&format!(in alloc; "fault LimitExceeded {limit} {have}\n")?)
            }
            Err(AlertFault::Memory) => told.push_str("no memory\n"),
        }
    }

    // Restores the active time of an alert that is pending or fires.
    fn restore(
        &mut self,
        alloc: Global,
        index: usize,
        sample: &Point,
        down: Ms,
        now: Ms,
        told: &mut String,
    ) -> Result<(), AllocError> {
        let Some(hold) = Span::new(self.hold) else {
            return Ok(());
        };
        if hold.get() < 600_000 || down.get() > now.get() || index >= self.records.list().len() {
            return Ok(());
        }
        if !self.records.restore(index, sample, down, now, hold) {
            return Ok(());
        }
        match self.records.list().get(index) {
            Some(record) => push_restored(alloc, told, record),
            None => Ok(()),
        }
    }

    fn restore_all(
        &mut self,
        alloc: Global,
        text: &str,
        told: &mut String,
    ) -> Result<(), AllocError> {
        let (now, text) = counted(text);
        let (down, text) = counted(text);
        let (Some(now), Some(down)) = (Ms::new(now), Ms::new(down)) else {
            return told.push_str("no time\n");
        };
        for index in 0..self.records.list().len() {
            self.restore(alloc, index, &point(text), down, now, told)?;
        }
        Ok(())
    }

    fn list(&self, alloc: Global, told: &mut String) -> Result<(), AllocError> {
        let list = self.records.list();
        told.push_str(&format!(in alloc; "alerts {}\n", list.len())?)?;
        for r in list {
            push_alert(alloc, told, r)?;
        }
        Ok(())
    }

    /// Takes a line, and answers it.
    pub(crate) fn take(&mut self, alloc: Global, line: &str) -> Result<String, AllocError> {
        let (word, rest) = line.split_once(' ').unwrap_or((line, ""));
        let mut told = String::new(alloc);
        match word {
            "for" => self.hold = counted(rest).0,
            "keep" => self.keep = counted(rest).0,
            "limit" => self.limit = rest.parse::<u32>().unwrap_or(0),
            "eval" => self.evaluate(alloc, rest, &mut told)?,
            "restore" => self.restore_all(alloc, rest, &mut told)?,
            "clear" => self.records.clear(),
            "list" => self.list(alloc, &mut told)?,
            "--" => {}
            _ => told.push_str("a line of no kind\n")?,
        }
        Ok(told)
    }
}
