// The receivers of a row, and how they answer its lines.
use crate::counted;
use pr_ast::labels::Labels;
use pr_ast::time::Ms;
use pr_num::Num;
use pr_queue::alerts_crate::Sending;
use pr_queue::{Batch, Joined, Notifier};
use pr_words::Items;
use std::alloc::{AllocError, Global};

/// The receivers of one notifier.
#[derive(Drop)]
pub(crate) struct Receivers {
    notifier: Notifier,
    alloc: Global,
}

// So many notices, each known by its end, from a number on.
fn notices(alloc: Global, first: u64, count: u64) -> Result<Vec<Sending>, AllocError> {
    let mut notices = Vec::new(alloc);
    for index in 0..count {
        if let Some(starts) = Ms::new(0) {
            notices.push(Sending {
                labels: Labels::empty(alloc),
                firing: true,
                value: Num::NaN,
                starts,
                ends: first.saturating_add(index),
                notes: Items::empty(alloc),
            })?;
        }
    }
    Ok(notices)
}

fn joined_text(joined: Joined) -> &'static str {
    match joined {
        Joined::New => "new",
        Joined::Known => "known",
        Joined::Full => "full",
    }
}

// The numbers of the notices, where each is one more than the one before it, by the first and the last.
fn batch_text(alloc: Global, batch: &Batch) -> Result<String, AllocError> {
    let notices = batch.notices.as_slice();
    let dropped = batch.dropped;
    let (Some(first), Some(last)) = (notices.first(), notices.last()) else {
        return format!(in alloc; "0, dropped {dropped}");
    };
    let (first, last) = (first.ends, last.ends);
    for (index, notice) in notices.iter().enumerate() {
        if notice.ends != first.saturating_add(index as u64) {
            return String::from_str(alloc, "not in order");
        }
    }
    format!(in alloc;
        "{}, from {first} to {last}, dropped {dropped}",
        notices.len()
    )
}

impl Receivers {
    /// No receivers.
    pub(crate) fn none(alloc: Global) -> Receivers {
        Receivers {
            notifier: Notifier::new(alloc),
            alloc,
        }
    }

    // Adds names that are numbers, and tells what became of the last one.
    fn add_many(&mut self, count: u64) -> Result<&'static str, AllocError> {
        let mut told = "";
        for number in 0..count {
            let name = format!(in self.alloc; "{number}")?;
            told = joined_text(self.notifier.add(name.as_str())?);
        }
        Ok(told)
    }

    fn flushed(&mut self, name: &str) -> Result<String, AllocError> {
        match self.notifier.flush(name)? {
            Some(batch) => batch_text(self.alloc, &batch),
            None => String::from_str(self.alloc, "none"),
        }
    }

    /// What is answered to a line.
    pub(crate) fn take(&mut self, order: &str) -> Result<String, AllocError> {
        let alloc = self.alloc;
        let (word, rest) = order.split_once(' ').unwrap_or((order, ""));
        match word {
            "receiver" => String::from_str(alloc, joined_text(self.notifier.add(rest)?)),
            "receivers" => String::from_str(alloc, self.add_many(counted(rest).0)?),
            "offer" => {
                let (first, rest) = counted(rest);
                self.notifier
                    .offer(&notices(alloc, first, counted(rest).0)?)?;
                String::from_str(alloc, "ok")
            }
            "flush" => self.flushed(rest),
            "clear" => {
                self.notifier.clear();
                String::from_str(alloc, "ok")
            }
            _ => String::from_str(alloc, "no such line"),
        }
    }
}
