// The input of a row.
ghost use Rattle.std.specs.Prelude.{None};

use crate::run_rows::lines::marked;
use crate::run_rows::signs::push_text;
use pr_outside::{Course, Failed, MemSource, Source, is_end};
use std::alloc::{AllocError, Global};

/// An input: bytes of which some reads are refused, or comments without end. Nothing is told of what
/// is left of it.
#[derive(Drop)]
pub struct Input {
    bytes: MemSource,
    is_endless: bool,
    taken: u64,
    course: Course,
}

impl Input {
    /// These bytes, whose calls of `read` with these numbers, counted from 1, are refused; or in
    /// their place comments without end.
    pub fn new(bytes: Vec<u8>, refused: Vec<u64>, is_endless: bool) -> Input {
        Input {
            bytes: MemSource::new(bytes, refused),
            is_endless,
            taken: 0,
            course: Course::Going,
        }
    }
}

// Fills a buffer with one comment.
fn fill(buf: &mut [u8]) {
    for byte in buf.iter_mut() {
        *byte = b'#';
    }
    if let Some(last) = buf.last_mut() {
        *last = b'\n';
    }
}

impl Source for Input {
    ghost means = { λ s. record { left = None; taken = s.taken; faults = s.bytes.schedule.faults; course = s.course } };

    /// Gives as many bytes as are left and fit, unless this call is to be refused, or a comment.
    fn read(&mut self, buf: &mut [u8]) -> Result<usize, Failed> {
        if self.is_endless {
            fill(buf);
            let count = buf.len();
            self.taken = self.taken.saturating_add(count as u64);
            self.course = self.course.after(is_end(count, buf));
            return Ok(count);
        }
        match self.bytes.read(buf) {
            Ok(count) => {
                self.taken = self.taken.saturating_add(count as u64);
                self.course = self.course.after(is_end(count, buf));
                Ok(count)
            }
            Err(error) => {
                self.course = self.course.after(true);
                Err(error)
            }
        }
    }
}

// Appends samples of one time.
fn push_samples(alloc: Global, bytes: &mut Vec<u8>, samples: &str) -> Result<(), AllocError> {
    let (time, samples) = marked(samples);
    for sample in samples.split("; ") {
        let line = format!(in alloc; "add {time} {sample}")?;
        push_text(bytes, &line)?;
    }
    Ok(())
}

/// The bytes of the input of a row.
pub(crate) fn input_of(alloc: Global, lines: &str) -> Result<Vec<u8>, AllocError> {
    let mut bytes = Vec::new(alloc);
    for line in lines.lines() {
        let (mark, rest) = marked(line);
        if mark == ">" {
            let (order, _) = rest.split_once(" => ").unwrap_or((rest, ""));
            push_text(&mut bytes, order)?;
        } else if mark == "+" {
            push_samples(alloc, &mut bytes, rest)?;
        }
    }
    Ok(bytes)
}
