// The printed values and places that stand in answers.
#![tactic(auto, using(pr_words::proofs::Fronts::front_on, pr_words::proofs::Fronts::front_after))]

ghost use Rattle.std.specs.Prelude.{◌≡◌, ◌++◌, OnOk, length, take};
ghost use Rattle.spec_world.specs.pr_num.Shown.{shown};
ghost use Rattle.spec_world.specs.spec_history.Points.{shown_point};
ghost use Rattle.pr_text.specs.Values.{place_text};

use pr_words::push_number;
use spec_world::history::row::write_point;
use spec_world::num::{Num, Point};
use std::alloc::AllocError;

/// Appends a number. Want of memory alone is an error, and then what stood there stays.
pub fn push_value(text: &mut Vec<u8>, v: Num) -> Result<(), AllocError>
    ensures ok { OnOk result (text.new.items ≡ text.old.items ++ shown v) }
    ensures front { take (length text.old.items) text.new.items ≡ text.old.items }
{
    let mut buffer = [0u8; 40];
    let count = spec_world::num::write(v, &mut buffer);
    text.extend_from_slice(&buffer[..count])
}

pub(crate) fn push_point(text: &mut Vec<u8>, p: Point) -> Result<(), AllocError>
    ensures ok { OnOk result (text.new.items ≡ text.old.items ++ shown_point p) }
    ensures front { take (length text.old.items) text.new.items ≡ text.old.items }
{
    let mut buffer = [0u8; 40];
    let count = write_point(p, &mut buffer);
    text.extend_from_slice(&buffer[..count])
}

pub(crate) fn push_place(text: &mut Vec<u8>, place: usize) -> Result<(), AllocError>
    ensures ok { OnOk result (text.new.items ≡ text.old.items ++ place_text place) }
    ensures front { take (length text.old.items) text.new.items ≡ text.old.items }
{
    text.extend_from_slice(b" at ")?;
    push_number(text, place as u64)?;
    text.extend_from_slice(b"\n")
}
