// Orders: what the lines of a script ask for.
ghost use Rattle.std.specs.Prelude.{◌≡◌, IfOk};
ghost use Rattle.pr_text.specs.Orders.{event_order, whole_order};
ghost use Rattle.pr_text.specs.private.Started.{Starts};

use super::file_names::FilesToLoad;
use super::known::KnownSeries;
use super::naming::{flush_in, receiver_in};
use super::reloads::reload_in;
use super::script::{Occasion, occasion_of, whole_event};
use pr_words::{Text, split_first, without_trailing};
use spec_world::Event;
use spec_world::labels::Labels;
use spec_world::time::Ms;
use std::alloc::{AllocError, Global};

/// What a line of a script asks for.
#[derive(Debug, Drop)]
pub enum Order {
    /// Something happens in the world.
    Event { event: Event },
    /// The rule files of these names are to be loaded, and to take the place of all of before. No two
    /// of them are known by one name.
    Reload { time: Ms, files: FilesToLoad },
    /// Notices are to wait for the receiver of this name from now on. (Own choice.)
    Receiver { name: Text },
    /// The receiver of this name is to be given the notices that wait for it. (Own choice.)
    Flush { name: Text },
    /// The line spells no order, and is refused.
    Bad,
}

/// An order with the number of its line among the lines of the input, from 1.
#[derive(Debug, Drop)]
pub struct Numbered {
    pub number: u64,
    pub order: Order,
}

/// The order of a line, as far as the line alone tells it.
#[derive(Debug, Drop)]
pub enum Started {
    /// The line is the whole order.
    Whole { order: Order },
    /// A scrape, whose body is what the body lines behind this line give.
    Scrape { time: Ms, target: Labels },
}

fn event_order(event: Option<Event>) -> Order
    ensures { result ≡ event_order event }
{
    match event {
        Some(event) => Order::Event { event },
        None => Order::Bad,
    }
}

// The order that a word and what stands after it spell, where it is none that takes a body.
fn whole_order(
    alloc: Global,
    known: &mut KnownSeries,
    word: &[u8],
    text: &[u8],
) -> Result<Order, AllocError>
    ensures { IfOk result (λ order. order ≡ whole_order word.now text.now) }
{
    if word == b"reload".as_slice() {
        reload_in(alloc, text)
    } else if word == b"receiver".as_slice() {
        receiver_in(alloc, text)
    } else if word == b"flush".as_slice() {
        flush_in(alloc, text)
    } else {
        Ok(event_order(whole_event(alloc, known, word, text)?))
    }
}

/// Reads the order of a line, by what is known of series texts. The rest is as in `read_order`.
#[tactic(auto, unfolding(crate::specs::Script::takes_body))]
pub(crate) fn begin_order(
    alloc: Global,
    known: &mut KnownSeries,
    line: &[u8],
) -> Result<Started, AllocError>
    ensures { IfOk result (Starts line.now) }
{
    let (word, text) = split_first(without_trailing(line));
    if word == b"scrape".as_slice() {
        return match occasion_of(alloc, known, text)? {
            Some(Occasion { time, target }) => Ok(Started::Scrape { time, target }),
            None => Ok(Started::Whole { order: Order::Bad }),
        };
    }
    let order = whole_order(alloc, known, word, text)?;
    Ok(Started::Whole { order })
}

/// Reads the order of a line, without its line feed, that is not passed over. Want of memory alone
/// is an error.
pub fn read_order(alloc: Global, line: &[u8]) -> Result<Started, AllocError>
    ensures { IfOk result (Starts line.now) }
{
    begin_order(alloc, &mut KnownSeries::new(alloc), line)
}
