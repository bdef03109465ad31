// Series texts that come again.
ghost use Rattle.std.specs.Prelude.{◌≡◌, ◌<◌, length, IfOk, IfSome, Some};
ghost use Rattle.spec_world.specs.pr_labels.SeriesReading.{series_labels};
ghost use Rattle.pr_text.specs.private.Known.{AreFewKnown, AreKnown};

use indexmap::IndexMap;
use spec_world::labels::Labels;
use spec_world::labels::series::{TextFault, read_series_text};
use std::alloc::{AllocError, Global};
use std::marker::Model;

// How many texts are remembered at once, and the bytes of a text that may be. (Own choice.)
const MOST_TEXTS: usize = 65_536;

const LONGEST_TEXT: usize = 1_024;

/// The label sets of series texts that were read, so that a text that comes again is not read again.
/// It remembers texts of 1,024 bytes at most, and 65,536 of them: where one more comes, it forgets
/// all and begins anew (own choice). So its memory stays bounded. It saves work, and changes no
/// answer: contracts see nothing of what it remembers.
#[derive(Drop)]
pub struct KnownSeries {
    sets: IndexMap<String, Labels>,
}

impl Model for KnownSeries {
    ghost use Rattle.pr_text.specs.private.Known.{AreFewKnown};

    ghost Value = { Unit {0} };

    ghost view = { λ _. tt };

    ghost invariant = { λ k. AreFewKnown k.sets };
}

// The label set of a series text.
fn labels_read(alloc: Global, text: &str) -> Result<Option<Labels>, AllocError>
    ensures { IfOk result (λ o. o ≡ series_labels text.now) }
{
    match read_series_text(alloc, text) {
        Ok(labels) => Ok(Some(labels)),
        Err(TextFault::BadLabels { .. }) => Ok(None),
        Err(TextFault::Memory) => Err(AllocError),
    }
}

// The label set of a text, where it is remembered.
fn known_in<'a>(sets: &'a IndexMap<String, Labels>, text: &str) -> Option<&'a Labels>
    requires { AreKnown sets.now }
    ensures { IfSome result (λ labels. series_labels text.now ≡ Some labels.now) }
{
    sets.get(text)
}

// Forgets all texts where there is no room for one more.
fn make_room(sets: &mut IndexMap<String, Labels>)
    requires { AreFewKnown sets.old }
    ensures room { length sets.new.entries < 65536 }
    ensures known { AreFewKnown sets.new }
{
    if sets.len() >= MOST_TEXTS {
        sets.clear();
    }
}

// Remembers the label set of a text that is not too long.
#[tactic(auto, using(crate::proofs::KnownTexts::one_more_known))]
fn remember(
    alloc: Global,
    sets: &mut IndexMap<String, Labels>,
    text: &str,
    labels: Labels,
) -> Result<(), AllocError>
    requires known { AreFewKnown sets.old }
    requires read { series_labels text.now ≡ Some labels }
    ensures { AreFewKnown sets.new }
{
    if text.len() > LONGEST_TEXT {
        return Ok(());
    }
    let text = String::from_str(alloc, text)?;
    make_room(sets);
    sets.insert(text, labels)?;
    Ok(())
}

impl KnownSeries {
    /// No text was read yet.
    pub fn new(alloc: Global) -> KnownSeries {
        KnownSeries {
            sets: IndexMap::new(alloc),
        }
    }

    // The label set of a text, where it is remembered.
    fn known(&self, alloc: Global, text: &str) -> Result<Option<Labels>, AllocError>
        ensures { IfOk result (λ o. IfSome o (λ labels. series_labels text.now ≡ Some labels)) }
    {
        match known_in(&self.sets, text) {
            Some(labels) => Ok(Some(labels.copy(alloc)?)),
            None => Ok(None),
        }
    }

    // The label set of a text that is not remembered, and is from now on, if it is not too long.
    fn read(&mut self, alloc: Global, text: &str) -> Result<Option<Labels>, AllocError>
        ensures { IfOk result (λ o. o ≡ series_labels text.now) }
    {
        match labels_read(alloc, text)? {
            Some(labels) => {
                remember(alloc, &mut self.sets, text, labels.copy(alloc)?)?;
                Ok(Some(labels))
            }
            None => Ok(None),
        }
    }

    /// The label set of a series text, where it is one. Want of memory alone is an error.
    pub fn labels_of(&mut self, alloc: Global, text: &str) -> Result<Option<Labels>, AllocError>
        ensures { IfOk result (λ o. o ≡ series_labels text.now) }
    {
        match self.known(alloc, text)? {
            Some(labels) => Ok(Some(labels)),
            None => self.read(alloc, text),
        }
    }
}
