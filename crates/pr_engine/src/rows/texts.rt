// The printed texts of series.
ghost use Rattle.std.specs.Prelude.{◌≡◌, ◌<◌, ◌≤◌, length, IfOk, IfSome};
ghost use Rattle.pr_labels.specs.SeriesText.{series_text};
ghost use Rattle.pr_engine.specs.private.Texts.{AreSeriesTexts, AreShortTexts};

use indexmap::IndexMap;
use pr_labels::Labels;
use pr_words::Text;
use std::alloc::{AllocError, Global};
use std::marker::Model;
use std::rc::Rc;
use std::str;

// Most label sets have a printed text of no more bytes.
const TEXT_ROOM: usize = 64;

// How many texts are remembered at once, and the bytes of a text that may be. (Own choice.)
const MOST_TEXTS: usize = 65_536;

const LONGEST_TEXT: usize = 1_024;

/// The printed texts of series that were printed before, so that they are not printed again. There
/// are at most 65,536 texts of at most 1,024 bytes, so that what is remembered stays bounded: one
/// more, and it begins anew with that one, and a longer text is printed each time (own choice).
/// Contracts see nothing of them: they only save work.
///
/// Series mostly come in the order in which they came before, so behind each text that is asked for
/// the next one is expected: one comparison finds it, and no hash.
#[derive(Drop)]
pub struct PrintedTexts {
    texts: IndexMap<Labels, Text>,
    next: usize,
}

impl Model for PrintedTexts {
    ghost use Rattle.pr_engine.specs.private.Texts.{AreFewTexts};

    ghost Value = { Unit {0} };

    ghost view = { λ _. tt };

    ghost invariant = { λ s. AreFewTexts s.texts.entries };
}

// A text that is a part of a counted string, where there is memory for the count: of such a one each
// copy takes a count.
fn shared(alloc: Global, text: &str) -> Result<Text, AllocError>
    ensures { IfOk result (λ t. t ≡ text.now) }
{
    let mut shared = Text::from_str(alloc, text)?;
    if let Ok(whole) = Rc::new(alloc, String::from_str(alloc, text)?) {
        shared.become_part(&whole, 0);
    }
    Ok(shared)
}

// Prints the text of a label set. Each row of the series takes a copy.
fn printed(alloc: Global, labels: &Labels) -> Result<Text, AllocError>
    ensures { IfOk result (λ text. text ≡ series_text labels.now) }
{
    let mut bytes = Vec::with_capacity(alloc, TEXT_ROOM)?;
    labels.write(&mut bytes)?;
    shared(alloc, str::from_utf8(&bytes).unwrap())
}

// Forgets all texts where there is no room for one more.
fn make_room(texts: &mut IndexMap<Labels, Text>)
    ensures room { length texts.new.entries < 65536 }
    ensures printed { AreSeriesTexts texts.old.entries → AreSeriesTexts texts.new.entries }
    ensures short { AreShortTexts texts.old.entries → AreShortTexts texts.new.entries }
{
    if texts.len() >= MOST_TEXTS {
        texts.clear();
    }
}

impl PrintedTexts {
    /// No text is remembered yet.
    pub fn new(alloc: Global) -> PrintedTexts {
        PrintedTexts {
            texts: IndexMap::new(alloc),
            next: 0,
        }
    }

    // Where the text of a label set stands, if it is the one that is expected.
    fn expected(&self, labels: &Labels) -> Option<(usize, &Text)>
        ensures { IfSome result (λ found. found.1.now ≡ series_text labels.now) }
    {
        match self.texts.get_index(self.next) {
            Some((known, text)) if known == labels => Some((self.next, text)),
            _ => None,
        }
    }

    // Where the text of a label set stands, if it is remembered.
    fn remembered(&self, labels: &Labels) -> Option<(usize, &Text)>
        ensures { IfSome result (λ found. found.1.now ≡ series_text labels.now) }
    {
        match self.texts.get_full(labels) {
            Some((at, _known, text)) => Some((at, text)),
            None => None,
        }
    }

    // Remembers the text of a label set, which is short.
    fn remember(&mut self, labels: Labels, text: Text) -> Result<(), AllocError>
        requires printed { text ≡ series_text labels }
        requires short { length text ≤ 1024 }
    {
        make_room(&mut self.texts);
        self.texts.insert(labels, text)?;
        Ok(())
    }

    // Prints the text of a label set, and remembers it if it is not too long.
    fn print(&mut self, alloc: Global, labels: &Labels) -> Result<Text, AllocError>
        ensures { IfOk result (λ text. text ≡ series_text labels.now) }
    {
        let text = printed(alloc, labels)?;
        if text.as_str().len() <= LONGEST_TEXT {
            self.remember(labels.copy(alloc)?, text.copy(alloc)?)?;
        }
        Ok(text)
    }

    /// The printed text of a label set.
    pub(crate) fn text_of(&mut self, alloc: Global, labels: &Labels) -> Result<Text, AllocError>
        ensures { IfOk result (λ text. text ≡ series_text labels.now) }
    {
        match self.expected(labels).or_else(|| self.remembered(labels)) {
            Some((at, text)) => {
                let copy = text.copy(alloc);
                self.next = at.saturating_add(1);
                copy
            }
            None => self.print(alloc, labels),
        }
    }
}
