// The texts of series, each once.
ghost use Rattle.std.specs.Prelude.{◌≡◌, ◌<◌, ◌++◌, ℕ, List, [], length, Some, IfOk, slice_get};

use crate::packed_rows::packed_row::in_word;
use indexmap::IndexSet;
use pr_words::Text;
use std::alloc::{AllocError, Global};
use std::marker::Model;

/// The texts of series, each once, in the order in which they came. Contracts see the list.
#[derive(Debug, Drop)]
pub(crate) struct SeriesTexts {
    texts: IndexSet<Text>,
}

impl Model for SeriesTexts {
    ghost use Rattle.std.specs.Prelude.{ℕ, List};

    ghost Value = { List (List ℕ) };

    ghost view = { λ s. s.texts.keys };
}

impl SeriesTexts {
    /// None yet.
    pub(crate) fn new(alloc: Global) -> SeriesTexts
        ensures { result ≡ [] }
    {
        SeriesTexts {
            texts: IndexSet::new(alloc),
        }
    }

    /// The number of a text, which stands here from now on. Those that stood here keep theirs.
    ///
    /// # Errors
    /// Where memory runs out, or there are 2^32 texts already.
    pub(crate) fn number(&mut self, alloc: Global, text: &Text) -> Result<u32, AllocError>
        ensures stands { IfOk result (λ number. slice_get self.new number ≡ Some text.now) }
        ensures stay { (more : List (List ℕ)) × (self.new ≡ self.old ++ more) }
    {
        if let Some(number) = self.texts.get_index_of(text) {
            return in_word(number);
        }
        let number = in_word(self.texts.len())?;
        self.texts.insert(text.copy(alloc)?)?;
        Ok(number)
    }

    /// A copy of the text with a number.
    ///
    /// # Errors
    /// Where memory runs out.
    pub(crate) fn copy(&self, alloc: Global, number: usize) -> Result<Text, AllocError>
        requires { number < length self.now }
        ensures { IfOk result (λ text. slice_get self.now number ≡ Some text) }
    {
        self.texts[number].copy(alloc)
    }
}
