// The entries of a map that a reader has found.
ghost use Rattle.std.specs.Prelude.{◌≡◌, ◌++◌, ◌∷◌, [], ℕ, List, IfOk, map};
ghost use Rattle.pr_words.specs.Names.{is_among, knows};
ghost use Rattle.pr_yaml.specs.Tree.{tree_of, entry_tree_of};
ghost use Rattle.pr_yaml.specs.private.Reader.{keys_in};

use crate::node::{MapEntry, Node};
use pr_words::Text;
use std::alloc::{AllocError, Global};
use std::collections::BTreeSet;

/// Entries in the order of their text, and their keys, so that a key is looked up in few steps.
#[derive(Drop)]
pub(crate) struct EntriesSoFar<'a> {
    pub(crate) entries: Vec<MapEntry>,
    keys: BTreeSet<&'a [u8]>,
    ghost known: { (key : List ℕ) → knows keys key ≡ is_among key (keys_in entries.items) },
}

impl<'a> EntriesSoFar<'a> {
    /// No entries.
    pub(crate) fn empty(alloc: Global) -> EntriesSoFar<'a>
        ensures { result.entries.items ≡ [] }
    {
        EntriesSoFar {
            entries: Vec::new(alloc),
            keys: BTreeSet::new(alloc),
        }
    }

    /// Whether an entry has the key.
    pub(crate) fn has(&self, key: &str) -> bool
        ensures { result ≡ is_among key.now (keys_in self.now.entries.items) }
    {
        self.keys.contains(key.as_bytes())
    }

    /// The entries with one more.
    pub(crate) fn with(
        self,
        alloc: Global,
        key: &'a str,
        line: u32,
        value: Node,
    ) -> Result<EntriesSoFar<'a>, AllocError>
        ensures { IfOk result (λ f. map entry_tree_of f.entries.items ≡ map entry_tree_of self.entry.entries.items ++ record { key = key.now; line = line; value = tree_of value } ∷ []) }
    {
        let EntriesSoFar {
            mut entries,
            mut keys,
        } = self;
        let entry = entry_made(alloc, key, line, value)?;
        keys.insert(key.as_bytes())?;
        entries.push(entry)?;
        Ok(EntriesSoFar { entries, keys })
    }
}

/// An entry.
fn entry_made(alloc: Global, key: &str, line: u32, value: Node) -> Result<MapEntry, AllocError>
    ensures { IfOk result (λ e. entry_tree_of e ≡ record { key = key.now; line = line; value = tree_of value }) }
{
    Ok(MapEntry {
        key: Text::from_str(alloc, key)?,
        line,
        value,
    })
}
