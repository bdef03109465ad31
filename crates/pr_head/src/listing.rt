// Series in label order.
use pr_labels::{Labels, Pair};
use std::alloc::{AllocError, Global};
use std::collections::BTreeMap;
use std::marker::Model;
use std::mem;

/// Series by their labels, each with its number. Contracts see them in label order.
#[derive(Drop)]
pub(crate) struct Listing {
    numbers: Numbers,
    alloc: Global,
}

// One series alone wants no map. A map stays one, also where one series is left in it.
#[derive(Drop)]
enum Numbers {
    One { labels: Labels, number: usize },
    Many { numbers: BTreeMap<Labels, usize> },
}

impl Model for Listing {
    ghost use Rattle.std.specs.Prelude.{ℕ, List};
    ghost use Rattle.pr_labels.specs.declared.pair.Pair.{Pair};
    ghost use Rattle.pr_head.specs.private.Listings.{numbers_in};

    ghost Value = { List (List Pair × ℕ) };

    ghost view = { λ l. numbers_in l.numbers };
}

ghost use Rattle.std.specs.Prelude.{◌≡◌, [], ◌∷◌, filter, length, unwrap_or, IfOk, IfErr, IsOk, OnOk, OnErr};
ghost use Rattle.std.specs.Option.{option_copied};
ghost use Rattle.std.specs.Map.{remove_entry, values_of};
ghost use Rattle.std.specs.BTreeMap.{insert_entry, is_at};
ghost use Rattle.pr_labels.specs.LabelSet.{text_at};
ghost use Rattle.pr_labels.specs.Order.{labels_cmp};
ghost use Rattle.spec_history.specs.private.Laws.{has_values};
ghost use Rattle.pr_head.specs.private.Listings.{numbers_in};

// The value of a name, empty where the set has not the name.
fn text_at<'a>(labels: &'a Labels, name: &str) -> &'a str
    ensures { result.now ≡ text_at labels.now name.now }
{
    labels.get(name).unwrap_or("")
}

// Whether a label set has each of the values.
fn has_values(equal: &[Pair], labels: &Labels) -> bool
    ensures { result ≡ has_values equal.now labels.now }
{
    for pair in equal {
        if text_at(labels, pair.name.as_str()) != pair.value.as_str() {
            return false;
        }
    }
    true
}

// The map of some series. Without memory they come back.
fn map_of(alloc: Global, numbers: Numbers) -> Result<BTreeMap<Labels, usize>, Numbers>
    ensures ok { IfOk result (λ map. map.entries ≡ numbers_in numbers) }
    ensures err { IfErr result (λ same. numbers_in same ≡ numbers_in numbers) }
{
    match numbers {
        Numbers::Many { numbers } => Ok(numbers),
        Numbers::One { labels, number } => {
            let mut map = BTreeMap::new(alloc);
            match map.insert(labels, number) {
                Ok(_) => Ok(map),
                Err(refused) => {
                    let (labels, number) = refused.value;
                    Err(Numbers::One { labels, number })
                }
            }
        }
    }
}

// One number alone.
fn alone(alloc: Global, number: usize) -> Result<Vec<usize>, AllocError>
    ensures { IfOk result (λ v. v.items ≡ number ∷ []) }
{
    let mut numbers = Vec::with_capacity(alloc, 1)?;
    numbers.push(number)?;
    Ok(numbers)
}

// The numbers of all in a map, in label order.
fn all_in(alloc: Global, map: &BTreeMap<Labels, usize>) -> Result<Vec<usize>, AllocError>
    ensures { IfOk result (λ v. v.items ≡ values_of map.now.entries) }
{
    let mut numbers = Vec::with_capacity(alloc, map.len())?;
    for number in map.values() {
        numbers.push(*number)?;
    }
    Ok(numbers)
}

// The numbers of those in a map that have each of the values, in label order.
fn chosen_in(
    alloc: Global,
    map: &BTreeMap<Labels, usize>,
    equal: &[Pair],
) -> Result<Vec<usize>, AllocError>
    ensures { IfOk result (λ v. v.items ≡ values_of (filter (λ e. has_values equal.now e.0) map.now.entries)) }
{
    let mut chosen = Vec::new(alloc);
    for (labels, number) in map {
        if has_values(equal, labels) {
            chosen.push(*number)?;
        }
    }
    Ok(chosen)
}

impl Listing {
    /// No series.
    pub(crate) fn new(alloc: Global) -> Listing
        ensures { result ≡ [] }
    {
        Listing {
            numbers: Numbers::Many {
                numbers: BTreeMap::new(alloc),
            },
            alloc,
        }
    }

    /// How many there are.
    pub(crate) fn len(&self) -> usize
        ensures { result ≡ length self.now }
    {
        match &self.numbers {
            Numbers::One { .. } => 1,
            Numbers::Many { numbers } => numbers.len(),
        }
    }

    // Takes all series out.
    fn take(&mut self) -> Numbers
        ensures taken { numbers_in result ≡ self.old }
        ensures none { self.new ≡ [] }
    {
        let none = Numbers::Many {
            numbers: BTreeMap::new(self.alloc),
        };
        mem::replace(&mut self.numbers, none)
    }

    // One more series beside one that stands alone: a map is made of both.
    fn insert_in_map(&mut self, labels: Labels, number: usize) -> Result<(), AllocError>
        ensures ok { OnOk result (self.new ≡ insert_entry labels_cmp self.old labels number) }
        ensures err { OnErr result (self.new ≡ self.old) }
    {
        match map_of(self.alloc, self.take()) {
            Ok(mut map) => {
                let inserted = map.insert(labels, number);
                self.numbers = Numbers::Many { numbers: map };
                inserted?;
                Ok(())
            }
            Err(same) => {
                self.numbers = same;
                Err(AllocError)
            }
        }
    }

    /// One more series, at its place in label order. The first one takes no memory.
    pub(crate) fn insert(&mut self, labels: Labels, number: usize) -> Result<(), AllocError>
        ensures ok { OnOk result (self.new ≡ insert_entry labels_cmp self.old labels number) }
        ensures err { OnErr result (self.new ≡ self.old) }
        ensures first { self.old ≡ [] → IsOk result }
    {
        if self.len() == 0 {
            self.numbers = Numbers::One { labels, number };
            return Ok(());
        }
        match &mut self.numbers {
            Numbers::Many { numbers } => {
                numbers.insert(labels, number)?;
                Ok(())
            }
            Numbers::One { .. } => self.insert_in_map(labels, number),
        }
    }

    /// Without the series with these labels. Takes no memory.
    pub(crate) fn remove(&mut self, labels: &Labels)
        ensures { self.new ≡ remove_entry (is_at (labels_cmp labels.now)) self.old }
    {
        match &mut self.numbers {
            Numbers::One { labels: one, .. } => {
                if labels.cmp(one).is_eq() {
                    let _one = self.take();
                }
            }
            Numbers::Many { numbers } => {
                numbers.remove(labels);
            }
        }
    }

    // The numbers of all, in label order.
    fn all(&self, alloc: Global) -> Result<Vec<usize>, AllocError>
        ensures { IfOk result (λ v. v.items ≡ values_of self.now) }
    {
        match &self.numbers {
            Numbers::One { number, .. } => alone(alloc, *number),
            Numbers::Many { numbers } => all_in(alloc, numbers),
        }
    }

    // The numbers of those that have each of the values, in label order.
    fn chosen(&self, alloc: Global, equal: &[Pair]) -> Result<Vec<usize>, AllocError>
        ensures { IfOk result (λ v. v.items ≡ values_of (filter (λ e. has_values equal.now e.0) self.now)) }
    {
        match &self.numbers {
            Numbers::One { labels, number } => {
                if has_values(equal, labels) {
                    alone(alloc, *number)
                } else {
                    Ok(Vec::new(alloc))
                }
            }
            Numbers::Many { numbers } => chosen_in(alloc, numbers, equal),
        }
    }
}

/// The numbers of some series, in label order.
pub(crate) fn all_of(alloc: Global, listing: Option<&Listing>) -> Result<Vec<usize>, AllocError>
    ensures { IfOk result (λ v. v.items ≡ values_of (unwrap_or (option_copied listing.entry) [])) }
{
    match listing {
        Some(listing) => listing.all(alloc),
        None => Ok(Vec::new(alloc)),
    }
}

/// The numbers of those of some series that have each of the values, in label order.
pub(crate) fn chosen_among(
    alloc: Global,
    listing: Option<&Listing>,
    equal: &[Pair],
) -> Result<Vec<usize>, AllocError>
    ensures { IfOk result (λ v. v.items ≡ values_of (filter (λ e. has_values equal.now e.0) (unwrap_or (option_copied listing.entry) []))) }
{
    match listing {
        Some(listing) => listing.chosen(alloc, equal),
        None => Ok(Vec::new(alloc)),
    }
}
