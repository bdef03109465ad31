// Pairs with the key by which they are compared.
ghost use Rattle.std.specs.Prelude.{◌≡◌, ◌++◌, ◌∷◌, [], drop, flat_map, string_bytes, IfOk, IfSome, OnOk};
ghost use Rattle.std.specs.List.{list_all};
ghost use Rattle.pr_labels.specs.private.OrderKey.{HasOrderKeys, IsOrderKey, has_texts_without_end, is_without_end, key_end, key_part, order_key};

use crate::pair::Pair;
use pr_words::Text;
use std::alloc::{AllocError, Global};
use std::marker::Model;
use std::rc::Rc;

// What stands behind each text of an order key.
const KEY_END: u8 = 0;

// Above so many pairs there is no order key: a set that is made label by label makes a key at each.
const MOST: usize = 64;

/// Pairs, with an order key by which they are compared in one go: their texts one behind the other.
/// With a key a text of its own becomes a part of it, so that it is held once; and a part, of this
/// key or of that of another set, is copied without memory. Pairs have no key where they are many,
/// where a text of theirs has the byte by which texts end in a key, where there was no memory for
/// it, or where none was asked for. Contracts see the list of the pairs.
#[derive(Debug, Drop)]
pub(super) struct KeyedPairs {
    pairs: Vec<Pair>,
    key: Option<OrderKey>,
}

// An order key, and at which byte of it that of all but the first pair begins.
#[derive(Debug, Drop)]
struct OrderKey {
    text: Rc<String>,
    rest: usize,
}

impl Model for KeyedPairs {
    ghost use Rattle.std.specs.Prelude.{List, string_bytes};
    ghost use Rattle.std.specs.Option.{ForSome};
    ghost use Rattle.pr_labels.specs.declared.pair.Pair.{Pair};
    ghost use Rattle.pr_labels.specs.private.OrderKey.{HasOrderKeys};

    ghost Value = { List Pair };

    ghost view = { λ k. k.pairs.items };

    ghost invariant = { λ k. ForSome k.key (λ key. HasOrderKeys (string_bytes key.text.value) key.rest k.pairs.items) };
}

fn is_without_end(text: &str) -> bool
    ensures { result ≡ is_without_end text.now }
{
    !text.as_bytes().contains(&KEY_END)
}

fn has_texts_without_end(pair: &Pair) -> bool
    ensures { result ≡ has_texts_without_end pair.now }
{
    is_without_end(pair.name.as_str()) && is_without_end(pair.value.as_str())
}

fn have_texts_without_end(pairs: &[Pair]) -> bool
    ensures { result ≡ list_all has_texts_without_end pairs.now }
{
    pairs.iter().all(has_texts_without_end)
}

fn push_text(key: &mut String, text: &str) -> Result<(), AllocError>
    ensures { OnOk result (string_bytes key.new ≡ string_bytes key.old ++ (text.now ++ key_end ∷ [])) }
{
    key.push_str(text)?;
    key.push(char::from(KEY_END))?;
    Ok(())
}

fn push_part(key: &mut String, pair: &Pair) -> Result<(), AllocError>
    ensures { OnOk result (string_bytes key.new ≡ string_bytes key.old ++ key_part pair.now) }
{
    push_text(key, pair.name.as_str())?;
    push_text(key, pair.value.as_str())
}

fn push_parts(key: &mut String, pairs: &[Pair]) -> Result<(), AllocError>
    ensures { OnOk result (string_bytes key.new ≡ string_bytes key.old ++ flat_map key_part pairs.now) }
{
    for pair in pairs {
        push_part(key, pair)?;
    }
    Ok(())
}

// How many bytes the order key of pairs has, as far as a number holds it. No clause says so: it is
// what room is asked for.
fn room_for(pairs: &[Pair]) -> usize {
    let mut room = 0usize;
    for pair in pairs {
        room = room
            .saturating_add(pair.name.as_str().len())
            .saturating_add(pair.value.as_str().len())
            .saturating_add(2);
    }
    room
}

// A text as an order key, with a count of the texts that are parts of it.
fn shared_key(alloc: Global, text: String, rest: usize) -> Result<OrderKey, AllocError>
    ensures text { IfOk result (λ k. string_bytes k.text.value ≡ string_bytes text) }
    ensures rest { IfOk result (λ k. k.rest ≡ rest) }
{
    match Rc::new(alloc, text) {
        Ok(text) => Ok(OrderKey { text, rest }),
        Err(_) => Err(AllocError),
    }
}

// The order key of pairs: that of the first, and behind it that of the others.
fn made_key(alloc: Global, pairs: &[Pair]) -> Result<OrderKey, AllocError>
    ensures whole { IfOk result (λ k. string_bytes k.text.value ≡ order_key pairs.now) }
    ensures rest { IfOk result (λ k. drop k.rest (string_bytes k.text.value) ≡ order_key (drop 1 pairs.now)) }
{
    let mut text = String::with_capacity(alloc, room_for(pairs))?;
    match pairs.split_first() {
        Some((first, others)) => {
            push_part(&mut text, first)?;
            let rest = text.len();
            push_parts(&mut text, others)?;
            shared_key(alloc, text, rest)
        }
        None => shared_key(alloc, text, 0),
    }
}

// The order key of pairs, where they have one.
#[tactic(auto, using(crate::proofs::OrderKeys::keyed_by))]
fn order_key_of(alloc: Global, pairs: &[Pair]) -> Option<OrderKey>
    ensures { IfSome result (λ k. HasOrderKeys (string_bytes k.text.value) k.rest pairs.now) }
{
    if pairs.len() > MOST || !have_texts_without_end(pairs) {
        return None;
    }
    match made_key(alloc, pairs) {
        Ok(key) => Some(key),
        Err(_) => None,
    }
}

// Makes a text of its own a part of the key at a place, and tells where the text behind it begins.
fn hold_text(text: &mut Text, key: &Rc<String>, start: usize) -> usize
    ensures { text.new ≡ text.old }
{
    text.become_part(key, start);
    start.saturating_add(text.as_str().len()).saturating_add(1)
}

// Makes the texts of pairs that are not parts yet parts of their key.
fn hold_texts(pairs: &mut [Pair], key: &Rc<String>)
    ensures { pairs.new ≡ pairs.old }
{
    let mut start = 0usize;
    for pair in pairs {
        start = hold_text(&mut pair.name, key, start);
        start = hold_text(&mut pair.value, key, start);
    }
}

impl KeyedPairs {
    /// Pairs with their order key.
    pub(super) fn new(alloc: Global, pairs: Vec<Pair>) -> KeyedPairs
        ensures { result ≡ pairs.items }
    {
        let mut pairs = pairs;
        let key = order_key_of(alloc, &pairs);
        if let Some(key) = &key {
            hold_texts(&mut pairs, &key.text);
        }
        KeyedPairs { pairs, key }
    }

    /// Pairs without one.
    pub(super) fn without_key(pairs: Vec<Pair>) -> KeyedPairs
        ensures { result ≡ pairs.items }
    {
        KeyedPairs { pairs, key: None }
    }

    /// The pairs.
    pub(super) fn as_slice(&self) -> &[Pair]
        ensures { result.now ≡ self.now }
    {
        self.pairs.as_slice()
    }

    /// The vector of the pairs.
    pub(super) fn into_vec(self) -> Vec<Pair>
        ensures { result.items ≡ self }
    {
        self.pairs
    }

    /// The order key of all pairs.
    pub(super) fn order_key(&self) -> Option<&str>
        ensures { IfSome result (λ key. IsOrderKey key.now self.now) }
    {
        match &self.key {
            Some(key) => Some(key.text.as_ref().as_str()),
            None => None,
        }
    }

    /// The order key of all but the first.
    pub(super) fn rest_order_key(&self) -> Option<&str>
        ensures { IfSome result (λ key. IsOrderKey key.now (drop 1 self.now)) }
    {
        match &self.key {
            Some(key) => key.text.as_ref().as_str().get(key.rest..),
            None => None,
        }
    }
}
