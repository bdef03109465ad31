// The printed text of a label set.
#![tactic(auto, using(pr_words::proofs::Fronts::front_on, pr_words::proofs::Fronts::front_after))]

ghost use Rattle.std.specs.Prelude.{◌≡◌, ◌++◌, ◌∷◌, List, IfOk, OnOk, OnErr, flat_map, length, take};
ghost use Rattle.pr_words.specs.private.Reader.{KeepsText};
ghost use Rattle.pr_labels.specs.LabelSet.{has_name, metric_label};
ghost use Rattle.pr_labels.specs.SeriesText.{pair_text, following_text, pairs_text, list_text, rest_text, opening, left_text, unnamed, series_text};
ghost use Rattle.pr_labels.specs.declared.pair.Pair.{Pair};

use crate::labels::{Labels, METRIC_LABEL};
use crate::names::is_metric_name;
use crate::pair::Pair;
use pr_words::strings::write_string;
use std::alloc::AllocError;

// Each function appends; without memory what it appended so far stands, and is a text.

fn push_pair(out: &mut Vec<u8>, pair: &Pair) -> Result<(), AllocError>
    ensures ok { OnOk result (out.new.items ≡ out.old.items ++ pair_text pair.now) }
    ensures text { KeepsText out.old.items out.new.items }
    ensures front { take (length out.old.items) out.new.items ≡ out.old.items }
{
    out.extend_from_slice(pair.name.as_str().as_bytes())?;
    out.extend_from_slice(b"=")?;
    write_string(pair.value.as_str().as_bytes(), out)
}

fn push_following(out: &mut Vec<u8>, pairs: &[Pair]) -> Result<(), AllocError>
    ensures ok { OnOk result (out.new.items ≡ out.old.items ++ flat_map following_text pairs.now) }
    ensures text { KeepsText out.old.items out.new.items }
    ensures front { take (length out.old.items) out.new.items ≡ out.old.items }
{
    for pair in pairs {
        out.extend_from_slice(b",")?;
        push_pair(out, pair)?;
    }
    Ok(())
}

fn push_pairs(out: &mut Vec<u8>, pairs: &[Pair]) -> Result<(), AllocError>
    ensures ok { OnOk result (out.new.items ≡ out.old.items ++ pairs_text pairs.now) }
    ensures text { KeepsText out.old.items out.new.items }
    ensures front { take (length out.old.items) out.new.items ≡ out.old.items }
{
    match pairs {
        [] => Ok(()),
        [first, rest @ ..] => {
            push_pair(out, first)?;
            push_following(out, rest)
        }
    }
}

// The pairs in braces.
fn push_list(out: &mut Vec<u8>, pairs: &[Pair]) -> Result<(), AllocError>
    ensures ok { OnOk result (out.new.items ≡ out.old.items ++ list_text pairs.now) }
    ensures text { KeepsText out.old.items out.new.items }
    ensures front { take (length out.old.items) out.new.items ≡ out.old.items }
{
    out.extend_from_slice(b"{")?;
    push_pairs(out, pairs)?;
    out.extend_from_slice(b"}")
}

fn is_metric_pair(pair: &Pair) -> bool
    ensures { result ≡ has_name metric_label pair.now }
{
    pair.name.as_str() == METRIC_LABEL
}

// What stands before a pair: a comma, or the brace of the list that it starts.
fn push_separator(out: &mut Vec<u8>, started: bool) -> Result<(), AllocError>
    ensures ok { OnOk result (out.new.items ≡ out.old.items ++ opening started) }
    ensures text { KeepsText out.old.items out.new.items }
    ensures front { take (length out.old.items) out.new.items ≡ out.old.items }
{
    if started {
        out.extend_from_slice(b",")
    } else {
        out.extend_from_slice(b"{")
    }
}

// One more pair of a list, unless it is that of the metric's name. Answers whether the list has
// started.
fn push_other(out: &mut Vec<u8>, started: bool, pair: &Pair) -> Result<bool, AllocError>
    ensures ok { IfOk result (λ s. (ps : List Pair) → out.new.items ++ left_text s ps ≡ out.old.items ++ left_text started (pair.now ∷ ps)) }
    ensures text { KeepsText out.old.items out.new.items }
    ensures front { take (length out.old.items) out.new.items ≡ out.old.items }
{
    if is_metric_pair(pair) {
        return Ok(started);
    }
    push_separator(out, started)?;
    push_pair(out, pair)?;
    Ok(true)
}

// The pairs but that of the metric's name, in braces where there are any.
fn push_rest(out: &mut Vec<u8>, pairs: &[Pair]) -> Result<(), AllocError>
    ensures ok { OnOk result (out.new.items ≡ out.old.items ++ rest_text (unnamed pairs.now)) }
    ensures text { KeepsText out.old.items out.new.items }
    ensures front { take (length out.old.items) out.new.items ≡ out.old.items }
{
    let mut started = false;
    for pair in pairs {
        started = push_other(out, started, pair)?;
    }
    if started {
        out.extend_from_slice(b"}")
    } else {
        Ok(())
    }
}

// The metric's name, and then the other pairs.
fn push_named(out: &mut Vec<u8>, name: &str, pairs: &[Pair]) -> Result<(), AllocError>
    ensures ok { OnOk result (out.new.items ≡ out.old.items ++ (name.now ++ rest_text (unnamed pairs.now))) }
    ensures text { KeepsText out.old.items out.new.items }
    ensures front { take (length out.old.items) out.new.items ≡ out.old.items }
{
    out.extend_from_slice(name.as_bytes())?;
    push_rest(out, pairs)
}

// The printed text, without memory a part of it.
#[tactic(auto, unfolding(crate::specs::SeriesText::series_text))]
fn push_labels(out: &mut Vec<u8>, labels: &Labels) -> Result<(), AllocError>
    ensures ok { OnOk result (out.new.items ≡ out.old.items ++ series_text labels.now) }
    ensures text { KeepsText out.old.items out.new.items }
    ensures front { take (length out.old.items) out.new.items ≡ out.old.items }
{
    match labels.get(METRIC_LABEL) {
        Some(name) if is_metric_name(name.as_bytes()) => push_named(out, name, labels.pairs()),
        _ => push_list(out, labels.pairs()),
    }
}

impl Labels {
    /// Appends the printed text: the metric's name first where it is a classic name, and the other
    /// labels in braces, in order of name. Without memory nothing is appended.
    pub fn write(&self, out: &mut Vec<u8>) -> Result<(), AllocError>
        ensures ok { OnOk result (out.new.items ≡ out.old.items ++ series_text self.now) }
        ensures err { OnErr result (out.new.items ≡ out.old.items) }
        // A text goes on as a text.
        ensures text { KeepsText out.old.items out.new.items }
    {
        let before = out.len();
        let written = push_labels(out, self);
        if written.is_err() {
            out.truncate(before);
        }
        written
    }
}
