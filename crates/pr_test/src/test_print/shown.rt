// What is expected of a check, or what it gives, line by line.
#![tactic(auto, using(pr_words::proofs::Fronts::front_on, pr_words::proofs::Fronts::front_after))]

ghost use Rattle.std.specs.Prelude.{◌≡◌, ◌++◌, OnOk, codes, flat_map, length, take};
ghost use Rattle.pr_num.specs.Shown.{shown};
ghost use Rattle.pr_checks.specs.pr_labels.SeriesText.{series_text};
ghost use Rattle.pr_test.specs.FailureText.{alert_line, sample_line, line, lines_or_nothing, shown_lines};

use crate::test_print::labels::push_list;
use pr_checks::alerts_crate::RuleElement;
use pr_checks::labels::{Item, Labels};
use pr_num::Num;
use pr_text::{push_query_fault, push_value};
use pr_unit::tests_crate::Shown;
use std::alloc::AllocError;

// A label set behind the word that begins its line.
fn push_series(text: &mut Vec<u8>, word: &[u8], labels: &Labels) -> Result<(), AllocError>
    ensures ok { OnOk result (text.new.items ≡ text.old.items ++ (word.now ++ (series_text labels.now ++ codes " "))) }
    ensures front { take (length text.old.items) text.new.items ≡ text.old.items }
{
    text.extend_from_slice(word)?;
    labels.write(text)?;
    text.extend_from_slice(b" ")
}

fn push_alert(text: &mut Vec<u8>, word: &[u8], found: &RuleElement) -> Result<(), AllocError>
    ensures ok { OnOk result (text.new.items ≡ text.old.items ++ alert_line word.now found.now) }
    ensures front { take (length text.old.items) text.new.items ≡ text.old.items }
{
    push_series(text, word, &found.labels)?;
    push_list(text, found.notes.as_slice())?;
    text.extend_from_slice(b"\n")
}

fn push_sample(text: &mut Vec<u8>, word: &[u8], item: &Item<Num>) -> Result<(), AllocError>
    ensures ok { OnOk result (text.new.items ≡ text.old.items ++ sample_line word.now item.now) }
    ensures front { take (length text.old.items) text.new.items ≡ text.old.items }
{
    push_series(text, word, &item.labels)?;
    push_value(text, item.value)?;
    text.extend_from_slice(b"\n")
}

fn push_nothing(text: &mut Vec<u8>, word: &[u8]) -> Result<(), AllocError>
    ensures ok { OnOk result (text.new.items ≡ text.old.items ++ line word.now (codes "nothing")) }
    ensures front { take (length text.old.items) text.new.items ≡ text.old.items }
{
    text.extend_from_slice(word)?;
    text.extend_from_slice(b"nothing\n")
}

fn push_each_alert(text: &mut Vec<u8>, word: &[u8], list: &[RuleElement]) -> Result<(), AllocError>
    ensures ok { OnOk result (text.new.items ≡ text.old.items ++ flat_map (alert_line word.now) list.now) }
    ensures front { take (length text.old.items) text.new.items ≡ text.old.items }
{
    for found in list {
        push_alert(text, word, found)?;
    }
    Ok(())
}

fn push_each_sample(text: &mut Vec<u8>, word: &[u8], list: &[Item<Num>]) -> Result<(), AllocError>
    ensures ok { OnOk result (text.new.items ≡ text.old.items ++ flat_map (sample_line word.now) list.now) }
    ensures front { take (length text.old.items) text.new.items ≡ text.old.items }
{
    for item in list {
        push_sample(text, word, item)?;
    }
    Ok(())
}

fn push_alerts(text: &mut Vec<u8>, word: &[u8], list: &[RuleElement]) -> Result<(), AllocError>
    ensures ok { OnOk result (text.new.items ≡ text.old.items ++ lines_or_nothing word.now (alert_line word.now) list.now) }
    ensures front { take (length text.old.items) text.new.items ≡ text.old.items }
{
    match list {
        [] => push_nothing(text, word),
        [_, ..] => push_each_alert(text, word, list),
    }
}

fn push_samples(text: &mut Vec<u8>, word: &[u8], list: &[Item<Num>]) -> Result<(), AllocError>
    ensures ok { OnOk result (text.new.items ≡ text.old.items ++ lines_or_nothing word.now (sample_line word.now) list.now) }
    ensures front { take (length text.old.items) text.new.items ≡ text.old.items }
{
    match list {
        [] => push_nothing(text, word),
        [_, ..] => push_each_sample(text, word, list),
    }
}

/// Appends the lines of what is expected or comes, each behind this word.
pub(crate) fn push_shown(text: &mut Vec<u8>, word: &[u8], shown: &Shown) -> Result<(), AllocError>
    ensures ok { OnOk result (text.new.items ≡ text.old.items ++ shown_lines word.now shown.now) }
    ensures front { take (length text.old.items) text.new.items ≡ text.old.items }
{
    match shown {
        Shown::Alerts { list } => push_alerts(text, word, list.as_slice()),
        Shown::Samples { list } => push_samples(text, word, list.as_slice()),
        Shown::Fault { place, kind } => {
            text.extend_from_slice(word)?;
            push_query_fault(text, place.start, kind)
        }
    }
}
