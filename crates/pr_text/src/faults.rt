// The printed kinds of faults that an expression gives.
#![tactic(auto, using(pr_words::proofs::Fronts::front_on, pr_words::proofs::Fronts::front_after))]

ghost use Rattle.std.specs.Prelude.{◌≡◌, ◌++◌, OnOk, codes, length, take};
ghost use Rattle.spec_world.specs.pr_labels.SeriesText.{series_text};
ghost use Rattle.pr_text.specs.Faults.{fault_word, fault_rest, fault_text};

use pr_words::push_number_after;
use spec_world::labels::Labels;
use spec_world::meaning::FaultKind;
use std::alloc::AllocError;

#[tactic(auto, unfolding(crate::specs::Faults::fault_word))]
fn fault_word(kind: &FaultKind) -> &'static str
    ensures { result.now ≡ fault_word kind.now }
{
    match kind {
        FaultKind::ManyToMany { .. } => "ManyToMany",
        FaultKind::NotUnique { .. } => "NotUnique",
        FaultKind::SameLabels { .. } => "SameLabels",
        FaultKind::RangeTooLong { .. } => "RangeTooLong",
        FaultKind::TooWide => "TooWide",
    }
}

fn push_labels_after(text: &mut Vec<u8>, labels: &Labels) -> Result<(), AllocError>
    ensures ok { OnOk result (text.new.items ≡ text.old.items ++ (codes " " ++ series_text labels.now)) }
    ensures front { take (length text.old.items) text.new.items ≡ text.old.items }
{
    text.extend_from_slice(b" ")?;
    labels.write(text)
}

fn push_fault_rest(text: &mut Vec<u8>, kind: &FaultKind) -> Result<(), AllocError>
    ensures ok { OnOk result (text.new.items ≡ text.old.items ++ fault_rest kind.now) }
    ensures front { take (length text.old.items) text.new.items ≡ text.old.items }
{
    match kind {
        FaultKind::ManyToMany { key } => push_labels_after(text, key),
        FaultKind::NotUnique { labels } => push_labels_after(text, labels),
        FaultKind::SameLabels { labels } => push_labels_after(text, labels),
        FaultKind::RangeTooLong { have } => push_number_after(text, *have),
        FaultKind::TooWide => Ok(()),
    }
}

// The kind of a fault of an expression, without memory a part of it.
pub(crate) fn push_fault_kind(text: &mut Vec<u8>, kind: &FaultKind) -> Result<(), AllocError>
    ensures ok { OnOk result (text.new.items ≡ text.old.items ++ fault_text kind.now) }
    ensures front { take (length text.old.items) text.new.items ≡ text.old.items }
{
    text.extend_from_slice(fault_word(kind).as_bytes())?;
    push_fault_rest(text, kind)
}
