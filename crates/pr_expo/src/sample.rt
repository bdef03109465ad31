// The sample of a line.
ghost use Rattle.std.specs.Prelude.{◌≡◌, ℕ, ◌≤◌, ◌∷◌, IfOk};
ghost use Rattle.std.specs.Option.{option_map};
ghost use Rattle.std.specs.Str.Parse.{signed_digits_value};
ghost use Rattle.pr_labels.specs.LabelSet.{metric_label, pair_of};
ghost use Rattle.pr_labels.specs.Edits.{labels_of};
ghost use Rattle.pr_num.specs.Reads.{reads};
ghost use Rattle.pr_expo.specs.Families.{value_by};
ghost use Rattle.pr_expo.specs.private.Sound.{HasDistinctNames, IsSignedDigits, IsTime};

use crate::expo_line::LineHead;
use pr_labels::words_crate::Text;
use pr_labels::{Labels, METRIC_LABEL, Pair};
use pr_num::Num;
use std::alloc::{AllocError, Global};

// The label set of a name and the labels of its list.
pub(crate) fn labels_of(alloc: Global, head: LineHead) -> Result<Labels, AllocError>
    requires { HasDistinctNames head }
    ensures { IfOk result (λ l. l ≡ labels_of (pair_of metric_label head.name ∷ head.labels)) }
{
    let LineHead { name, labels } = head;
    let mut pairs = labels.into_vec();
    pairs.insert(
        0,
        Pair {
            name: Text::from_str(alloc, METRIC_LABEL)?,
            value: name,
        },
    )?;
    Labels::from_distinct_without_key(pairs)
}

// The value of a number text, unless it is too wide.
pub(crate) fn value_of(number: &Text) -> Option<Num>
    ensures { result ≡ value_by (reads number.now) }
{
    pr_num::read(number.as_str().as_bytes()).ok()
}

// The time of a sign and digits.
#[tactic(auto, using(crate::proofs::Times::time_parses))]
fn time_in(text: &Text) -> Option<i64>
    requires { (count : ℕ) × ((count ≤ 18) × IsSignedDigits text.now count) }
    ensures { result ≡ Some (signed_digits_value 10 text.now) }
{
    text.as_str().parse::<i64>().ok()
}

// The time of a sample, where it has one.
pub(crate) fn time_of(time: Option<Text>) -> Option<i64>
    requires { IsTime time }
    ensures { result ≡ option_map (signed_digits_value 10) time }
{
    match time {
        Some(text) => time_in(&text),
        None => None,
    }
}
