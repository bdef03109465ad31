// Annotations, printed as the pairs of a label set are, of which empty ones stay.
#![tactic(auto, using(pr_words::proofs::Fronts::front_on, pr_words::proofs::Fronts::front_after))]

ghost use Rattle.std.specs.Prelude.{◌≡◌, ◌++◌, OnOk, flat_map, length, take};
ghost use Rattle.pr_checks.specs.pr_labels.SeriesText.{pair_text, following_text, pairs_text, list_text};

use pr_checks::labels::Pair;
use pr_words::strings::write_string;
use std::alloc::AllocError;

fn push_pair(text: &mut Vec<u8>, pair: &Pair) -> Result<(), AllocError>
    ensures ok { OnOk result (text.new.items ≡ text.old.items ++ pair_text pair.now) }
    ensures front { take (length text.old.items) text.new.items ≡ text.old.items }
{
    text.extend_from_slice(pair.name.as_str().as_bytes())?;
    text.extend_from_slice(b"=")?;
    write_string(pair.value.as_str().as_bytes(), text)
}

fn push_following(text: &mut Vec<u8>, pairs: &[Pair]) -> Result<(), AllocError>
    ensures ok { OnOk result (text.new.items ≡ text.old.items ++ flat_map following_text pairs.now) }
    ensures front { take (length text.old.items) text.new.items ≡ text.old.items }
{
    for pair in pairs {
        text.extend_from_slice(b",")?;
        push_pair(text, pair)?;
    }
    Ok(())
}

fn push_pairs(text: &mut Vec<u8>, pairs: &[Pair]) -> Result<(), AllocError>
    ensures ok { OnOk result (text.new.items ≡ text.old.items ++ pairs_text pairs.now) }
    ensures front { take (length text.old.items) text.new.items ≡ text.old.items }
{
    match pairs {
        [] => Ok(()),
        [first, rest @ ..] => {
            push_pair(text, first)?;
            push_following(text, rest)
        }
    }
}

/// Appends pairs in braces, with commas between.
pub(crate) fn push_list(text: &mut Vec<u8>, pairs: &[Pair]) -> Result<(), AllocError>
    ensures ok { OnOk result (text.new.items ≡ text.old.items ++ list_text pairs.now) }
    ensures front { take (length text.old.items) text.new.items ≡ text.old.items }
{
    text.extend_from_slice(b"{")?;
    push_pairs(text, pairs)?;
    text.extend_from_slice(b"}")
}
