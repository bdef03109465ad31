// Functions that set a label of each element.
ghost use Rattle.std.specs.Prelude.{◌≡◌, true, Ok, Err, IfOk, IfSome, MatchResult, OnOk, string_bytes};
ghost use Rattle.pr_match.specs.pr_labels.Edits.{set_label};
ghost use Rattle.pr_match.specs.pr_labels.LabelSet.{text_at};
ghost use Rattle.pr_match.specs.pr_labels.Names.{is_label_name};
ghost use Rattle.pr_match.specs.Pattern.{expanded};
ghost use Rattle.spec_vectors.specs.private.Laws.{IsVector};
ghost use Rattle.spec_vectors.specs.LabelFunctions.{joined_text, label_joined, label_replaced, set_if_any};
ghost use Rattle.pr_fn.specs.private.Faults.{function_told};
ghost use Rattle.pr_fn.specs.private.Separated.{with_rest};

use crate::fn_fault::FnFault;
use crate::rows::{no_rows, put, told_apart};
use pr_match::labels::{Item, Labels};
use pr_match::words_crate::Text;
use pr_match::{Expander, Pattern};
use pr_num::Num;
use std::alloc::{AllocError, Global};

// The text of a label, empty where the set has it not.
pub(crate) fn text_at<'a>(labels: &'a Labels, name: &str) -> &'a str
    ensures { result.now ≡ text_at labels.now name.now }
{
    match labels.get(name) {
        Some(text) => text,
        None => "",
    }
}

// The labels with one of them set.
fn with_label(alloc: Global, labels: &Labels, name: &str, text: &str) -> Result<Labels, AllocError>
    requires { is_label_name name.now ≡ true }
    ensures { IfOk result (λ l. l ≡ set_label labels.now name.now text.now) }
{
    let mut others = labels.copy(alloc)?;
    others.assign(alloc, name, text)?;
    Ok(others)
}

// The labels with one of them set to what a pattern and a template make of another.
fn with_expansion(
    alloc: Global,
    expander: &mut Expander<'_>,
    labels: &Labels,
    dst: &str,
    src: &str,
) -> Result<Labels, AllocError>
    requires { is_label_name dst.now ≡ true }
    ensures made { IfOk result (λ l. l ≡ set_if_any labels.now dst.now (expanded expander.old.pattern (text_at labels.now src.now) expander.old.template)) }
    ensures same { expander.new ≡ expander.old }
{
    match expander.expand(alloc, text_at(labels, src))? {
        None => labels.copy(alloc),
        Some(text) => with_label(alloc, labels, dst, text.as_str()),
    }
}

/// The elements with the label `dst` set to the expanded template, where the pattern matches the
/// whole text of the label `src`; other elements stay. An absent label is the empty text, and an
/// empty expansion removes the label. (Prometheus: Querying, Functions, `label_replace`; which
/// texts are patterns is that of `pr_match`.)
///
/// # Errors
/// `SameLabels` exactly where two elements come to have equal labels, with the least such. `Memory`
/// where memory runs out.
pub fn label_replace(
    alloc: Global,
    vector: &[Item<Num>],
    dst: &str,
    template: &str,
    src: &str,
    pattern: &Pattern,
) -> Result<Vec<Item<Num>>, FnFault>
    requires { is_label_name dst.now ≡ true }
    ensures replaced { MatchResult result
        (λ v. label_replaced dst.now src.now (λ text. expanded pattern.now text template.now) vector.now ≡ Ok v.items)
        (λ e. IfSome (function_told e) (λ fault. label_replaced dst.now src.now (λ text. expanded pattern.now text template.now) vector.now ≡ Err fault)) }
    ensures vector { IfOk result (λ v. IsVector v.items) }
{
    let mut expander = pattern.expander(alloc, template)?;
    let mut rows = no_rows(alloc, vector.len())?;
    for item in vector {
        let labels = with_expansion(alloc, &mut expander, &item.labels, dst, src)?;
        put(&mut rows, labels, item.value)?;
    }
    told_apart(rows)
}

// Puts the texts of labels behind a text, each after a separator.
fn push_rest(
    text: &mut String,
    labels: &Labels,
    separator: &str,
    names: &[Text],
) -> Result<(), AllocError>
    ensures { OnOk result (string_bytes text.new ≡ with_rest separator.now labels.now (string_bytes text.old) names.now) }
{
    for name in names {
        text.push_str(separator)?;
        text.push_str(text_at(labels, name.as_str()))?;
    }
    Ok(())
}

// The texts of some labels with a separator between each two.
#[tactic(auto, using(crate::proofs::Separating::rest_separated))]
fn joined_text(
    alloc: Global,
    labels: &Labels,
    separator: &str,
    names: &[Text],
) -> Result<String, AllocError>
    ensures { IfOk result (λ s. string_bytes s ≡ joined_text separator.now names.now labels.now) }
{
    match names {
        [] => Ok(String::new(alloc)),
        [first, rest @ ..] => {
            let mut text = String::from_str(alloc, text_at(labels, first.as_str()))?;
            push_rest(&mut text, labels, separator, rest)?;
            Ok(text)
        }
    }
}

/// The elements with the label `dst` set to the texts of the labels `names` with the separator
/// between each two. An absent label is the empty text, and an empty result removes the label.
/// (Prometheus: Querying, Functions, `label_join`.)
///
/// # Errors
/// `SameLabels` exactly where two elements come to have equal labels, with the least such. `Memory`
/// where memory runs out.
pub fn label_join(
    alloc: Global,
    vector: &[Item<Num>],
    dst: &str,
    separator: &str,
    names: &[Text],
) -> Result<Vec<Item<Num>>, FnFault>
    requires { is_label_name dst.now ≡ true }
    ensures joined { MatchResult result
        (λ v. label_joined dst.now separator.now names.now vector.now ≡ Ok v.items)
        (λ e. IfSome (function_told e) (λ fault. label_joined dst.now separator.now names.now vector.now ≡ Err fault)) }
    ensures vector { IfOk result (λ v. IsVector v.items) }
{
    let mut rows = no_rows(alloc, vector.len())?;
    for item in vector {
        let text = joined_text(alloc, &item.labels, separator, names)?;
        let labels = with_label(alloc, &item.labels, dst, text.as_str())?;
        put(&mut rows, labels, item.value)?;
    }
    told_apart(rows)
}
