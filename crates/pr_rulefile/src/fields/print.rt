// The printed kinds of problems.
#![tactic(auto, using(pr_words::proofs::Fronts::front_on, pr_words::proofs::Fronts::front_after))]

ghost use Rattle.std.specs.Prelude.{◌≡◌, ◌++◌, OnOk, length, take};
ghost use Rattle.pr_rulefile.specs.Printed.{name_text, own_word, problem_rest, problem_text, problem_word, yaml_word};

use crate::fields::problem::ProblemKind;
use pr_parse::push_query_kind;
use pr_words::push_number_after;
use pr_words::strings::write_string;
use pr_yaml::yaml_scan::YamlKind;
use std::alloc::AllocError;

#[tactic(auto, unfolding(crate::specs::Printed::yaml_word))]
fn yaml_word(kind: YamlKind) -> &'static str
    ensures { result.now ≡ yaml_word kind }
{
    match kind {
        YamlKind::NotText => "NotText",
        YamlKind::Tab => "Tab",
        YamlKind::Anchor => "Anchor",
        YamlKind::Alias => "Alias",
        YamlKind::Tag => "Tag",
        YamlKind::ComplexKey => "ComplexKey",
        YamlKind::Directive => "Directive",
        YamlKind::Documents => "Documents",
        YamlKind::Indicator => "Indicator",
        YamlKind::Quote => "Quote",
        YamlKind::Escape => "Escape",
        YamlKind::Indent => "Indent",
        YamlKind::Colon => "Colon",
        YamlKind::Flow => "Flow",
        YamlKind::Extra => "Extra",
        YamlKind::DuplicateKey => "DuplicateKey",
        YamlKind::TooDeep => "TooDeep",
    }
}

// The name of a kind that stands alone; nothing of one that is told as another kind.
#[tactic(auto, unfolding(crate::specs::Printed::own_word))]
fn own_word(kind: &ProblemKind) -> &'static str
    ensures { result.now ≡ own_word kind.now }
{
    match kind {
        ProblemKind::WantMap => "WantMap",
        ProblemKind::WantList => "WantList",
        ProblemKind::WantText => "WantText",
        ProblemKind::UnknownField { .. } => "UnknownField",
        ProblemKind::Missing { .. } => "Missing",
        ProblemKind::DuplicateGroup { .. } => "DuplicateGroup",
        ProblemKind::NoName => "NoName",
        ProblemKind::TwoNames => "TwoNames",
        ProblemKind::BadName => "BadName",
        ProblemKind::BadLabel { .. } => "BadLabel",
        ProblemKind::BadSpan => "BadSpan",
        ProblemKind::BadLimit => "BadLimit",
        ProblemKind::NotForRecording { .. } => "NotForRecording",
        ProblemKind::BadTemplate { .. } => "BadTemplate",
        ProblemKind::BadSeries => "BadSeries",
        ProblemKind::DuplicateSeries => "DuplicateSeries",
        ProblemKind::BadValues => "BadValues",
        ProblemKind::TooManyValues => "TooManyValues",
        ProblemKind::BadValue => "BadValue",
        ProblemKind::FuzzyCompare => "FuzzyCompare",
        ProblemKind::Yaml { .. } | ProblemKind::Expression { .. } => "",
    }
}

fn push_word(text: &mut Vec<u8>, kind: &ProblemKind) -> Result<(), AllocError>
    ensures ok { OnOk result (text.new.items ≡ text.old.items ++ problem_word kind.now) }
    ensures front { take (length text.old.items) text.new.items ≡ text.old.items }
{
    match kind {
        ProblemKind::Yaml { kind } => text.extend_from_slice(yaml_word(*kind).as_bytes()),
        ProblemKind::Expression { kind, .. } => push_query_kind(text, *kind),
        _ => text.extend_from_slice(own_word(kind).as_bytes()),
    }
}

fn push_name(text: &mut Vec<u8>, name: &str) -> Result<(), AllocError>
    ensures ok { OnOk result (text.new.items ≡ text.old.items ++ name_text name.now) }
    ensures front { take (length text.old.items) text.new.items ≡ text.old.items }
{
    text.extend_from_slice(b" ")?;
    write_string(name.as_bytes(), text)
}

#[tactic(auto, unfolding(crate::specs::Printed::problem_rest))]
fn push_rest(text: &mut Vec<u8>, kind: &ProblemKind) -> Result<(), AllocError>
    ensures ok { OnOk result (text.new.items ≡ text.old.items ++ problem_rest kind.now) }
    ensures front { take (length text.old.items) text.new.items ≡ text.old.items }
{
    match kind {
        ProblemKind::UnknownField { name }
        | ProblemKind::Missing { name }
        | ProblemKind::DuplicateGroup { name }
        | ProblemKind::BadLabel { name }
        | ProblemKind::NotForRecording { name } => push_name(text, name.as_str()),
        ProblemKind::Expression { at, .. } | ProblemKind::BadTemplate { at } => {
            push_number_after(text, *at as u64)
        }
        _ => Ok(()),
    }
}

/// Appends the kind of a problem, as it is told. Want of memory alone is an error, and then what
/// stood there stays, maybe with a part of it behind.
pub fn push_problem_kind(text: &mut Vec<u8>, kind: &ProblemKind) -> Result<(), AllocError>
    ensures ok { OnOk result (text.new.items ≡ text.old.items ++ problem_text kind.now) }
    ensures front { take (length text.old.items) text.new.items ≡ text.old.items }
{
    push_word(text, kind)?;
    push_rest(text, kind)
}
