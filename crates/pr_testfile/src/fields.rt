// The names of fields.
ghost use Rattle.std.specs.Prelude.{◌≡◌};
ghost use Rattle.pr_testfile.specs.Fields.{file_field, test_field, series_field, alert_field, expected_field, check_field, sample_field};

use crate::words::{
    alert_rule_test, evaluation_interval, exp_annotations, external_labels, external_url,
    fuzzy_compare, group_eval_order, input_series, promql_expr_test,
};

/// A field of a test file. (Prometheus: Unit testing for rules, as those below.)
#[derive(Clone, Copy)]
pub(crate) enum FileField {
    RuleFiles,
    EvaluationInterval,
    GroupEvalOrder,
    FuzzyCompare,
    Tests,
}

/// A field of a test.
#[derive(Clone, Copy)]
pub(crate) enum TestField {
    Interval,
    Name,
    InputSeries,
    AlertRuleTest,
    PromqlExprTest,
    ExternalLabels,
    ExternalUrl,
}

/// A field of a series of a test.
#[derive(Clone, Copy)]
pub(crate) enum SeriesField {
    Series,
    Values,
}

/// A field of the check of an alert.
#[derive(Clone, Copy)]
pub(crate) enum AlertField {
    EvalTime,
    AlertName,
    ExpAlerts,
}

/// A field of an alert that is expected.
#[derive(Clone, Copy)]
pub(crate) enum ExpectedField {
    ExpLabels,
    ExpAnnotations,
}

/// A field of the check of an expression.
#[derive(Clone, Copy)]
pub(crate) enum CheckField {
    Expr,
    EvalTime,
    ExpSamples,
}

/// A field of a sample that is expected.
#[derive(Clone, Copy)]
pub(crate) enum SampleField {
    Labels,
    Value,
}

pub(crate) fn file_field(key: &str) -> Option<FileField>
    ensures { result ≡ file_field key.now }
{
    if key == "rule_files" {
        Some(FileField::RuleFiles)
    } else if key == evaluation_interval() {
        Some(FileField::EvaluationInterval)
    } else if key == group_eval_order() {
        Some(FileField::GroupEvalOrder)
    } else if key == fuzzy_compare() {
        Some(FileField::FuzzyCompare)
    } else if key == "tests" {
        Some(FileField::Tests)
    } else {
        None
    }
}

pub(crate) fn test_field(key: &str) -> Option<TestField>
    ensures { result ≡ test_field key.now }
{
    if key == "interval" {
        Some(TestField::Interval)
    } else if key == "name" {
        Some(TestField::Name)
    } else if key == input_series() {
        Some(TestField::InputSeries)
    } else if key == alert_rule_test() {
        Some(TestField::AlertRuleTest)
    } else if key == promql_expr_test() {
        Some(TestField::PromqlExprTest)
    } else if key == external_labels() {
        Some(TestField::ExternalLabels)
    } else if key == external_url() {
        Some(TestField::ExternalUrl)
    } else {
        None
    }
}

pub(crate) fn series_field(key: &str) -> Option<SeriesField>
    ensures { result ≡ series_field key.now }
{
    if key == "series" {
        Some(SeriesField::Series)
    } else if key == "values" {
        Some(SeriesField::Values)
    } else {
        None
    }
}

pub(crate) fn alert_field(key: &str) -> Option<AlertField>
    ensures { result ≡ alert_field key.now }
{
    if key == "eval_time" {
        Some(AlertField::EvalTime)
    } else if key == "alertname" {
        Some(AlertField::AlertName)
    } else if key == "exp_alerts" {
        Some(AlertField::ExpAlerts)
    } else {
        None
    }
}

pub(crate) fn expected_field(key: &str) -> Option<ExpectedField>
    ensures { result ≡ expected_field key.now }
{
    if key == "exp_labels" {
        Some(ExpectedField::ExpLabels)
    } else if key == exp_annotations() {
        Some(ExpectedField::ExpAnnotations)
    } else {
        None
    }
}

pub(crate) fn check_field(key: &str) -> Option<CheckField>
    ensures { result ≡ check_field key.now }
{
    if key == "expr" {
        Some(CheckField::Expr)
    } else if key == "eval_time" {
        Some(CheckField::EvalTime)
    } else if key == "exp_samples" {
        Some(CheckField::ExpSamples)
    } else {
        None
    }
}

pub(crate) fn sample_field(key: &str) -> Option<SampleField>
    ensures { result ≡ sample_field key.now }
{
    if key == "labels" {
        Some(SampleField::Labels)
    } else if key == "value" {
        Some(SampleField::Value)
    } else {
        None
    }
}
