// Test files as values.
use crate::inputs::Input;
use pr_ast::labels::Item;
use pr_ast::time::{Ms, Span};
use pr_num::Num;
use pr_rulefile::alerts_crate::RuleElement;
use pr_rulefile::tmpl::External;
use pr_rulefile::types::Checked;
use pr_words::{Items, Text};

/// Which alerts of a name are to fire at a time. (Prometheus: Unit testing for rules,
/// "alert_test_case".)
#[derive(Debug, Drop)]
pub struct AlertCheck {
    pub time: Ms,
    pub name: Text,
    /// In label order, and those of equal labels in order of their annotations.
    pub expected: Items<RuleElement>,
}

/// What an expression is to give at a time. (Prometheus: Unit testing for rules,
/// "promql_test_case".)
#[derive(Drop)]
pub struct ExprCheck {
    pub time: Ms,
    pub text: Text,
    pub expr: Checked,
    /// In label order, and those of equal labels in the order of the file.
    pub expected: Items<Item<Num>>,
}

/// A test: its input, and what is checked. (Prometheus: Unit testing for rules, "test_group".)
#[derive(Drop)]
pub struct Test {
    pub input: Input,
    pub alerts: Items<AlertCheck>,
    pub exprs: Items<ExprCheck>,
    /// What templates see.
    pub external: External,
}

/// A test file. (Prometheus: Unit testing for rules.)
#[derive(Drop)]
pub struct TestFile {
    /// The names of its rule files, as it writes them.
    pub rule_files: Items<Text>,
    /// How often groups are evaluated.
    pub interval: Span,
    /// The names of groups that are evaluated before the others, in this order.
    pub order: Items<Text>,
    pub tests: Items<Test>,
}
