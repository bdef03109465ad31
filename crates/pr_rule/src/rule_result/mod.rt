//! What the answer of a rule's expression comes to: labels, annotations and values in label order,
//! or a fault.
mod alert_labels;
mod comes;
mod error;
mod found;
mod labels;
mod made;
mod rows;
mod ruled;
mod setting;
mod templates;

pub use comes::rule_result;
pub use error::RuleError;
pub use made::MadeLabels;
pub use ruled::limit_exceeded;
pub use templates::{NamedTemplate, RuleTemplates, templates_of};
