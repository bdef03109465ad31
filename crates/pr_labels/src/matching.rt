use pr_words::{Items, Text};

/// How many elements of a side one key may have: of which side there is one. (Prometheus:
/// Operators, "Vector matching".)
#[derive(Clone, Copy, Debug, PartialEq, Eq)]
pub enum Card {
    OneToOne,
    /// `group_left`: many elements of the left side match one of the right.
    ManyToOne,
    /// `group_right`: one element of the left side matches many of the right.
    OneToMany,
}

/// How the elements of two vectors are paired: `on` the names, or `ignoring` them. `include` are
/// the labels that are taken from the side with one element, as listed after `group_left` or
/// `group_right`.
#[derive(Debug, Drop)]
pub struct Matching {
    pub on: bool,
    pub names: Items<Text>,
    pub card: Card,
    pub include: Items<Text>,
}
