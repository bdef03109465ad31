/// How a matcher compares the value of a label with its text. (Prometheus: Querying basics,
/// "Instant vector selectors".)
#[derive(Clone, Copy, PartialEq, Eq, Debug)]
pub enum MatchOp {
    /// `=`: the value is the text.
    Equal,
    /// `!=`: the value is another text.
    NotEqual,
    /// `=~`: the text is a pattern that matches the whole value.
    Like,
    /// `!~`: the text is a pattern that does not match the whole value.
    NotLike,
}
