// The words of the query language.
ghost use Rattle.std.specs.Prelude.{◌≡◌};
ghost use Rattle.pr_ast.specs.Words.{word_text, is_word, first_word, words, word_of};

/// The words of the query language: its operators, the names of its aggregations, and two numbers.
/// (Prometheus: Querying, Operators.)
#[derive(Clone, Copy, Debug, PartialEq, Eq)]
pub enum Word {
    And,
    Or,
    Unless,
    On,
    Ignoring,
    GroupLeft,
    GroupRight,
    Bool,
    Offset,
    By,
    Without,
    Sum,
    Avg,
    Min,
    Max,
    Count,
    Group,
    TopK,
    BottomK,
    Quantile,
    CountValues,
    Inf,
    NaN,
}

/// The words, in their order.
const WORDS: [Word; 23] = [
    Word::And,
    Word::Or,
    Word::Unless,
    Word::On,
    Word::Ignoring,
    Word::GroupLeft,
    Word::GroupRight,
    Word::Bool,
    Word::Offset,
    Word::By,
    Word::Without,
    Word::Sum,
    Word::Avg,
    Word::Min,
    Word::Max,
    Word::Count,
    Word::Group,
    Word::TopK,
    Word::BottomK,
    Word::Quantile,
    Word::CountValues,
    Word::Inf,
    Word::NaN,
];

impl Word {
    /// The word in small letters.
    #[tactic(auto, unfolding(crate::specs::Words::word_text))]
    pub fn text(self) -> &'static str
        ensures { result.now ≡ word_text self }
    {
        match self {
            Word::And => "and",
            Word::Or => "or",
            Word::Unless => "unless",
            Word::On => "on",
            Word::Ignoring => "ignoring",
            Word::GroupLeft => "group_left",
            Word::GroupRight => "group_right",
            Word::Bool => "bool",
            Word::Offset => "offset",
            Word::By => "by",
            Word::Without => "without",
            Word::Sum => "sum",
            Word::Avg => "avg",
            Word::Min => "min",
            Word::Max => "max",
            Word::Count => "count",
            Word::Group => "group",
            Word::TopK => "topk",
            Word::BottomK => "bottomk",
            Word::Quantile => "quantile",
            Word::CountValues => "count_values",
            Word::Inf => "inf",
            Word::NaN => "nan",
        }
    }
}

#[tactic(auto, unfolding(crate::specs::Words::is_word))]
fn is_word(text: &str, word: Word) -> bool
    ensures { result ≡ is_word text.now word }
{
    text.eq_ignore_ascii_case(word.text())
}

fn first_word(text: &str, words: &[Word]) -> Option<Word>
    ensures { result ≡ first_word text.now words.now }
{
    for word in words {
        if is_word(text, *word) {
            return Some(*word);
        }
    }
    None
}

/// The word that a name is, in any case.
#[tactic(auto, unfolding(crate::specs::Words::word_of, crate::specs::Words::words))]
pub fn word_of(text: &str) -> Option<Word>
    ensures { result ≡ word_of text.now }
{
    first_word(text, &WORDS)
}
