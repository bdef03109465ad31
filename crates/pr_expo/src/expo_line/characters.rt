// The characters of a line.
ghost use Rattle.std.specs.Prelude.{◌≡◌, ◌++◌, ◌<◌, encode_utf8, length, IfSome, MatchOption};
ghost use Rattle.pr_labels.specs.pr_words.Bytes.{is_blank, is_letter, is_label_byte};
ghost use Rattle.pr_labels.specs.Names.{is_metric_letter, is_metric_byte};
ghost use Rattle.pr_expo.specs.Characters.{is_sign};

/// A blank: a space, or a tab.
pub(crate) fn is_blank(c: char) -> bool
    ensures { result ≡ is_blank c }
{
    c == ' ' || c == '\t'
}

pub(crate) fn is_sign(c: char) -> bool
    ensures { result ≡ is_sign c }
{
    c == '+' || c == '-'
}

/// A letter, or an underscore.
pub(crate) fn is_letter(c: char) -> bool
    ensures { result ≡ is_letter c }
{
    c.is_ascii_alphabetic() || c == '_'
}

pub(crate) fn is_label_byte(c: char) -> bool
    ensures { result ≡ is_label_byte c }
{
    is_letter(c) || c.is_ascii_digit()
}

pub(crate) fn is_metric_letter(c: char) -> bool
    ensures { result ≡ is_metric_letter c }
{
    is_letter(c) || c == ':'
}

pub(crate) fn is_metric_byte(c: char) -> bool
    ensures { result ≡ is_metric_byte c }
{
    is_metric_letter(c) || c.is_ascii_digit()
}

/// The first character of a text, and what stands after it.
#[tactic(auto, using(crate::proofs::RunSteps::shorter))]
pub(crate) fn split_char(text: &str) -> Option<(char, &str)>
    ensures parts { MatchOption result (length text.now ≡ 0) (λ x. text.now ≡ encode_utf8 x.0 ++ x.1.now) }
    ensures shorter { IfSome result (λ x. length x.1.now < length text.now) }
{
    let mut chars = text.chars();
    match chars.next() {
        Some(c) => Some((c, chars.as_str())),
        None => None,
    }
}
