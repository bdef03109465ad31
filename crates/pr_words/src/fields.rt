// The fields of a line.
ghost use Rattle.std.specs.Prelude.{◌≡◌, ◌≤◌, length, reverse, position};
ghost use Rattle.std.specs.List.{position_or_len};
ghost use Rattle.pr_words.specs.Bytes.{is_blank};
ghost use Rattle.pr_words.specs.Fields.{is_field_byte, without_leading, without_trailing, first_field, after_field, last_field, before_last_field};

/// Whether a byte is a blank: a space, or a tab.
pub fn is_blank(b: u8) -> bool
    ensures { result ≡ is_blank b }
{
    b == b' ' || b == b'\t'
}

// Where the first blank stands, and the first byte that is none; then the same from the end.
fn first_blank(text: &[u8]) -> Option<usize>
    ensures { result ≡ position is_blank text.now }
{
    text.iter().position(|b| is_blank(*b))
}

fn first_byte(text: &[u8]) -> Option<usize>
    ensures { result ≡ position is_field_byte text.now }
{
    text.iter().position(|b| !is_blank(*b))
}

fn last_blank(text: &[u8]) -> Option<usize>
    ensures { result ≡ position is_blank (reverse text.now) }
{
    text.iter().rev().position(|b| is_blank(*b))
}

fn last_byte(text: &[u8]) -> Option<usize>
    ensures { result ≡ position is_field_byte (reverse text.now) }
{
    text.iter().rev().position(|b| !is_blank(*b))
}

/// How many bytes stand before the first blank: all, where there is none.
#[tactic(auto, using(crate::proofs::Places::place_or_end, crate::proofs::Places::within))]
pub fn field_len(text: &[u8]) -> usize
    ensures value { result ≡ position_or_len is_blank text.now }
    ensures within { result ≤ length text.now }
{
    first_blank(text).unwrap_or(text.len())
}

#[tactic(auto, using(crate::proofs::Places::place_or_end, crate::proofs::Places::within))]
fn blanks_len(text: &[u8]) -> usize
    ensures value { result ≡ position_or_len is_field_byte text.now }
    ensures within { result ≤ length text.now }
{
    first_byte(text).unwrap_or(text.len())
}

#[tactic(auto, using(crate::proofs::Places::place_or_front, crate::proofs::Places::within_back))]
fn last_field_len(text: &[u8]) -> usize
    ensures value { result ≡ position_or_len is_blank (reverse text.now) }
    ensures within { result ≤ length text.now }
{
    last_blank(text).unwrap_or(text.len())
}

#[tactic(auto, using(crate::proofs::Places::place_or_front, crate::proofs::Places::within_back))]
fn last_blanks_len(text: &[u8]) -> usize
    ensures value { result ≡ position_or_len is_field_byte (reverse text.now) }
    ensures within { result ≤ length text.now }
{
    last_byte(text).unwrap_or(text.len())
}

/// The text without the blanks at its front.
pub fn without_leading(text: &[u8]) -> &[u8]
    ensures { result.now ≡ without_leading text.now }
{
    &text[blanks_len(text)..]
}

/// The text without the blanks at its end.
pub fn without_trailing(text: &[u8]) -> &[u8]
    ensures { result.now ≡ without_trailing text.now }
{
    &text[..text.len() - last_blanks_len(text)]
}

/// What stands before the first blank, and what stands after it and the blanks that follow it.
pub fn split_first(text: &[u8]) -> (&[u8], &[u8])
    ensures first { result.0.now ≡ first_field text.now }
    ensures after { result.1.now ≡ after_field text.now }
{
    let (field, rest) = text.split_at(field_len(text));
    (field, without_leading(rest))
}

/// What stands before the last blank and the blanks that it follows, and what stands after it.
pub fn split_last(text: &[u8]) -> (&[u8], &[u8])
    ensures before { result.0.now ≡ before_last_field text.now }
    ensures last { result.1.now ≡ last_field text.now }
{
    let (front, field) = text.split_at(text.len() - last_field_len(text));
    (without_trailing(front), field)
}
