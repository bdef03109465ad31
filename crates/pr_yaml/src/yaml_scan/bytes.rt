// The bytes of a text, and what they are to its forms.
ghost use Rattle.std.specs.Prelude.{◌≡◌, ◌≤◌, ◌<◌, length, true, false, drop, ℕ};
ghost use Rattle.pr_yaml.specs.Bytes.{without_mark, no_text, has_no_text, blanks_len, spaces_len, is_bare, is_spaces, ends_word, is_flow_sign, is_comment, has_tab};

use pr_words::is_blank;

/// What stands for the first byte that is not UTF-8, and is none itself.
pub(crate) const NO_TEXT: u8 = 255;

/// The text without a byte order mark, which is passed over at its very start.
pub fn without_mark(text: &[u8]) -> &[u8]
    ensures { result.now ≡ without_mark text.now }
{
    match text {
        [0xEF, 0xBB, 0xBF, ..] => &text[3..],
        _ => text,
    }
}

#[tactic(auto, unfolding(crate::specs::Bytes::has_no_text))]
pub(crate) fn has_no_text(text: &[u8]) -> bool
    ensures { result ≡ has_no_text text.now }
{
    text.iter().any(|b| *b == NO_TEXT)
}

/// How many blanks a line begins with.
#[tactic(auto, unfolding(crate::specs::Bytes::blanks_len))]
pub(crate) fn blanks_len(line: &[u8]) -> usize
    ensures value { result ≡ blanks_len line.now }
    ensures within { result ≤ length line.now }
{
    let mut at = 0;
    while at < line.len() && is_blank(line[at]) {
        at += 1;
    }
    at
}

/// How many spaces a line begins with.
#[tactic(auto, unfolding(crate::specs::Bytes::spaces_len))]
pub(crate) fn spaces_len(line: &[u8]) -> usize
    ensures value { result ≡ spaces_len line.now }
    ensures within { result ≤ length line.now }
{
    let mut at = 0;
    while at < line.len() && line[at] == b' ' {
        at += 1;
    }
    at
}

/// Whether a line has no byte but blanks.
#[tactic(auto, unfolding(crate::specs::Bytes::is_bare))]
pub(crate) fn is_bare(line: &[u8]) -> bool
    ensures { result ≡ is_bare line.now }
{
    line.iter().all(|b| is_blank(*b))
}

/// Whether a line has no byte but spaces.
#[tactic(auto, unfolding(crate::specs::Bytes::is_spaces))]
pub(crate) fn is_spaces(line: &[u8]) -> bool
    ensures { result ≡ is_spaces line.now }
{
    line.iter().all(|b| *b == b' ')
}

/// Whether a blank comes next, or the line's end.
#[tactic(auto, unfolding(crate::specs::Bytes::ends_word))]
pub(crate) fn ends_word(rest: &[u8]) -> bool
    ensures { result ≡ ends_word rest.now }
{
    match rest.split_first() {
        Some((first, _)) => is_blank(*first),
        None => true,
    }
}

#[tactic(auto, unfolding(crate::specs::Bytes::is_flow_sign))]
pub(crate) fn is_flow_sign(byte: u8) -> bool
    ensures { result ≡ is_flow_sign byte }
{
    matches!(byte, b',' | b'[' | b']' | b'{' | b'}')
}

/// Whether a comment comes next.
#[tactic(auto, unfolding(crate::specs::Bytes::is_comment))]
pub(crate) fn is_comment(rest: &[u8]) -> bool
    ensures { result ≡ is_comment rest.now }
{
    match rest.split_first() {
        Some((first, _)) => *first == b'#',
        None => false,
    }
}

#[tactic(auto, unfolding(crate::specs::Bytes::has_tab))]
pub(crate) fn has_tab(text: &[u8]) -> bool
    ensures { result ≡ has_tab text.now }
{
    text.iter().any(|b| *b == b'\t')
}
