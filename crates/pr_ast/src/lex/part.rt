// What a text begins with, by its first bytes.
ghost use Rattle.std.specs.Prelude.{◌≡◌, ◌≤◌, length};
ghost use Rattle.pr_labels.specs.pr_words.Bytes.{is_whitespace, is_letter};
ghost use Rattle.pr_ast.specs.Bytes.{is_of, front_len, name_class, starts_name, is_unit_letter, starts_unit, digits_lexeme, is_quote, lexeme_at, part_at};

/// The bytes that stand beside each other in a text.
#[derive(Clone, Copy, PartialEq, Eq, Debug)]
pub(crate) enum Class {
    /// A space, a tab, a line feed or a carriage return.
    Whitespace,
    /// All but the line feed.
    Line,
    Digit,
    /// A byte of a name.
    Name,
    /// A byte of a name between brackets, where a colon is a sign.
    NameInBrackets,
}

/// The kinds of tokens that are read apart.
#[derive(Clone, Copy, PartialEq, Eq, Debug)]
pub(crate) enum Lexeme {
    Name,
    Number,
    Duration,
    Text,
    Sign,
}

/// What a text begins with.
#[derive(Clone, Copy, PartialEq, Eq, Debug)]
pub(crate) enum Part {
    /// Nothing: the text is empty.
    End,
    /// So many bytes that are whitespace, or a comment.
    Gap(usize),
    Token(Lexeme),
}

fn is_whitespace(byte: u8) -> bool
    ensures { result ≡ is_whitespace byte }
{
    matches!(byte, b' ' | b'\t' | b'\n' | b'\r')
}

fn is_letter(byte: u8) -> bool
    ensures { result ≡ is_letter byte }
{
    matches!(byte, b'a'..=b'z' | b'A'..=b'Z' | b'_')
}

fn is_of(class: Class, byte: u8) -> bool
    ensures { result ≡ is_of class byte }
{
    match class {
        Class::Whitespace => is_whitespace(byte),
        Class::Line => byte != b'\n',
        Class::Digit => byte.is_ascii_digit(),
        Class::Name => is_letter(byte) || byte.is_ascii_digit() || byte == b':',
        Class::NameInBrackets => is_letter(byte) || byte.is_ascii_digit(),
    }
}

/// How many bytes of a class the text begins with.
pub(crate) fn front_len(class: Class, text: &[u8]) -> usize
    ensures value { result ≡ front_len class text.now }
    ensures within { result ≤ length text.now }
{
    let mut at = 0;
    while at < text.len() && is_of(class, text[at]) {
        at += 1;
    }
    at
}

/// The bytes of names, between brackets or elsewhere.
pub(crate) fn name_class(inside: bool) -> Class
    ensures { result ≡ name_class inside }
{
    if inside {
        Class::NameInBrackets
    } else {
        Class::Name
    }
}

fn starts_name(inside: bool, byte: u8) -> bool
    ensures { result ≡ starts_name inside byte }
{
    is_letter(byte) || (byte == b':' && !inside)
}

fn is_unit_letter(byte: u8) -> bool
    ensures { result ≡ is_unit_letter byte }
{
    matches!(byte, b'y' | b'w' | b'd' | b'h' | b'm' | b's')
}

/// Whether the letter of a unit comes next.
fn starts_unit(text: &[u8]) -> bool
    ensures { result ≡ starts_unit text.now }
{
    match text.split_first() {
        Some((first, _rest)) => is_unit_letter(*first),
        None => false,
    }
}

/// Whether digits at the front begin a duration or a number.
fn digits_lexeme(text: &[u8]) -> Lexeme
    ensures { result ≡ digits_lexeme text.now }
{
    if starts_unit(&text[front_len(Class::Digit, text)..]) {
        Lexeme::Duration
    } else {
        Lexeme::Number
    }
}

fn is_quote(byte: u8) -> bool
    ensures { result ≡ is_quote byte }
{
    matches!(byte, b'"' | b'\'' | b'`')
}

/// The kind of the token that begins with a byte.
fn lexeme_at(inside: bool, first: u8, text: &[u8]) -> Lexeme
    ensures { result ≡ lexeme_at inside first text.now }
{
    if starts_name(inside, first) {
        Lexeme::Name
    } else if first.is_ascii_digit() {
        digits_lexeme(text)
    } else if first == b'.' {
        Lexeme::Number
    } else if is_quote(first) {
        Lexeme::Text
    } else {
        Lexeme::Sign
    }
}

/// What the text begins with, which stands between brackets or elsewhere.
pub(crate) fn part_at(inside: bool, text: &[u8]) -> Part
    ensures { result ≡ part_at inside text.now }
{
    let Some((first, _rest)) = text.split_first() else {
        return Part::End;
    };
    if is_whitespace(*first) {
        Part::Gap(front_len(Class::Whitespace, text))
    } else if *first == b'#' {
        Part::Gap(front_len(Class::Line, text))
    } else {
        Part::Token(lexeme_at(inside, *first, text))
    }
}
