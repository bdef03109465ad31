//! What a byte is to the texts that have strings.
ghost use Rattle.std.specs.Prelude.{◌≡◌};
ghost use Rattle.pr_words.specs.Strings.{kind_of};

/// The quotes that a string stands in: `"`, `'` or a backtick.
#[derive(Clone, Copy, PartialEq, Eq, Debug)]
pub enum Mark {
    Double,
    Single,
    Back,
}

/// What a byte is to the texts that have strings. The letters `a b f n r t v x u U` have a meaning
/// after a backslash.
#[derive(Clone, Copy, PartialEq, Eq, Debug)]
pub enum StringByte {
    Quote(Mark),
    Backslash,
    /// A line feed.
    Feed,
    A,
    B,
    F,
    N,
    R,
    T,
    V,
    X,
    /// `u`, after which four digits stand.
    Short,
    /// `U`, after which eight digits stand.
    Long,
    Digit,
    /// A letter that is a digit of base 16, other than `a`, `b` and `f`.
    HexLetter,
    /// Another letter, or an underscore.
    OtherLetter,
    Colon,
    /// An opening brace.
    Open,
    /// A closing brace.
    Close,
    Comma,
    Equal,
    /// A space or a tab.
    Blank,
    Other,
}

/// What the byte is to the texts that have strings.
pub fn kind_of(byte: u8) -> StringByte
    ensures { result ≡ kind_of byte }
{
    match byte {
        b'"' => StringByte::Quote(Mark::Double),
        b'\'' => StringByte::Quote(Mark::Single),
        b'`' => StringByte::Quote(Mark::Back),
        b'\\' => StringByte::Backslash,
        b'\n' => StringByte::Feed,
        b'a' => StringByte::A,
        b'b' => StringByte::B,
        b'f' => StringByte::F,
        b'n' => StringByte::N,
        b'r' => StringByte::R,
        b't' => StringByte::T,
        b'v' => StringByte::V,
        b'x' => StringByte::X,
        b'u' => StringByte::Short,
        b'U' => StringByte::Long,
        b'0'..=b'9' => StringByte::Digit,
        b'A'..=b'F' | b'c'..=b'e' => StringByte::HexLetter,
        b'G'..=b'Z' | b'g'..=b'z' | b'_' => StringByte::OtherLetter,
        b':' => StringByte::Colon,
        b'{' => StringByte::Open,
        b'}' => StringByte::Close,
        b',' => StringByte::Comma,
        b'=' => StringByte::Equal,
        b' ' | b'\t' => StringByte::Blank,
        _ => StringByte::Other,
    }
}
