//! What a byte is to a template.
ghost use Rattle.std.specs.Prelude.{◌≡◌};
ghost use Rattle.pr_tmpl.specs.Pieces.{kind_of, kind_of_all};

/// What a byte is to a template and to a format of `printf`. Letters that choose what comes
/// have a kind of their own.
#[derive(Clone, Copy, PartialEq, Eq, Debug, Drop)]
pub(crate) enum TemplateByte {
    Quote,
    /// A line feed.
    Feed,
    /// A space or a tab.
    Blank,
    Open,
    Close,
    Bar,
    Dollar,
    Point,
    Percent,
    Digit,
    SmallE,
    SmallF,
    SmallH,
    SmallL,
    SmallP,
    SmallS,
    SmallV,
    CapitalD,
    CapitalE,
    CapitalL,
    CapitalP,
    CapitalU,
    CapitalV,
    /// Any other letter, and `_`.
    OtherLetter,
    Other,
}

/// What the byte is.
pub(crate) fn kind_of(byte: u8) -> TemplateByte
    ensures { result ≡ kind_of byte }
{
    match byte {
        b'"' => TemplateByte::Quote,
        b'\n' => TemplateByte::Feed,
        b' ' | b'\t' => TemplateByte::Blank,
        b'{' => TemplateByte::Open,
        b'}' => TemplateByte::Close,
        b'|' => TemplateByte::Bar,
        b'$' => TemplateByte::Dollar,
        b'.' => TemplateByte::Point,
        b'%' => TemplateByte::Percent,
        b'0'..=b'9' => TemplateByte::Digit,
        b'e' => TemplateByte::SmallE,
        b'f' => TemplateByte::SmallF,
        b'h' => TemplateByte::SmallH,
        b'l' => TemplateByte::SmallL,
        b'p' => TemplateByte::SmallP,
        b's' => TemplateByte::SmallS,
        b'v' => TemplateByte::SmallV,
        b'D' => TemplateByte::CapitalD,
        b'E' => TemplateByte::CapitalE,
        b'L' => TemplateByte::CapitalL,
        b'P' => TemplateByte::CapitalP,
        b'U' => TemplateByte::CapitalU,
        b'V' => TemplateByte::CapitalV,
        b'A'..=b'Z' | b'a'..=b'z' | b'_' => TemplateByte::OtherLetter,
        _ => TemplateByte::Other,
    }
}

/// The kind of what an escape means: of a byte, or of a longer character.
pub(crate) fn kind_of_all(bytes: &[u8]) -> TemplateByte
    ensures { result ≡ kind_of_all bytes.now }
{
    match bytes {
        [byte] => kind_of(*byte),
        _ => TemplateByte::Other,
    }
}
