//! What a byte is to a string, and to a list of words.
ghost use Rattle.std.specs.Prelude.{◌≡◌};
ghost use Rattle.test_forms.specs.private.Glyphs.{sort_of, kind_of};

/// What a byte is to a string.
#[derive(Clone, Copy, PartialEq, Eq, Debug)]
pub enum Sort {
    Quote,
    Backslash,
    Plain,
}

/// What a byte is to a list of words: a comma, a letter, or what it is to a string.
#[derive(Clone, Copy, PartialEq, Eq, Debug)]
pub enum Kind {
    Comma,
    Letter,
    Text { sort: Sort },
}

pub fn sort_of(byte: u8) -> Sort
    ensures { result ≡ sort_of byte }
{
    match byte {
        b'"' => Sort::Quote,
        b'\\' => Sort::Backslash,
        _ => Sort::Plain,
    }
}

pub fn kind_of(byte: u8) -> Kind
    ensures { result ≡ kind_of byte }
{
    match sort_of(byte) {
        Sort::Plain => {
            if byte == b',' {
                Kind::Comma
            } else if matches!(byte, b'a'..=b'z') {
                Kind::Letter
            } else {
                Kind::Text { sort: Sort::Plain }
            }
        }
        sort => Kind::Text { sort },
    }
}
