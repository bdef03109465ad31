// What the first byte of a token decides.
ghost use Rattle.std.specs.Prelude.{◌≡◌};
ghost use Rattle.pr_yaml.specs.Tokens.{mark_of, word_mark_of, sign_mark_of, flow_mark_of, first_by, form_of};

use crate::yaml_scan::block::Style;
use crate::yaml_scan::bytes::ends_word;
use crate::yaml_scan::fault::YamlKind;
use crate::yaml_scan::quoted::Quote;

/// The signs of flows.
#[derive(Clone, Copy)]
pub(crate) enum FlowMark {
    ListOpen,
    ListClose,
    MapOpen,
    MapClose,
    Comma,
}

/// What a token is by its first byte.
#[derive(Clone, Copy)]
pub(crate) enum First {
    FlowSign { mark: FlowMark },
    QuoteMark { quote: Quote },
    BlockMark { style: Style },
    /// An anchor, an alias, a tag, a complex key or a directive, of which the profile has none.
    Property { kind: YamlKind },
    /// `@` or a backtick.
    Reserved,
    /// `-` before a blank or the line's end.
    DashMark,
    /// None.
    NoToken,
    /// A plain text.
    Other,
}

#[tactic(auto, unfolding(crate::specs::Tokens::mark_of))]
fn mark_of(byte: u8) -> First
    ensures { result ≡ mark_of byte }
{
    match byte {
        b'&' => First::Property {
            kind: YamlKind::Anchor,
        },
        b'*' => First::Property {
            kind: YamlKind::Alias,
        },
        b'!' => First::Property {
            kind: YamlKind::Tag,
        },
        b'%' => First::Property {
            kind: YamlKind::Directive,
        },
        b'@' | b'`' => First::Reserved,
        b'#' => First::NoToken,
        _ => First::Other,
    }
}

#[tactic(auto, unfolding(crate::specs::Tokens::word_mark_of))]
fn word_mark_of(byte: u8) -> First
    ensures { result ≡ word_mark_of byte }
{
    match byte {
        b'-' => First::DashMark,
        b'?' => First::Property {
            kind: YamlKind::ComplexKey,
        },
        b':' => First::NoToken,
        _ => mark_of(byte),
    }
}

fn flow_mark_of(byte: u8) -> Option<FlowMark>
    ensures { result ≡ flow_mark_of byte }
{
    match byte {
        b'[' => Some(FlowMark::ListOpen),
        b']' => Some(FlowMark::ListClose),
        b'{' => Some(FlowMark::MapOpen),
        b'}' => Some(FlowMark::MapClose),
        b',' => Some(FlowMark::Comma),
        _ => None,
    }
}

#[tactic(auto, unfolding(crate::specs::Tokens::sign_mark_of))]
fn sign_mark_of(byte: u8, alone: bool) -> First
    ensures { result ≡ sign_mark_of byte alone }
{
    match byte {
        b'"' => First::QuoteMark {
            quote: Quote::Double,
        },
        b'\'' => First::QuoteMark {
            quote: Quote::Single,
        },
        b'|' => First::BlockMark { style: Style::Kept },
        b'>' => First::BlockMark {
            style: Style::Folded,
        },
        _ if alone => word_mark_of(byte),
        _ => mark_of(byte),
    }
}

/// What the token that begins a text is by its first byte.
#[tactic(auto, unfolding(crate::specs::Tokens::form_of))]
pub(crate) fn form_of(text: &[u8]) -> First
    ensures { result ≡ form_of text.now }
{
    match text.split_first() {
        Some((first, rest)) => match flow_mark_of(*first) {
            Some(mark) => First::FlowSign { mark },
            None => sign_mark_of(*first, ends_word(rest)),
        },
        None => First::NoToken,
    }
}
