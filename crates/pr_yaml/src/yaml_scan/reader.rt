//! Reading the tokens of a text.
ghost use Rattle.std.specs.Prelude.{◌≡◌, ◌≤◌, ◌<◌, ◌+◌, ◌^◌, false, if◌then◌else◌, length, drop, IfOk, IfSome, IsTrue, MatchResult, Some, None, [], List};
ghost use Rattle.std.specs.declared.option.Option.{Option};
ghost use Rattle.pr_words.specs.Lines.{text_lines};
ghost use Rattle.pr_yaml.specs.declared.yaml_scan.token.Token.{Token};
ghost use Rattle.pr_yaml.specs.declared.yaml_scan.fault.ScanFault.{ScanFault};
ghost use Rattle.pr_yaml.specs.declared.yaml_scan.fault.BadPlace.{BadPlace};
ghost use Rattle.std.specs.Str.{IsUtf8};
ghost use Rattle.pr_yaml.specs.Lines.{Cursor, along};
ghost use Rattle.pr_yaml.specs.private.Legible.{IsLegible, AreLegible, IsLegiblePlace, HasUtf8};
ghost use Rattle.pr_yaml.specs.Bytes.{blanks_len, has_no_text, without_mark};
ghost use Rattle.pr_yaml.specs.Plain.{plain_ending, plain_len, plain_part};
ghost use Rattle.pr_yaml.specs.Block.{chomp_of, header_fault, after_chomp};
ghost use Rattle.pr_yaml.specs.declared.yaml_scan.plain.Ending.TheVariants.{AtColon};
ghost use Rattle.pr_yaml.specs.declared.yaml_scan.state.Part.TheVariants.{Gap};
ghost use Rattle.pr_yaml.specs.declared.yaml_scan.fault.YamlKind.TheVariants.{NotText};
ghost use Rattle.pr_yaml.specs.Tokens.{fault_at, takes, takes_text, plain_by, closed_by, quoted_at, block_by_header, form_of, document_after, flow_token, is_fresh, may_be_key, other, colon_next, is_indented_by_tab, to_next_line, token_at, token_in, after_blanks, by_sign, may_stand, sign_of, part_at, first_state, Scans, fault_of, HasPlaces, HasScan};

use crate::yaml_scan::block::{Chomp, Style, after_chomp, block_below, chomp_of, header_fault};
use crate::yaml_scan::bytes::{NO_TEXT, blanks_len, ends_word, has_no_text, has_tab, without_mark};
use crate::yaml_scan::fault::{BadPlace, ScanFault, TokenStart, YamlKind};
use crate::yaml_scan::first::{First, FlowMark, form_of};
use crate::yaml_scan::line::{DocumentSign, Spot, document_sign};
use crate::yaml_scan::plain::{Ending, plain_below, plain_len, plain_on};
use crate::yaml_scan::quoted::{Quote, QuotedLine, cut_fault, first_line, quoted_below};
use crate::yaml_scan::scalar::Scalar;
use crate::yaml_scan::state::{Document, Known, Part, State, TokenCounts};
use crate::yaml_scan::token::{Places, Scanned, Token, TokenKind};
use pr_words::{Items, Text};
use std::alloc::{AllocError, Global};

fn flow_token(mark: FlowMark) -> TokenKind
    ensures { result ≡ flow_token mark }
{
    match mark {
        FlowMark::ListOpen => TokenKind::ListOpen,
        FlowMark::ListClose => TokenKind::ListClose,
        FlowMark::MapOpen => TokenKind::MapOpen,
        FlowMark::MapClose => TokenKind::MapClose,
        FlowMark::Comma => TokenKind::Comma,
    }
}

fn fault_at<'a>(line: u32, kind: YamlKind) -> Part<'a>
    ensures { result ≡ fault_at line kind }
{
    Part::Fault {
        place: BadPlace {
            fault: ScanFault { line, kind },
            start: None,
        },
    }
}

/// The kind of a place where nothing may begin.
fn other(known: Known) -> YamlKind
    ensures { result ≡ other known }
{
    if known.inside {
        YamlKind::Flow
    } else {
        YamlKind::Extra
    }
}

fn is_fresh(state: &State<'_>) -> bool
    ensures { result ≡ is_fresh state.now }
{
    state.place.column == 0 || state.dashed
}

fn may_be_key(known: Known, state: &State<'_>) -> bool
    ensures { result ≡ may_be_key known state.now }
{
    is_fresh(state) || known.inside
}

/// A token at a place, after which the reader is at another one.
#[tactic(auto, unfolding(crate::specs::Tokens::takes))]
fn takes<'a>(
    kind: TokenKind,
    dashed: bool,
    p: &Spot<'_>,
    document: Document,
    after: Spot<'a>,
) -> Part<'a>
    requires { 1 ≤ length p.now.here }
    ensures { result ≡ takes kind dashed p.now document after.entry }
{
    Part::Token {
        token: Token {
            line: p.line_number(),
            column: p.column_number(),
            kind,
        },
        next: State {
            place: after,
            dashed,
            document,
        },
    }
}

/// Bytes as a text.
fn text_of(bytes: Items<u8>) -> Text
    requires { IsUtf8 bytes }
    ensures { result ≡ bytes }
{
    Text::new(String::from_utf8(bytes.into_vec()).unwrap())
}

#[tactic(auto, unfolding(crate::specs::Tokens::takes_text))]
fn takes_text<'a>(quoted: bool, p: &Spot<'_>, document: Document, scalar: Scalar<'a>) -> Part<'a>
    requires some { 1 ≤ length p.now.here }
    requires text { HasUtf8 scalar }
    ensures { result ≡ takes_text quoted p.now document scalar.entry }
{
    match scalar {
        Scalar::Found { text, after } => {
            let text = text_of(text);
            takes(TokenKind::Text { text, quoted }, false, p, document, after)
        }
        Scalar::Broken { line, kind } => fault_at(line, kind),
    }
}

fn plain_len_at(inside: bool, p: &Spot<'_>) -> usize
    ensures value { result ≡ plain_len inside false p.now.here }
    ensures within { result ≤ length p.now.here }
    ensures small { result < 2 ^ 32 }
{
    plain_len(inside, p.here)
}

/// The place after a key's colon.
fn after_colon<'a>(inside: bool, p: &Spot<'a>) -> Spot<'a>
    requires { plain_ending inside p.now.here ≡ AtColon }
    ensures { result ≡ along (plain_len inside false p.now.here + 1) p.now }
{
    p.along(plain_len_at(inside, p) + 1)
}

/// What a plain text has on the line of its first byte, what that ends before, and the place after
/// it.
fn plain_start<'a>(inside: bool, p: &Spot<'a>) -> (&'a [u8], Ending, Spot<'a>)
    ensures part { result.0.now ≡ plain_part inside p.now.here }
    ensures ending { result.1 ≡ plain_ending inside p.now.here }
    ensures end { result.2 ≡ along (length (plain_part inside p.now.here)) p.now }
{
    let (part, ending) = plain_on(inside, p.here);
    (part, ending, p.along(part.len()))
}

/// The plain text or the key at a place.
#[tactic(auto, unfolding(crate::specs::Tokens::plain_by))]
fn plain_at<'a>(
    alloc: Global,
    known: Known,
    key: bool,
    p: &Spot<'a>,
    document: Document,
) -> Result<Part<'a>, AllocError>
    requires some { 1 ≤ length p.now.here }
    requires legible { IsLegiblePlace p.now }
    ensures { IfOk result (λ r. r ≡ plain_by (plain_ending known.inside p.now.here) key known.inside known.parent p.now document) }
{
    let (part, ending, end) = plain_start(known.inside, p);
    let text = Vec::from_slice(alloc, part)?;
    match ending {
        Ending::AtColon => {
            if key {
                let text = text_of(Items::new(text));
                let after = after_colon(known.inside, p);
                Ok(takes(TokenKind::Key { text }, false, p, document, after))
            } else {
                Ok(fault_at(p.line_number(), YamlKind::Colon))
            }
        }
        Ending::AtNoText => Ok(fault_at(p.line_number(), YamlKind::NotText)),
        Ending::AtOther => {
            let found = Scalar::Found {
                text: Items::new(text),
                after: end,
            };
            Ok(takes_text(false, p, document, found))
        }
        Ending::LineEnd => {
            let found = plain_below(known.inside, known.parent, text, &end)?;
            Ok(takes_text(false, p, document, found))
        }
    }
}

/// Whether a colon comes next, and then a blank or the line's end.
#[tactic(auto, unfolding(crate::specs::Tokens::colon_next))]
fn colon_next(p: &Spot<'_>) -> bool
    ensures value { result ≡ colon_next p.now.here }
    ensures some { IsTrue result → 1 ≤ length p.now.here }
{
    match p.here.split_first() {
        Some((first, after)) => *first == b':' && ends_word(after),
        None => false,
    }
}

/// A quoted text that is over on its first line, or the key that it is.
#[tactic(auto, unfolding(crate::specs::Tokens::closed_by))]
fn closed_at<'a>(
    key: bool,
    p: &Spot<'_>,
    document: Document,
    text: Items<u8>,
    after: Spot<'a>,
) -> Part<'a>
    requires some { 1 ≤ length p.now.here }
    requires text { IsUtf8 text }
    ensures { result ≡ closed_by key p.now document text after.entry }
{
    let colon = colon_next(&after);
    if key && colon {
        let text = text_of(text);
        let after = after.along(1);
        takes(TokenKind::Key { text }, false, p, document, after)
    } else {
        takes_text(true, p, document, Scalar::Found { text, after })
    }
}

/// The quoted text or the key at a place.
#[tactic(auto, unfolding(crate::specs::Tokens::quoted_at, crate::specs::Tokens::quoted_by))]
fn quoted_at<'a>(
    alloc: Global,
    quote: Quote,
    key: bool,
    p: &Spot<'a>,
    document: Document,
) -> Result<Part<'a>, AllocError>
    requires some { 1 ≤ length p.now.here }
    requires legible { IsLegible (drop 1 p.now.here) × AreLegible p.now.below }
    ensures { IfOk result (λ r. r ≡ quoted_at quote key p.now document) }
{
    match first_line(alloc, quote, p)? {
        QuotedLine::Closed { text, taken } => {
            Ok(closed_at(key, p, document, text, p.along(taken)))
        }
        QuotedLine::OpenEnd { text } => {
            let found = quoted_below(quote, text.into_vec(), false, p)?;
            Ok(takes_text(true, p, document, found))
        }
        QuotedLine::JoinedEnd { text } => {
            let found = quoted_below(quote, text.into_vec(), true, p)?;
            Ok(takes_text(true, p, document, found))
        }
        QuotedLine::CutEnd => Ok(takes_text(true, p, document, cut_fault(p, p))),
        QuotedLine::BadByte { kind } => Ok(fault_at(p.line_number(), kind)),
    }
}

/// The chomping of the block scalar at a place, or what is wrong with its header.
fn header_of(known: Known, p: &Spot<'_>) -> Result<Chomp, YamlKind>
    requires { 1 ≤ length p.now.here }
    ensures { MatchResult result (λ chomp. (chomp ≡ chomp_of (drop 1 p.now.here)) × (header_fault (other known) (after_chomp (drop 1 p.now.here)) ≡ None))
        (λ kind. header_fault (other known) (after_chomp (drop 1 p.now.here)) ≡ Some kind) }
{
    let here = p.here;
    let header = &here[1..];
    match header_fault(other(known), after_chomp(header)) {
        Some(kind) => Err(kind),
        None => Ok(chomp_of(header)),
    }
}

/// The block scalar at a place.
#[tactic(auto, unfolding(crate::specs::Tokens::block_by_header))]
fn block_at<'a>(
    alloc: Global,
    style: Style,
    known: Known,
    p: &Spot<'a>,
    document: Document,
) -> Result<Part<'a>, AllocError>
    requires some { 1 ≤ length p.now.here }
    requires legible { AreLegible p.now.below }
    ensures { IfOk result (λ r. r ≡ block_by_header (header_fault (other known) (after_chomp (drop 1 p.now.here))) style known.inside known.parent p.now document) }
{
    match header_of(known, p) {
        Err(kind) => Ok(fault_at(p.line_number(), kind)),
        Ok(chomp) => {
            let found = block_below(alloc, style, chomp, known.inside, known.parent, p)?;
            Ok(takes_text(true, p, document, found))
        }
    }
}

/// The token at a place that a byte of it begins.
#[tactic(auto, unfolding(crate::specs::Tokens::token_at))]
fn token_at<'a>(
    alloc: Global,
    known: Known,
    state: &State<'_>,
    p: &Spot<'a>,
) -> Result<Part<'a>, AllocError>
    requires some { 1 ≤ length p.now.here }
    requires legible { IsLegiblePlace p.now }
    ensures { IfOk result (λ r. r ≡ token_at (form_of p.now.here) known state.now p.now) }
{
    let document = state.document;
    match form_of(p.here) {
        First::FlowSign { mark } => Ok(takes(flow_token(mark), false, p, document, p.along(1))),
        First::QuoteMark { quote } => {
            quoted_at(alloc, quote, may_be_key(known, state), p, document)
        }
        First::BlockMark { style } => block_at(alloc, style, known, p, document),
        First::Property { kind } => Ok(Part::Fault {
            place: BadPlace {
                fault: ScanFault {
                    line: p.line_number(),
                    kind,
                },
                start: Some(TokenStart {
                    column: p.column_number(),
                    key: may_be_key(known, state),
                }),
            },
        }),
        First::Reserved => Ok(fault_at(p.line_number(), YamlKind::Indicator)),
        First::DashMark => {
            if is_fresh(state) && !known.inside {
                Ok(takes(TokenKind::Dash, true, p, document, p.along(1)))
            } else {
                Ok(fault_at(p.line_number(), other(known)))
            }
        }
        First::NoToken => Ok(fault_at(p.line_number(), other(known))),
        First::Other => plain_at(alloc, known, may_be_key(known, state), p, document),
    }
}

fn is_indented_by_tab(known: Known, state: &State<'_>) -> bool
    ensures { result ≡ is_indented_by_tab known state.now }
{
    let blanks = blanks_len(state.place.here);
    state.place.column == 0 && !known.inside && has_tab(&state.place.here[..blanks])
}

#[tactic(auto, unfolding(crate::specs::Tokens::token_in))]
fn token_in<'a>(
    alloc: Global,
    known: Known,
    state: &State<'_>,
    p: &Spot<'a>,
) -> Result<Part<'a>, AllocError>
    requires some { 1 ≤ length p.now.here }
    requires legible { IsLegiblePlace p.now }
    ensures { IfOk result (λ r. r ≡ token_in state.now.document known state.now p.now) }
{
    match state.document {
        Document::Ended => Ok(fault_at(p.line_number(), YamlKind::Documents)),
        _ => {
            if is_indented_by_tab(known, state) {
                Ok(fault_at(p.line_number(), YamlKind::Tab))
            } else {
                token_at(alloc, known, state, p)
            }
        }
    }
}

/// The reader at the next line.
fn to_next_line<'a>(state: &State<'a>, document: Document) -> Part<'a>
    ensures { result ≡ Gap (to_next_line state.now document) }
{
    Part::Gap {
        next: State {
            place: state.place.next_line(),
            dashed: false,
            document,
        },
    }
}

/// A comment from its sign on.
fn comment_at<'a>(state: &State<'a>, rest: &[u8]) -> Part<'a>
    requires { 1 ≤ length state.now.place.here }
    ensures { result ≡ (if has_no_text rest.now then fault_at state.now.place.line NotText else Gap (to_next_line state.now state.now.document)) }
{
    if has_no_text(rest) {
        fault_at(state.place.line_number(), YamlKind::NotText)
    } else {
        to_next_line(state, state.document)
    }
}

/// What a text begins with after its blanks.
#[tactic(auto, unfolding(crate::specs::Tokens::after_blanks))]
fn after_blanks<'a>(alloc: Global, known: Known, state: &State<'a>) -> Result<Part<'a>, AllocError>
    requires { IsLegiblePlace state.now.place }
    ensures { IfOk result (λ r. r ≡ after_blanks known state.now (drop (blanks_len state.now.place.here) state.now.place.here)) }
{
    let here = state.place.here;
    let blanks = blanks_len(here);
    match here[blanks..].split_first() {
        None => {
            if state.place.is_last() {
                Ok(Part::Over)
            } else {
                Ok(to_next_line(state, state.document))
            }
        }
        Some((first, rest)) => {
            if *first == b'#' && (state.place.column == 0 || blanks > 0) {
                Ok(comment_at(state, rest))
            } else if *first == NO_TEXT {
                Ok(fault_at(state.place.line_number(), YamlKind::NotText))
            } else {
                token_in(alloc, known, state, &state.place.along(blanks))
            }
        }
    }
}

fn may_stand(sign: DocumentSign, document: Document, known: Known) -> bool
    ensures { result ≡ may_stand sign document known }
{
    match (sign, document) {
        (DocumentSign::Begin, Document::Implied) => known.none,
        (DocumentSign::Begin, _) => false,
        (DocumentSign::End, Document::Ended) => false,
        (DocumentSign::End, _) => true,
    }
}

#[tactic(auto, unfolding(crate::specs::Tokens::sign_of))]
fn sign_of(known: Known, state: &State<'_>) -> Option<DocumentSign>
    ensures value { result ≡ sign_of known state.now }
    ensures some { IfSome result (λ _. 1 ≤ length state.now.place.here) }
{
    if state.place.column == 0 && !known.inside {
        document_sign(state.place.here)
    } else {
        None
    }
}

/// What a text begins with at a place.
#[tactic(auto, unfolding(crate::specs::Tokens::part_at, crate::specs::Tokens::by_sign))]
fn part_at<'a>(alloc: Global, known: Known, state: &State<'a>) -> Result<Part<'a>, AllocError>
    requires { IsLegiblePlace state.now.place }
    ensures { IfOk result (λ part. part ≡ part_at known state.now) }
{
    match sign_of(known, state) {
        None => after_blanks(alloc, known, state),
        Some(sign) => {
            if !may_stand(sign, state.document, known) {
                Ok(fault_at(state.place.line_number(), YamlKind::Documents))
            } else if has_no_text(state.place.here) {
                Ok(fault_at(state.place.line_number(), YamlKind::NotText))
            } else {
                let document = match sign {
                    DocumentSign::Begin => Document::Begun,
                    DocumentSign::End => Document::Ended,
                };
                Ok(to_next_line(state, document))
            }
        }
    }
}

/// The tokens of a text that is legible but for its end.
fn scan_legible(alloc: Global, text: &[u8]) -> Result<Places, AllocError>
    requires short { length text.now < 2 ^ 32 }
    requires legible { AreLegible (text_lines text.now) }
    ensures { IfOk result (λ found. Scans [] (first_state text.now) found.tokens.items found.bad) }
{
    let mut tokens = Vec::new(alloc);
    let mut counts = TokenCounts::first();
    let mut state = State {
        place: Spot::first(text),
        dashed: false,
        document: Document::Implied,
    };
    'reading: loop {
        match part_at(alloc, counts.known(), &state)? {
            Part::Over => return Ok(Places { tokens, bad: None }),
            Part::Gap { next } => state = next,
            Part::Token { token, next } => {
                counts = counts.after(&token);
                tokens.push(token)?;
                state = next;
            }
            Part::Fault { place } => {
                return Ok(Places {
                    tokens,
                    bad: Some(place),
                });
            }
        }
    }
}

/// The tokens of a YAML text, in their order, and the bad place that ends them, where there is one:
/// as [`scan`], for a reader of the tree.
pub fn scan_places(alloc: Global, bytes: &[u8]) -> Result<Places, AllocError>
    requires { length bytes.now < 2 ^ 32 }
    // What is answered are the tokens of the text and its bad place.
    ensures scan { IfOk result (λ found. HasPlaces bytes.now found.tokens.items found.bad) }
    // A text has no others.
    ensures only { IfOk result (λ found. (tokens : List Token) (bad : Option BadPlace) → HasPlaces bytes.now tokens bad → (tokens ≡ found.tokens.items) × (bad ≡ found.bad)) }
{
    let text = without_mark(bytes);
    match str::from_utf8(text) {
        Ok(_) => scan_legible(alloc, text),
        Err(error) => {
            let mut legible = Vec::from_slice(alloc, &text[..error.valid_up_to()])?;
            legible.push(NO_TEXT)?;
            scan_legible(alloc, &legible)
        }
    }
}

fn fault_of(bad: Option<BadPlace>) -> Option<ScanFault>
    ensures { result ≡ fault_of bad }
{
    match bad {
        Some(place) => Some(place.fault),
        None => None,
    }
}

/// The tokens of a YAML text, in their order, and the fault that ends them, where there is one.
///
/// The rules are those of YAML 1.2 in the profile of rule files; the kinds of faults are an own
/// choice.
pub fn scan(alloc: Global, bytes: &[u8]) -> Result<Scanned, AllocError>
    requires { length bytes.now < 2 ^ 32 }
    // What is answered are the tokens of the text and its fault.
    ensures scan { IfOk result (λ found. HasScan bytes.now found.tokens.items found.fault) }
    // A text has no others.
    ensures only { IfOk result (λ found. (tokens : List Token) (fault : Option ScanFault) → HasScan bytes.now tokens fault → (tokens ≡ found.tokens.items) × (fault ≡ found.fault)) }
{
    let found = scan_places(alloc, bytes)?;
    Ok(Scanned {
        tokens: found.tokens,
        fault: fault_of(found.bad),
    })
}
