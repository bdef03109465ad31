// Taking single tokens.
ghost use Rattle.std.specs.Prelude.{◌≡◌, ◌<◌, length, IfOk, IfSome, MatchOption, option_map, Some, None, true};
ghost use Rattle.pr_forms.specs.Form.{token};
ghost use Rattle.pr_forms.specs.Language.{Takes, Lacks};
ghost use Rattle.pr_parse.specs.Seen.{see, place_of};
ghost use Rattle.pr_parse.specs.Grammar.{same_sign, same_word, is_sign, is_word, text_of, span_of, number_of, operator_of, word_operator, sign_operator, matching_of, grouping_of, minus_of, side_of, match_of, aggregate_of, function_of, is_label, is_metric, is_text, is_span, is_shift, sign, the_word, operator, at, word, lasting, quoted, operation, matches, sided, signed, match_sign, grouper, aggregator, function, sign_at, word_at, operator_at, matching_at, grouping_at, minus_at, side_at, match_at, aggregate_at, function_at, label_at, metric_at, text_at, span_at, shift_at};
ghost use Rattle.pr_parse.specs.private.GrammarReader.{argument_starts};
ghost use Rattle.pr_parse.specs.GrammarTable.{starts_unary, queries};

use crate::grammar::kind::{Level, Lexed, TokenClass, place_of};
use pr_ast::labels::Card;
use pr_ast::lex::{Sign, TokenKind, Word};
use pr_ast::num::Num;
use pr_ast::time::Span;
use pr_ast::{AggOp, BinOp, Func, MatchSign, Place};
use pr_forms::take;

/// A span with its place.
#[derive(Clone, Copy, PartialEq, Eq, Debug)]
pub struct Lasting {
    pub place: Place,
    pub span: Span,
}

fn same_sign(wanted: Sign, sign: Sign) -> bool
    ensures { result ≡ same_sign wanted sign }
{
    wanted == sign
}

fn same_word(wanted: Word, word: Word) -> bool
    ensures { result ≡ same_word wanted word }
{
    wanted == word
}

fn is_sign(wanted: Sign, kind: TokenClass) -> bool
    ensures { result ≡ is_sign wanted kind }
{
    match kind {
        TokenClass::Sign(sign) => same_sign(wanted, sign),
        _ => false,
    }
}

fn is_word(wanted: Word, kind: TokenClass) -> bool
    ensures { result ≡ is_word wanted kind }
{
    match kind {
        TokenClass::Word(word) => same_word(wanted, word),
        _ => false,
    }
}

/// The bytes of a name or a string.
pub fn text_of(token: &TokenKind) -> &str
    ensures { result.now ≡ text_of token.now }
{
    match token {
        TokenKind::Name { text } | TokenKind::Text { text } => text.as_str(),
        _ => "",
    }
}

/// The span of no length.
pub fn no_span() -> Span
    ensures { result ≡ 0 }
{
    Span::new(0).unwrap()
}

fn span_of(token: &TokenKind) -> Span
    ensures { result ≡ span_of token.now }
{
    match token {
        TokenKind::Duration { span } => *span,
        _ => no_span(),
    }
}

/// The value of a number.
pub fn number_of(token: &TokenKind) -> Num
    ensures { result ≡ number_of token.now }
{
    match token {
        TokenKind::Number { value } => *value,
        _ => Num::NaN,
    }
}

fn word_operator(level: Level, word: Word) -> Option<BinOp>
    ensures { result ≡ word_operator level word }
{
    match (level, word) {
        (Level::Or, Word::Or) => Some(BinOp::Or),
        (Level::And, Word::And) => Some(BinOp::And),
        (Level::And, Word::Unless) => Some(BinOp::Unless),
        _ => None,
    }
}

fn sign_operator(level: Level, sign: Sign) -> Option<BinOp>
    ensures { result ≡ sign_operator level sign }
{
    match (level, sign) {
        (Level::Comparison, Sign::Equal) => Some(BinOp::Equal),
        (Level::Comparison, Sign::NotEqual) => Some(BinOp::NotEqual),
        (Level::Comparison, Sign::LessEqual) => Some(BinOp::LessEqual),
        (Level::Comparison, Sign::Less) => Some(BinOp::Less),
        (Level::Comparison, Sign::GreaterEqual) => Some(BinOp::GreaterEqual),
        (Level::Comparison, Sign::Greater) => Some(BinOp::Greater),
        (Level::Sum, Sign::Plus) => Some(BinOp::Add),
        (Level::Sum, Sign::Minus) => Some(BinOp::Sub),
        (Level::Product, Sign::Star) => Some(BinOp::Mul),
        (Level::Product, Sign::Slash) => Some(BinOp::Div),
        (Level::Product, Sign::Percent) => Some(BinOp::Rem),
        _ => None,
    }
}

fn operator_of(level: Level, kind: TokenClass) -> Option<BinOp>
    ensures { result ≡ operator_of level kind }
{
    match kind {
        TokenClass::Word(word) => word_operator(level, word),
        TokenClass::Sign(sign) => sign_operator(level, sign),
        _ => None,
    }
}

fn matching_of(kind: TokenClass) -> Option<bool>
    ensures { result ≡ matching_of kind }
{
    match kind {
        TokenClass::Word(Word::On) => Some(true),
        TokenClass::Word(Word::Ignoring) => Some(false),
        _ => None,
    }
}

fn grouping_of(kind: TokenClass) -> Option<bool>
    ensures { result ≡ grouping_of kind }
{
    match kind {
        TokenClass::Word(Word::By) => Some(true),
        TokenClass::Word(Word::Without) => Some(false),
        _ => None,
    }
}

fn minus_of(kind: TokenClass) -> Option<bool>
    ensures { result ≡ minus_of kind }
{
    match kind {
        TokenClass::Sign(Sign::Minus) => Some(true),
        TokenClass::Sign(Sign::Plus) => Some(false),
        _ => None,
    }
}

fn side_of(kind: TokenClass) -> Option<Card>
    ensures { result ≡ side_of kind }
{
    match kind {
        TokenClass::Word(Word::GroupLeft) => Some(Card::ManyToOne),
        TokenClass::Word(Word::GroupRight) => Some(Card::OneToMany),
        _ => None,
    }
}

fn match_of(kind: TokenClass) -> Option<MatchSign>
    ensures { result ≡ match_of kind }
{
    match kind {
        TokenClass::Sign(Sign::Assign) => Some(MatchSign::Equal),
        TokenClass::Sign(Sign::NotEqual) => Some(MatchSign::NotEqual),
        TokenClass::Sign(Sign::Like) => Some(MatchSign::Like),
        TokenClass::Sign(Sign::NotLike) => Some(MatchSign::NotLike),
        _ => None,
    }
}

fn aggregate_of(kind: TokenClass) -> Option<AggOp>
    ensures { result ≡ aggregate_of kind }
{
    match kind {
        TokenClass::Word(word) => AggOp::of(word),
        _ => None,
    }
}

fn function_of(kind: TokenClass) -> Option<Func>
    ensures { result ≡ function_of kind }
{
    match kind {
        TokenClass::Function(func) => Some(func),
        _ => None,
    }
}

fn is_label(named: bool, kind: TokenClass) -> bool
    ensures { result ≡ is_label named kind }
{
    match kind {
        TokenClass::Word(_) | TokenClass::Function(_) | TokenClass::Plain => true,
        TokenClass::OwnName => !named,
        _ => false,
    }
}

fn is_metric(kind: TokenClass) -> bool
    ensures { result ≡ is_metric kind }
{
    matches!(
        kind,
        TokenClass::Plain | TokenClass::WithColon | TokenClass::OwnName
    )
}

fn is_text(kind: TokenClass) -> bool
    ensures { result ≡ is_text kind }
{
    matches!(kind, TokenClass::Text)
}

fn is_span(kind: TokenClass) -> bool
    ensures { result ≡ is_span kind }
{
    matches!(kind, TokenClass::Span)
}

fn is_shift(kind: TokenClass) -> bool
    ensures { result ≡ is_shift kind }
{
    matches!(kind, TokenClass::ZeroSpan | TokenClass::Span)
}

/// The place of the sign at the front, where it is this one, and what follows it.
pub fn after(wanted: Sign, tokens: &[Lexed]) -> Option<(Place, &[Lexed])>
    ensures read { MatchOption result (Lacks queries (sign wanted) tokens.now) (λ x. Takes queries (sign wanted) tokens.now (at x.0) x.1.now) }
    ensures shorter { IfSome result (λ x. length x.1.now < length tokens.now) }
{
    take(
        tokens,
        |next: &Lexed| -> Option<Place>
            ensures { option_map at result ≡ sign_at wanted (see next.now) }
        {
            if is_sign(wanted, next.kind) {
                Some(place_of(&next.token))
            } else {
                None
            }
        },
    )
}

/// The place of the word at the front, where it is this one, and what follows it.
pub fn after_word(wanted: Word, tokens: &[Lexed]) -> Option<(Place, &[Lexed])>
    ensures read { MatchOption result (Lacks queries (the_word wanted) tokens.now) (λ x. Takes queries (the_word wanted) tokens.now (at x.0) x.1.now) }
    ensures shorter { IfSome result (λ x. length x.1.now < length tokens.now) }
{
    take(
        tokens,
        |next: &Lexed| -> Option<Place>
            ensures { option_map at result ≡ word_at wanted (see next.now) }
        {
            if is_word(wanted, next.kind) {
                Some(place_of(&next.token))
            } else {
                None
            }
        },
    )
}

/// The operator of the level at the front, and what follows it.
pub fn operator_in(level: Level, tokens: &[Lexed]) -> Option<(BinOp, &[Lexed])>
    ensures read { MatchOption result (Lacks queries (operator level) tokens.now) (λ x. Takes queries (operator level) tokens.now (operation x.0) x.1.now) }
    ensures shorter { IfSome result (λ x. length x.1.now < length tokens.now) }
{
    take(
        tokens,
        |next: &Lexed| -> Option<BinOp>
            ensures { option_map operation result ≡ operator_at level (see next.now) }
        { operator_of(level, next.kind) },
    )
}

/// Whether `on` or `ignoring` is at the front, and what follows it.
pub fn matching_in(tokens: &[Lexed]) -> Option<(bool, &[Lexed])>
    ensures read { MatchOption result (Lacks queries (token matching_at) tokens.now) (λ x. Takes queries (token matching_at) tokens.now (matches x.0) x.1.now) }
    ensures shorter { IfSome result (λ x. length x.1.now < length tokens.now) }
{
    take(
        tokens,
        |next: &Lexed| -> Option<bool>
            ensures { option_map matches result ≡ matching_at (see next.now) }
        { matching_of(next.kind) },
    )
}

/// Whether `by` or `without` is at the front, and what follows it.
pub fn grouping_in(tokens: &[Lexed]) -> Option<(bool, &[Lexed])>
    ensures read { MatchOption result (Lacks queries (token grouping_at) tokens.now) (λ x. Takes queries (token grouping_at) tokens.now (grouper x.0) x.1.now) }
    ensures shorter { IfSome result (λ x. length x.1.now < length tokens.now) }
{
    take(
        tokens,
        |next: &Lexed| -> Option<bool>
            ensures { option_map grouper result ≡ grouping_at (see next.now) }
        { grouping_of(next.kind) },
    )
}

/// The side that `group_left` or `group_right` at the front names, and what follows it.
pub fn side_in(tokens: &[Lexed]) -> Option<(Card, &[Lexed])>
    ensures read { MatchOption result (Lacks queries (token side_at) tokens.now) (λ x. Takes queries (token side_at) tokens.now (sided x.0) x.1.now) }
    ensures shorter { IfSome result (λ x. length x.1.now < length tokens.now) }
{
    take(
        tokens,
        |next: &Lexed| -> Option<Card>
            ensures { option_map sided result ≡ side_at (see next.now) }
        { side_of(next.kind) },
    )
}

/// The sign of a matcher at the front, and what follows it.
pub fn match_in(tokens: &[Lexed]) -> Option<(MatchSign, &[Lexed])>
    ensures read { MatchOption result (Lacks queries (token match_at) tokens.now) (λ x. Takes queries (token match_at) tokens.now (match_sign x.0) x.1.now) }
    ensures shorter { IfSome result (λ x. length x.1.now < length tokens.now) }
{
    take(
        tokens,
        |next: &Lexed| -> Option<MatchSign>
            ensures { option_map match_sign result ≡ match_at (see next.now) }
        { match_of(next.kind) },
    )
}

/// Whether the unary sign at the front is a minus, with its place, and what follows it.
pub fn minus_in(tokens: &[Lexed]) -> Option<((bool, Place), &[Lexed])>
    ensures read { MatchOption result (Lacks queries (token minus_at) tokens.now) (λ x. Takes queries (token minus_at) tokens.now (signed x.0.0 x.0.1) x.1.now) }
    ensures shorter { IfSome result (λ x. length x.1.now < length tokens.now) }
{
    take(
        tokens,
        |next: &Lexed| -> Option<(bool, Place)>
            ensures { option_map (λ x. signed x.0 x.1) result ≡ minus_at (see next.now) }
        {
            let minus = minus_of(next.kind)?;
            Some((minus, place_of(&next.token)))
        },
    )
}

/// The aggregation at the front with its place, and what follows it.
pub fn aggregate_in(tokens: &[Lexed]) -> Option<((AggOp, Place), &[Lexed])>
    ensures read { MatchOption result (Lacks queries (token aggregate_at) tokens.now) (λ x. Takes queries (token aggregate_at) tokens.now (aggregator x.0.0 x.0.1) x.1.now) }
    ensures shorter { IfSome result (λ x. length x.1.now < length tokens.now) }
{
    take(
        tokens,
        |next: &Lexed| -> Option<(AggOp, Place)>
            ensures { option_map (λ x. aggregator x.0 x.1) result ≡ aggregate_at (see next.now) }
        {
            let op = aggregate_of(next.kind)?;
            Some((op, place_of(&next.token)))
        },
    )
}

/// The span at the front, which is not 0, with its place, and what follows it.
pub fn span_in(tokens: &[Lexed]) -> Option<(Lasting, &[Lexed])>
    ensures read { MatchOption result (Lacks queries (token span_at) tokens.now) (λ x. Takes queries (token span_at) tokens.now (lasting x.0.place x.0.span) x.1.now) }
    ensures shorter { IfSome result (λ x. length x.1.now < length tokens.now) }
{
    take(
        tokens,
        |next: &Lexed| -> Option<Lasting>
            ensures { option_map (λ x. lasting x.place x.span) result ≡ span_at (see next.now) }
        {
            if is_span(next.kind) {
                Some(Lasting {
                    place: place_of(&next.token),
                    span: span_of(&next.token.kind),
                })
            } else {
                None
            }
        },
    )
}

/// The span at the front with its place, and what follows it.
pub fn shift_in(tokens: &[Lexed]) -> Option<(Lasting, &[Lexed])>
    ensures read { MatchOption result (Lacks queries (token shift_at) tokens.now) (λ x. Takes queries (token shift_at) tokens.now (lasting x.0.place x.0.span) x.1.now) }
    ensures shorter { IfSome result (λ x. length x.1.now < length tokens.now) }
{
    take(
        tokens,
        |next: &Lexed| -> Option<Lasting>
            ensures { option_map (λ x. lasting x.place x.span) result ≡ shift_at (see next.now) }
        {
            if is_shift(next.kind) {
                Some(Lasting {
                    place: place_of(&next.token),
                    span: span_of(&next.token.kind),
                })
            } else {
                None
            }
        },
    )
}

/// The label at the front with its place, and what follows it.
pub fn label_in(named: bool, tokens: &[Lexed]) -> Option<((Place, &str), &[Lexed])>
    ensures read { MatchOption result (Lacks queries (token (label_at named)) tokens.now) (λ x. Takes queries (token (label_at named)) tokens.now (word x.0.0 x.0.1.now) x.1.now) }
    ensures shorter { IfSome result (λ x. length x.1.now < length tokens.now) }
{
    let Some((first, rest)) = tokens.split_first() else {
        return None;
    };
    if is_label(named, first.kind) {
        Some(((place_of(&first.token), text_of(&first.token.kind)), rest))
    } else {
        None
    }
}

/// The metric's name at the front, where it is no function's, with its place, and what follows it.
pub fn metric_in(tokens: &[Lexed]) -> Option<((Place, &str), &[Lexed])>
    ensures read { MatchOption result (Lacks queries (token metric_at) tokens.now) (λ x. Takes queries (token metric_at) tokens.now (word x.0.0 x.0.1.now) x.1.now) }
    ensures shorter { IfSome result (λ x. length x.1.now < length tokens.now) }
{
    let Some((first, rest)) = tokens.split_first() else {
        return None;
    };
    if is_metric(first.kind) {
        Some(((place_of(&first.token), text_of(&first.token.kind)), rest))
    } else {
        None
    }
}

/// The string at the front, and what follows it.
pub fn text_in(tokens: &[Lexed]) -> Option<(&str, &[Lexed])>
    ensures read { MatchOption result (Lacks queries (token text_at) tokens.now) (λ x. Takes queries (token text_at) tokens.now (quoted x.0.now) x.1.now) }
    ensures shorter { IfSome result (λ x. length x.1.now < length tokens.now) }
{
    let Some((first, rest)) = tokens.split_first() else {
        return None;
    };
    if is_text(first.kind) {
        Some((text_of(&first.token.kind), rest))
    } else {
        None
    }
}

/// The name of a function at the front, with the function and its place, and what follows it.
pub fn function_in(tokens: &[Lexed]) -> Option<((Func, Place, &str), &[Lexed])>
    ensures read { MatchOption result (Lacks queries (token function_at) tokens.now) (λ x. Takes queries (token function_at) tokens.now (function x.0.0 x.0.1 x.0.2.now) x.1.now) }
    ensures shorter { IfSome result (λ x. length x.1.now < length tokens.now) }
{
    let Some((first, rest)) = tokens.split_first() else {
        return None;
    };
    match function_of(first.kind) {
        Some(func) => Some((
            (func, place_of(&first.token), text_of(&first.token.kind)),
            rest,
        )),
        None => None,
    }
}

fn starts_unary(kind: TokenClass) -> bool
    ensures { result ≡ starts_unary true kind }
{
    match kind {
        TokenClass::Number | TokenClass::Text | TokenClass::Function(_) => true,
        TokenClass::Plain | TokenClass::WithColon | TokenClass::OwnName => true,
        TokenClass::Word(Word::Inf | Word::NaN) => true,
        TokenClass::Word(word) => AggOp::of(word).is_some(),
        TokenClass::Sign(sign) => matches!(
            sign,
            Sign::LeftBrace | Sign::LeftParen | Sign::Plus | Sign::Minus
        ),
        _ => false,
    }
}

/// Whether an argument can begin with the next token.
pub fn starts_argument(tokens: &[Lexed]) -> bool
    ensures { result ≡ argument_starts tokens.now }
{
    match tokens.split_first() {
        Some((first, _rest)) => starts_unary(first.kind),
        None => false,
    }
}
