//! Worked texts of the query language, each with its tokens or its first fault, as a clause that the
//! check computes.
ghost use Rattle.std.specs.Prelude.{◌≡◌, [], ◌∷◌, codes};
ghost use Rattle.pr_ast.specs.declared.lex.token.Sign.TheVariants.{LeftBracket, RightBracket, Colon, GreaterEqual, NotLike, Minus};
ghost use Rattle.pr_ast.specs.declared.lex.fault.LexKind.TheVariants.{BadChar, OpenText, BadEscape, BadNumber, TooWide, BadSpan, SpanTooLong};
ghost use Rattle.pr_ast.specs.Lexed.{lexed, gives_tokens, gives_fault};
ghost use Rattle.pr_ast.specs.private.Worked.{name, number, duration, string, sign};

/// Texts and their tokens, with their places.
pub fn texts_give_these_tokens()
    ensures nothing { lexed [] ≡ gives_tokens [] }
    ensures blanks { lexed (codes " \t\r\n") ≡ gives_tokens [] }
    ensures comment { lexed (codes "a # b\nc") ≡ gives_tokens (name 0 1 (codes "a") ∷ name 6 7 (codes "c") ∷ []) }
    ensures colon { lexed (codes "a:b") ≡ gives_tokens (name 0 3 (codes "a:b") ∷ []) }
    ensures brackets { lexed (codes "x[5m:]") ≡ gives_tokens (name 0 1 (codes "x") ∷ sign 1 2 LeftBracket ∷ duration 2 4 300000 ∷ sign 4 5 Colon ∷ sign 5 6 RightBracket ∷ []) }
    ensures after_brackets { lexed (codes "x[5m] 5:") ≡ gives_tokens (name 0 1 (codes "x") ∷ sign 1 2 LeftBracket ∷ duration 2 4 300000 ∷ sign 4 5 RightBracket ∷ number 6 7 5000000000 ∷ name 7 8 (codes ":") ∷ []) }
    ensures longest { lexed (codes "1.5>=-2") ≡ gives_tokens (number 0 3 1500000000 ∷ sign 3 5 GreaterEqual ∷ sign 5 6 Minus ∷ number 6 7 2000000000 ∷ []) }
    ensures string { lexed (codes "a!~'\\x41'") ≡ gives_tokens (name 0 1 (codes "a") ∷ sign 1 3 NotLike ∷ string 3 9 (codes "A") ∷ []) }
    ensures digits_and_letter { lexed (codes "5x") ≡ gives_tokens (number 0 1 5000000000 ∷ name 1 2 (codes "x") ∷ []) }
    ensures point_before_unit { lexed (codes "1.5s") ≡ gives_tokens (number 0 3 1500000000 ∷ name 3 4 (codes "s") ∷ []) }
{}

/// Texts and their first faults.
pub fn texts_give_these_faults()
    ensures no_token { lexed (codes "a $") ≡ gives_fault 2 BadChar }
    ensures half_sign { lexed (codes "a ! b") ≡ gives_fault 3 BadChar }
    ensures no_end { lexed (codes "a \"b") ≡ gives_fault 2 OpenText }
    ensures line_feed { lexed (codes "\"a\nb\"") ≡ gives_fault 0 OpenText }
    ensures line_feed_after_backslash { lexed (codes "\"a\\\nb\"") ≡ gives_fault 3 BadEscape }
    ensures no_escape { lexed (codes "\"\\q\"") ≡ gives_fault 2 BadEscape }
    ensures no_exponent { lexed (codes "1ex") ≡ gives_fault 2 BadNumber }
    ensures point_alone { lexed (codes ". 5") ≡ gives_fault 1 BadNumber }
    ensures wide { lexed (codes "a 1e20") ≡ gives_fault 2 TooWide }
    ensures no_unit { lexed (codes "5m3x") ≡ gives_fault 3 BadSpan }
    ensures long { lexed (codes "35y") ≡ gives_fault 0 SpanTooLong }
{}
