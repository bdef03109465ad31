//! What the definitions say of the tokens of small texts. An example is a function that does
//! nothing, and its contract is what it shows: the texts are those of its comments.
ghost use Rattle.std.specs.Prelude.{◌≡◌, codes, None, false, [], ◌∷◌};
ghost use Rattle.pr_ast.specs.private.Worked.{name, duration, sign};
ghost use Rattle.pr_ast.specs.declared.lex.token.Sign.TheVariants as signs;
ghost use Rattle.pr_ast.specs.declared.lex.words.Word.TheVariants.{And};
ghost use Rattle.pr_ast.specs.declared.names.BinOp.TheVariants as op;
ghost use Rattle.pr_ast.specs.declared.names.AggOp.TheVariants as agg;
ghost use Rattle.pr_ast.specs.Tree.{binary, aggregate};
ghost use Rattle.pr_ast.specs.private.Examples.{one, grouped};
ghost use Rattle.pr_parse.specs.declared.grammar.kind.TokenClass.TheVariants.{Plain, Span, Text, Word, Sign};
ghost use Rattle.pr_parse.specs.Seen.{seen_tokens};
ghost use Rattle.pr_parse.specs.declared.fault.ParseKind.TheVariants as kind;
ghost use Rattle.pr_parse.specs.Deep.{depth};
ghost use Rattle.pr_parse.specs.Parsed.{parsed_tokens, gives_tree, gives_fault};
ghost use Rattle.pr_parse.specs.private.Examples.{place, metric};

/// The trees and the faults of small texts.
pub fn small_texts_give_so()
    // `x y`
    ensures two_names { parsed_tokens 3 (seen_tokens (name 0 1 (codes "x") ∷ name 2 3 (codes "y") ∷ [])) ≡ gives_fault 2 kind.Unexpected }
    // `x +`
    ensures no_right_side { parsed_tokens 3 (seen_tokens (name 0 1 (codes "x") ∷ sign 2 3 signs.Plus ∷ [])) ≡ gives_fault 3 kind.End }
    // ``
    ensures nothing { parsed_tokens 0 (seen_tokens ([])) ≡ gives_fault 0 kind.End }
    // `x offset 5m offset 5m`
    ensures second_offset { parsed_tokens 21 (seen_tokens (name 0 1 (codes "x") ∷ name 2 8 (codes "offset") ∷ duration 9 11 300000 ∷ name 12 18 (codes "offset") ∷ duration 19 21 300000 ∷ [])) ≡ gives_fault 12 kind.Misplaced }
    // `x[0s]`
    ensures range_of_0 { parsed_tokens 5 (seen_tokens (name 0 1 (codes "x") ∷ sign 1 2 signs.LeftBracket ∷ duration 2 4 0 ∷ sign 4 5 signs.RightBracket ∷ [])) ≡ gives_fault 2 kind.ZeroSpan }
    // `(x)[5m]`
    ensures range_of_parentheses { parsed_tokens 7 (seen_tokens (sign 0 1 signs.LeftParen ∷ name 1 2 (codes "x") ∷ sign 2 3 signs.RightParen ∷ sign 3 4 signs.LeftBracket ∷ duration 4 6 300000 ∷ sign 6 7 signs.RightBracket ∷ [])) ≡ gives_fault 6 kind.Misplaced }
    // `foo(x)`
    ensures no_function { parsed_tokens 6 (seen_tokens (name 0 3 (codes "foo") ∷ sign 3 4 signs.LeftParen ∷ name 4 5 (codes "x") ∷ sign 5 6 signs.RightParen ∷ [])) ≡ gives_fault 3 kind.UnknownFunction }
    // `x{__name__`
    ensures name_again { parsed_tokens 10 (seen_tokens (name 0 1 (codes "x") ∷ sign 1 2 signs.LeftBrace ∷ name 2 10 (codes "__name__") ∷ [])) ≡ gives_fault 2 kind.TwoNames }
    // `a - b - c`
    ensures from_the_left { parsed_tokens 9 (seen_tokens (name 0 1 (codes "a") ∷ sign 2 3 signs.Minus ∷ name 4 5 (codes "b") ∷ sign 6 7 signs.Minus ∷ name 8 9 (codes "c") ∷ [])) ≡ gives_tree (binary (place 0 9) op.Sub false None (binary (place 0 5) op.Sub false None (metric 0 1 (codes "a")) (metric 4 5 (codes "b"))) (metric 8 9 (codes "c"))) }
    // `(a) + b`
    ensures parentheses_around { parsed_tokens 7 (seen_tokens (sign 0 1 signs.LeftParen ∷ name 1 2 (codes "a") ∷ sign 2 3 signs.RightParen ∷ sign 4 5 signs.Plus ∷ name 6 7 (codes "b") ∷ [])) ≡ gives_tree (binary (place 0 7) op.Add false None (metric 1 2 (codes "a")) (metric 6 7 (codes "b"))) }
    // `+a + b`
    ensures plus_before { parsed_tokens 6 (seen_tokens (sign 0 1 signs.Plus ∷ name 1 2 (codes "a") ∷ sign 3 4 signs.Plus ∷ name 5 6 (codes "b") ∷ [])) ≡ gives_tree (binary (place 0 6) op.Add false None (metric 1 2 (codes "a")) (metric 5 6 (codes "b"))) }
    // `sum(x)by(a)`
    ensures group_after { parsed_tokens 11 (seen_tokens (name 0 3 (codes "sum") ∷ sign 3 4 signs.LeftParen ∷ name 4 5 (codes "x") ∷ sign 5 6 signs.RightParen ∷ name 6 8 (codes "by") ∷ sign 8 9 signs.LeftParen ∷ name 9 10 (codes "a") ∷ sign 10 11 signs.RightParen ∷ [])) ≡ gives_tree (aggregate (place 0 11) agg.Sum (grouped (codes "a" ∷ [])) (one (metric 4 5 (codes "x")))) }
{}

/// How deep small texts are.
pub fn small_texts_are_so_deep()
    // `x`
    ensures one_name { depth (Plain ∷ []) ≡ 1 }
    // `x and -y`
    ensures operators { depth (Plain ∷ Word And ∷ Sign signs.Minus ∷ Plain ∷ []) ≡ 3 }
    // `x[5m:]`
    ensures colon { depth (Plain ∷ Sign signs.LeftBracket ∷ Span ∷ Sign signs.Colon ∷ Sign signs.RightBracket ∷ []) ≡ 2 }
    // `{a!="b"}`
    ensures braces { depth (Sign signs.LeftBrace ∷ Plain ∷ Sign signs.NotEqual ∷ Text ∷ Sign signs.RightBrace ∷ []) ≡ 2 }
    // `-(-(`
    ensures open { depth (Sign signs.Minus ∷ Sign signs.LeftParen ∷ Sign signs.Minus ∷ Sign signs.LeftParen ∷ []) ≡ 4 }
    // `x, y`
    ensures outside { depth (Plain ∷ Sign signs.Comma ∷ Plain ∷ []) ≡ 1 }
{}
