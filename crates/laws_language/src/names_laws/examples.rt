//! Small examples, each as the contract of a function that does nothing.
ghost use Rattle.std.specs.Prelude.{◌≡◌, List, [], ◌∷◌};
ghost use Rattle.pr_ast.specs.declared.lex.token.Sign.TheVariants.{LeftBrace, LeftParen, RightBrace, Assign};
ghost use Rattle.pr_ast.specs.declared.lex.words.Word.TheVariants.{By, On, Inf, Sum as SumWord};
ghost use Rattle.pr_ast.specs.declared.names.Func.TheVariants.{Rate};
ghost use Rattle.pr_parse.specs.declared.grammar.kind.TokenClass.TheVariants.{Word, Function, Plain, Text, Sign};
ghost use Rattle.pr_parse.specs.declared.fault.ParseKind.TheVariants.{Unexpected, UnknownFunction};
ghost use Rattle.laws_language.specs.private.Named.{paren_after};

/// What a parenthesis would be after `a`, `sum by (a`, `sum by (on`, `{on`, where names stand
/// before it that are no functions'; after `inf`, `sum by (rate` and `a{on="x"}`, where none does.
pub fn parentheses_are_told_so()
    ensures metric { paren_after (Plain ∷ []) 1 ≡ UnknownFunction }
    ensures label { paren_after (Word SumWord ∷ Word By ∷ Sign LeftParen ∷ Plain ∷ []) 4 ≡ UnknownFunction }
    ensures word { paren_after (Word SumWord ∷ Word By ∷ Sign LeftParen ∷ Word On ∷ []) 4 ≡ UnknownFunction }
    ensures matcher { paren_after (Sign LeftBrace ∷ Word On ∷ []) 2 ≡ UnknownFunction }
    ensures infinity { paren_after (Word Inf ∷ []) 1 ≡ Unexpected }
    ensures function { paren_after (Word SumWord ∷ Word By ∷ Sign LeftParen ∷ Function Rate ∷ []) 4 ≡ Unexpected }
    ensures brace { paren_after (Plain ∷ Sign LeftBrace ∷ Word On ∷ Sign Assign ∷ Text ∷ Sign RightBrace ∷ []) 6 ≡ Unexpected }
{}
