//! What the definitions say of small trees. An example is a function that does nothing, and its
//! contract is what it shows.
ghost use Rattle.std.specs.Prelude.{◌≡◌, codes, Some, None, false, true, [], ◌∷◌, map};
ghost use Rattle.pr_num.specs.declared.value.Num.TheVariants.{PosInf};
ghost use Rattle.pr_ast.specs.declared.lex.token.TokenKind.TheVariants.{Name, Duration, Text, Sign};
ghost use Rattle.pr_ast.specs.declared.lex.token.Sign.TheVariants.{LeftBrace, RightBrace, LeftParen, RightParen, LeftBracket, RightBracket, Comma, Colon, NotEqual, NotLike, Plus, Minus, Star};
ghost use Rattle.pr_labels.specs.declared.matching.Card.TheVariants as card;
ghost use Rattle.pr_ast.specs.declared.names.BinOp.TheVariants as op;
ghost use Rattle.pr_ast.specs.declared.names.AggOp.TheVariants as agg;
ghost use Rattle.pr_ast.specs.declared.selector.MatchSign.TheVariants as sign;
ghost use Rattle.pr_ast.specs.Tree.{number, select, sub, neg, binary, aggregate, call, none as no_arguments};
ghost use Rattle.pr_ast.specs.private.Places.{nowhere};
ghost use Rattle.pr_ast.specs.private.Examples.{chosen, metric, matcher, one, two, grouped, on_names};
ghost use Rattle.pr_ast.specs.declared.names.Func.TheVariants as func;
ghost use Rattle.pr_parse.specs.Seen.{kind_of};
ghost use Rattle.pr_parse.specs.Deep.{depth};
ghost use Rattle.laws_language.specs.private.Kinds.{tree_kinds};
ghost use Rattle.laws_language.specs.private.TreeHeight.{tree_height};

/// The tokens of small trees as they are printed.
#[tactic(auto, unfolding(pr_ast::specs::Words::word_text))]
pub fn small_trees_have_these_tokens()
    ensures negation { tree_kinds (binary nowhere op.Mul false None (metric (codes "a")) (neg nowhere (metric (codes "b")))) [] ≡ Name (codes "a") ∷ Sign Star ∷ Sign LeftParen ∷ Sign Minus ∷ Name (codes "b") ∷ Sign RightParen ∷ [] }
    ensures infinity { tree_kinds (number nowhere PosInf) [] ≡ Sign Plus ∷ Name (codes "Inf") ∷ [] }
    ensures many { tree_kinds (binary nowhere op.NotEqual true (Some (on_names (codes "l" ∷ codes "m" ∷ []) card.ManyToOne [])) (metric (codes "a")) (metric (codes "b"))) [] ≡ Name (codes "a") ∷ Sign NotEqual ∷ Name (codes "bool") ∷ Name (codes "on") ∷ Sign LeftParen ∷ Name (codes "l") ∷ Sign Comma ∷ Name (codes "m") ∷ Sign RightParen ∷ Name (codes "group_left") ∷ Sign LeftParen ∷ Sign RightParen ∷ Name (codes "b") ∷ [] }
    ensures grouping { tree_kinds (aggregate nowhere agg.TopK (grouped (codes "a" ∷ [])) (two (metric (codes "x")) (metric (codes "y")))) [] ≡ Name (codes "topk") ∷ Name (codes "by") ∷ Sign LeftParen ∷ Name (codes "a") ∷ Sign RightParen ∷ Sign LeftParen ∷ Name (codes "x") ∷ Sign Comma ∷ Name (codes "y") ∷ Sign RightParen ∷ [] }
    ensures no_grouping { tree_kinds (aggregate nowhere agg.Sum (grouped []) (one (metric (codes "x")))) [] ≡ Name (codes "sum") ∷ Sign LeftParen ∷ Name (codes "x") ∷ Sign RightParen ∷ [] }
    ensures matchers { tree_kinds (select nowhere (chosen (codes "m") (matcher (codes "a") sign.NotLike (codes "x") ∷ []) 0)) [] ≡ Name (codes "m") ∷ Sign LeftBrace ∷ Name (codes "a") ∷ Sign NotLike ∷ Text (codes "x") ∷ Sign RightBrace ∷ [] }
    ensures step { tree_kinds (sub nowhere (metric (codes "m")) 3600000 (Some 60000) 1) [] ≡ Name (codes "m") ∷ Sign LeftBracket ∷ Duration 3600000 ∷ Sign Colon ∷ Duration 60000 ∷ Sign RightBracket ∷ Name (codes "offset") ∷ Duration 1 ∷ [] }
{}

/// The nodes of the longest paths of small trees.
pub fn small_trees_have_so_many_nodes()
    ensures one { tree_height (metric (codes "x")) ≡ 1 }
    ensures no_arguments { tree_height (call nowhere func.Time no_arguments) ≡ 1 }
    ensures longest { tree_height (binary nowhere op.Add false None (metric (codes "x")) (neg nowhere (sub nowhere (metric (codes "y")) 60000 None 0))) ≡ 4 }
    ensures argument { tree_height (call nowhere func.ClampMin (two (neg nowhere (metric (codes "x"))) (number nowhere PosInf))) ≡ 3 }
{}

/// Each sign of a printed infinity is an operator: `+Inf + +Inf` has a depth of 4, and `(+Inf +
/// +Inf) + +Inf` one of 7.
#[tactic(auto, unfolding(pr_ast::specs::Words::word_of, pr_ast::specs::Words::words, pr_ast::specs::Words::is_word, pr_ast::specs::Words::word_text))]
pub fn signs_of_infinities_are_deep()
    ensures two { depth (map kind_of (tree_kinds (binary nowhere op.Add false None (number nowhere PosInf) (number nowhere PosInf)) [])) ≡ 4 }
    ensures three { depth (map kind_of (tree_kinds (binary nowhere op.Add false None (binary nowhere op.Add false None (number nowhere PosInf) (number nowhere PosInf)) (number nowhere PosInf)) [])) ≡ 7 }
{}
