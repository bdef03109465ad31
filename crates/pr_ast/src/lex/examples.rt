//! Worked examples of the definitions that contracts of this crate cite. Each is a function that
//! does nothing, and its contract says what the definitions give, so that none of them changes with
//! its code unseen.
ghost use Rattle.std.specs.Prelude.{◌≡◌, codes};
ghost use Rattle.pr_ast.specs.Signs.{sign_text};
ghost use Rattle.pr_ast.specs.Words.{word_text};
ghost use Rattle.pr_ast.specs.declared.lex.token.Sign.TheVariants as sign;
ghost use Rattle.pr_ast.specs.declared.lex.words.Word.TheVariants as word;

/// How each word of the query language is written.
#[tactic(auto, unfolding(crate::specs::Words::word_text))]
pub fn words_by_example()
    ensures and_word { word_text word.And ≡ codes "and" }
    ensures or_word { word_text word.Or ≡ codes "or" }
    ensures unless_word { word_text word.Unless ≡ codes "unless" }
    ensures on_word { word_text word.On ≡ codes "on" }
    ensures ignoring_word { word_text word.Ignoring ≡ codes "ignoring" }
    ensures group_left_word { word_text word.GroupLeft ≡ codes "group_left" }
    ensures group_right_word { word_text word.GroupRight ≡ codes "group_right" }
    ensures bool_word { word_text word.Bool ≡ codes "bool" }
    ensures offset_word { word_text word.Offset ≡ codes "offset" }
    ensures by_word { word_text word.By ≡ codes "by" }
    ensures without_word { word_text word.Without ≡ codes "without" }
    ensures sum_word { word_text word.Sum ≡ codes "sum" }
    ensures avg_word { word_text word.Avg ≡ codes "avg" }
    ensures min_word { word_text word.Min ≡ codes "min" }
    ensures max_word { word_text word.Max ≡ codes "max" }
    ensures count_word { word_text word.Count ≡ codes "count" }
    ensures group_word { word_text word.Group ≡ codes "group" }
    ensures topk { word_text word.TopK ≡ codes "topk" }
    ensures bottomk { word_text word.BottomK ≡ codes "bottomk" }
    ensures quantile_word { word_text word.Quantile ≡ codes "quantile" }
    ensures count_values_word { word_text word.CountValues ≡ codes "count_values" }
    ensures inf_word { word_text word.Inf ≡ codes "inf" }
    ensures nan_word { word_text word.NaN ≡ codes "nan" }
{}

/// How each sign is written.
pub fn signs_by_example()
    ensures left_brace { sign_text sign.LeftBrace ≡ codes "{" }
    ensures right_brace { sign_text sign.RightBrace ≡ codes "}" }
    ensures left_paren { sign_text sign.LeftParen ≡ codes "(" }
    ensures right_paren { sign_text sign.RightParen ≡ codes ")" }
    ensures left_bracket { sign_text sign.LeftBracket ≡ codes "[" }
    ensures right_bracket { sign_text sign.RightBracket ≡ codes "]" }
    ensures comma { sign_text sign.Comma ≡ codes "," }
    ensures colon { sign_text sign.Colon ≡ codes ":" }
    ensures assign { sign_text sign.Assign ≡ codes "=" }
    ensures not_equal { sign_text sign.NotEqual ≡ codes "!=" }
    ensures like { sign_text sign.Like ≡ codes "=~" }
    ensures not_like { sign_text sign.NotLike ≡ codes "!~" }
    ensures equal { sign_text sign.Equal ≡ codes "==" }
    ensures less { sign_text sign.Less ≡ codes "<" }
    ensures less_equal { sign_text sign.LessEqual ≡ codes "<=" }
    ensures greater { sign_text sign.Greater ≡ codes ">" }
    ensures greater_equal { sign_text sign.GreaterEqual ≡ codes ">=" }
    ensures plus { sign_text sign.Plus ≡ codes "+" }
    ensures minus { sign_text sign.Minus ≡ codes "-" }
    ensures star { sign_text sign.Star ≡ codes "*" }
    ensures slash { sign_text sign.Slash ≡ codes "/" }
    ensures percent { sign_text sign.Percent ≡ codes "%" }
{}
