//! What the definitions say of small lists of problems.
ghost use Rattle.std.specs.Prelude.{◌≡◌, ◌∷◌, [], codes};
ghost use Rattle.pr_yaml.specs.declared.yaml_scan.fault.YamlKind.TheVariants.{Tab};
ghost use Rattle.pr_ast.specs.declared.lex.fault.LexKind.TheVariants.{BadChar};
ghost use Rattle.pr_parse.specs.declared.fault.ParseKind.TheVariants.{End};
ghost use Rattle.pr_parse.specs.pr_types.declared.kind.TypeKind.TheVariants.{BoolNeeded};
ghost use Rattle.pr_parse.specs.declared.query_kind.QueryKind.TheVariants.{Lex, Parse, Typing};
ghost use Rattle.pr_rulefile.specs.declared.fields.problem.ProblemKind.TheVariants.{Yaml, WantMap, WantList, WantText, UnknownField, Missing, DuplicateGroup, NoName, TwoNames, BadName, BadLabel, BadSpan, BadLimit, NotForRecording, Expression, BadTemplate, BadSeries, DuplicateSeries, BadValues, TooManyValues, BadValue, FuzzyCompare};
ghost use Rattle.pr_rulefile.specs.Problems.{problem};
ghost use Rattle.pr_rulefile.specs.Order.{in_order};

/// On one line problems are told in the order of their kinds. Lines come before kinds, and what is
/// of one line and kind stays as it was found.
#[tactic(auto, unfolding(crate::specs::Order::in_order))]
pub fn kinds_have_this_order()
    ensures kinds { in_order (
        problem 1 FuzzyCompare ∷ problem 1 BadValue ∷ problem 1 TooManyValues ∷ problem 1 BadValues ∷ problem 1 DuplicateSeries ∷ problem 1 BadSeries
        ∷ problem 1 (BadTemplate 0) ∷ problem 1 (Expression (Typing BoolNeeded) 0) ∷ problem 1 (Expression (Parse End) 0) ∷ problem 1 (Expression (Lex BadChar) 0) ∷ problem 1 (NotForRecording (codes "for"))
        ∷ problem 1 BadLimit ∷ problem 1 BadSpan ∷ problem 1 (BadLabel (codes "a-b")) ∷ problem 1 BadName ∷ problem 1 TwoNames ∷ problem 1 NoName
        ∷ problem 1 (DuplicateGroup (codes "g")) ∷ problem 1 (Missing (codes "expr")) ∷ problem 1 (UnknownField (codes "x"))
        ∷ problem 1 WantText ∷ problem 1 WantList ∷ problem 1 WantMap ∷ problem 1 (Yaml Tab) ∷ [])
        ≡ problem 1 (Yaml Tab) ∷ problem 1 WantMap ∷ problem 1 WantList ∷ problem 1 WantText
        ∷ problem 1 (UnknownField (codes "x")) ∷ problem 1 (Missing (codes "expr")) ∷ problem 1 (DuplicateGroup (codes "g"))
        ∷ problem 1 NoName ∷ problem 1 TwoNames ∷ problem 1 BadName ∷ problem 1 (BadLabel (codes "a-b")) ∷ problem 1 BadSpan ∷ problem 1 BadLimit
        ∷ problem 1 (NotForRecording (codes "for")) ∷ problem 1 (Expression (Lex BadChar) 0) ∷ problem 1 (Expression (Parse End) 0) ∷ problem 1 (Expression (Typing BoolNeeded) 0) ∷ problem 1 (BadTemplate 0)
        ∷ problem 1 BadSeries ∷ problem 1 DuplicateSeries ∷ problem 1 BadValues ∷ problem 1 TooManyValues ∷ problem 1 BadValue ∷ problem 1 FuzzyCompare ∷ [] }
    ensures lines { in_order (problem 2 WantMap ∷ problem 10 WantMap ∷ problem 1 BadValue ∷ []) ≡ problem 1 BadValue ∷ problem 2 WantMap ∷ problem 10 WantMap ∷ [] }
    ensures as_found { in_order (problem 4 (BadLabel (codes "b")) ∷ problem 4 (BadLabel (codes "a")) ∷ []) ≡ problem 4 (BadLabel (codes "b")) ∷ problem 4 (BadLabel (codes "a")) ∷ [] }
{}
