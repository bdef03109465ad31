//! Laws of the definitions that contracts of this crate cite. A law is a function that does
//! nothing, and its contract is the theorem.
ghost use Rattle.std.specs.Prelude.{◌≡◌, ◌≤◌, ◌<◌, ◌^◌, ◌-◌, ◌++◌, ◌∷◌, [], ℕ, Bool, true, List, length, Option, None, Some, Ok};
ghost use Rattle.pr_ast.specs.pr_labels.Names.{is_label_name};
ghost use Rattle.pr_ast.specs.pr_labels.declared.grouping.Grouping.{Grouping};
ghost use Rattle.pr_ast.specs.pr_labels.declared.matching.Matching.{Matching};
ghost use Rattle.pr_match.specs.Pattern.{is_pattern};
ghost use Rattle.pr_ast.specs.declared.place.Place.{Place};
ghost use Rattle.pr_ast.specs.declared.names.BinOp.{BinOp};
ghost use Rattle.pr_ast.specs.declared.names.Func.{Func};
ghost use Rattle.pr_ast.specs.declared.names.Func.TheVariants as func;
ghost use Rattle.pr_ast.specs.declared.names.AggOp.{AggOp};
ghost use Rattle.pr_ast.specs.declared.names.AggOp.TheVariants as agg;
ghost use Rattle.pr_ast.specs.declared.selector.Selector.{Selector};
ghost use Rattle.pr_ast.specs.Tree.{Tree, select, range, sub, neg, binary, call, aggregate, more};
ghost use Rattle.pr_ast.specs.Reach.{reads_back};
ghost use Rattle.pr_ast.specs.private.Steps.{has_steps};
ghost use Rattle.pr_types.specs.declared.kind.ValueType.{ValueType};
ghost use Rattle.pr_types.specs.declared.kind.ValueType.TheVariants.{Vector, Range};
ghost use Rattle.pr_types.specs.Signatures.{func_signature, agg_signature};
ghost use Rattle.pr_types.specs.Selectors.{tests_of, checked_tests};
ghost use Rattle.pr_types.specs.Operations.{is_instant};
ghost use Rattle.pr_types.specs.Typed.{typed, checked, content_at, step_fault, kept};
ghost use Rattle.pr_types.specs.private.Built.{tests_in};
ghost use Rattle.pr_types.specs.private.Numbers.{ranges_in, counts_in, exact_counts};
ghost use Rattle.pr_types.specs.private.Checking.{MayEvaluate};
ghost use Rattle.pr_types.specs.private.Parts.{arguments, AreArguments, AreOperands, may_give};

/// The parts of an expression that has a type have types, and those that the expression wants: so
/// whoever walks down a checked expression knows the type of each part.
pub fn parts_of_typed_expressions_have_types()
    ensures selector { (p : Place) (s : Selector) (v : ValueType)
        → typed (select p s) ≡ Ok v → (checked_tests p.start s ≡ Ok (tests_of s)) × (v ≡ Vector) }
    ensures range { (p : Place) (s : Selector) (span : ℕ) (v : ValueType)
        → typed (range p s span) ≡ Ok v → (checked_tests p.start s ≡ Ok (tests_of s)) × (v ≡ Range) }
    ensures sign { (p : Place) (t : Tree) (v : ValueType)
        → typed (neg p t) ≡ Ok v → (typed t ≡ Ok v) × (is_instant v ≡ true) }
    ensures subquery { (p : Place) (t : Tree) (span : ℕ) (step : Option ℕ) (offset : ℕ) (v : ValueType)
        → typed (sub p t span step offset) ≡ Ok v → (typed t ≡ Ok Vector) × (step_fault step ≡ None) × (v ≡ Range) }
    ensures operation { (p : Place) (o : BinOp) (b : Bool) (m : Option Matching) (l r : Tree) (v : ValueType)
        → typed (binary p o b m l r) ≡ Ok v → (x : ValueType) × ((y : ValueType) × AreOperands o b m l r v x y) }
    ensures call { (p : Place) (f : Func) (ts : Tree) (v : ValueType)
        → typed (call p f ts) ≡ Ok v → AreArguments (func_signature f) (arguments ts) × (v ≡ (func_signature f).gives) }
    ensures aggregate { (p : Place) (o : AggOp) (g : Grouping) (ts : Tree) (v : ValueType)
        → typed (aggregate p o g ts) ≡ Ok v → AreArguments (agg_signature o) (arguments ts) × (v ≡ (agg_signature o).gives) }
{}

/// The texts that calls and aggregations take as names of labels and as patterns are such.
pub fn texts_of_typed_expressions_are_good()
    ensures replaced { (p : Place) (ts : Tree) (v : ValueType) → typed (call p func.LabelReplace ts) ≡ Ok v
        → (is_label_name (content_at ts 1) ≡ true) × (is_pattern (content_at ts 4) ≡ true) }
    ensures joined { (p : Place) (ts : Tree) (v : ValueType) → typed (call p func.LabelJoin ts) ≡ Ok v
        → is_label_name (content_at ts 1) ≡ true }
    ensures counted { (p : Place) (g : Grouping) (ts : Tree) (v : ValueType) → typed (aggregate p agg.CountValues g ts) ≡ Ok v
        → is_label_name (content_at ts 0) ≡ true }
{}

/// What the outermost node of an expression tells of its type: nothing but a text is a text,
/// nothing but a range selector or a subquery is a range, and a list of arguments is nothing.
pub fn outermost_nodes_tell_types()
    ensures { (t : Tree) (v : ValueType) → typed t ≡ Ok v → may_give t v ≡ true }
{}

/// An expression is checked exactly where it has the type of a scalar or a vector, and looks no
/// further back than 45 days. No step in it is 0.
pub fn checked_expressions_are_typed_and_reach_kept_samples()
    ensures typed { (t : Tree) (v : ValueType)
        → checked t ≡ Ok v → (typed t ≡ Ok v) × (is_instant v ≡ true) × (reads_back t ≤ kept) }
    ensures checked { (t : Tree) (v : ValueType)
        → typed t ≡ Ok v → is_instant v ≡ true → reads_back t ≤ kept → checked t ≡ Ok v }
    ensures steps { (t : Tree) (v : ValueType) → typed t ≡ Ok v → has_steps t ≡ true }
    ensures evaluated { (t : Tree) (v : ValueType) → checked t ≡ Ok v → MayEvaluate t }
{}

/// A range selector is a selector; and where an expression has fewer than 2^64 selectors and
/// patterns, as each that is checked has, its counts are exact.
pub fn counts_are_exact_below_2_64()
    ensures ranges { (t : Tree) → ranges_in t ≤ length (tests_in t) }
    ensures exact { (t : Tree) → (exact_counts t).selectors < 2 ^ 64 → (exact_counts t).patterns < 2 ^ 64
        → counts_in t ≡ exact_counts t }
{}
