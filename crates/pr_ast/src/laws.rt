//! The laws of trees and names, each as the contract of a function that does nothing, and worked
//! examples of the definitions.
ghost use Rattle.std.specs.Prelude.{◌≡◌, ℕ, codes, true, false, Some, None, List};
ghost use Rattle.pr_ast.specs.Words.{word_of};
ghost use Rattle.pr_ast.specs.declared.names.Func.{Func};
ghost use Rattle.pr_ast.specs.declared.names.AggOp.{AggOp};
ghost use Rattle.pr_ast.specs.Names.{agg_word, agg_of, agg_text, func_text, func_of};
ghost use Rattle.pr_ast.specs.Tree.{Tree};
ghost use Rattle.pr_ast.specs.private.Print.{tree_text};
ghost use Rattle.pr_ast.specs.Reach.{reads_back};
ghost use Rattle.pr_ast.specs.private.Steps.{has_steps};
ghost use Rattle.pr_ast.specs.private.Places.{forget};

/// Each function is read by its name, a name that is read as a function is that function's, and no
/// function's name is one of the words of the language, in any case.
pub fn functions_have_names()
    ensures read { (f : Func) → func_of (func_text f) ≡ Some f }
    ensures only { (name : List ℕ) (f : Func) → func_of name ≡ Some f → name ≡ func_text f }
    ensures no_word { (f : Func) → word_of (func_text f) ≡ None }
{}

/// Each aggregation is read by its name.
pub fn aggregations_have_names()
    ensures word { (op : AggOp) → word_of (agg_text op) ≡ Some (agg_word op) }
    ensures read { (op : AggOp) → agg_of (agg_word op) ≡ Some op }
{}

/// Places are in nothing that is said of a tree: not in its text, in how far back it reads, and in
/// its steps.
pub fn places_do_not_matter()
    ensures text { (t : Tree) → tree_text (forget t) ≡ tree_text t }
    ensures reach { (t : Tree) → reads_back (forget t) ≡ reads_back t }
    ensures steps { (t : Tree) → has_steps (forget t) ≡ has_steps t }
    ensures again { (t : Tree) → forget (forget t) ≡ forget t }
{}
