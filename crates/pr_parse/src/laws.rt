//! The laws of what texts are as expressions, each as the contract of a function that does nothing.
ghost use Rattle.std.specs.Prelude.{◌≡◌, ◌↔◌, ℕ, List, true};
ghost use Rattle.pr_ast.specs.declared.lex.fault.LexKind.{LexKind};
ghost use Rattle.pr_ast.specs.Tokens.{HasFault};
ghost use Rattle.pr_ast.specs.Tree.{Tree};
ghost use Rattle.pr_ast.specs.private.Steps.{has_steps};
ghost use Rattle.pr_parse.specs.declared.fault.ParseKind.{ParseKind};
ghost use Rattle.pr_parse.specs.Derived.{IsExpression, HasBadPlace};
ghost use Rattle.pr_parse.specs.Parsed.{parsed, gives_tree, gives_lex_fault, gives_fault};

/// A text gives its tree, where it is an expression; else the first fault of its tokens, or their
/// first bad place. So it has one tree at most, one fault at most, and never both.
pub fn parsed_is_tree_or_fault()
    ensures tree { (text : List ℕ) (tree : Tree) → (parsed text ≡ gives_tree tree) ↔ IsExpression text tree }
    ensures lex { (text : List ℕ) (at : ℕ) (kind : LexKind) → (parsed text ≡ gives_lex_fault at kind) ↔ HasFault text at kind }
    ensures fault { (text : List ℕ) (at : ℕ) (kind : ParseKind) → (parsed text ≡ gives_fault at kind) ↔ HasBadPlace text at kind }
{}

/// A text has one tree at most.
pub fn text_has_one_tree()
    ensures { (text : List ℕ) (t u : Tree) → IsExpression text t → IsExpression text u → t ≡ u }
{}

/// A text has one fault at most, and none where it has a tree.
pub fn text_has_one_fault()
    ensures place { (text : List ℕ) (at other : ℕ) (kind sort : ParseKind) → HasBadPlace text at kind → HasBadPlace text other sort → at ≡ other }
    ensures kind { (text : List ℕ) (at other : ℕ) (kind sort : ParseKind) → HasBadPlace text at kind → HasBadPlace text other sort → kind ≡ sort }
    ensures no_tree { (text : List ℕ) (tree : Tree) (at : ℕ) (kind : ParseKind) → IsExpression text tree → HasBadPlace text at kind → ⊥ }
    ensures no_lex { (text : List ℕ) (at other : ℕ) (kind : ParseKind) (sort : LexKind) → HasBadPlace text at kind → HasFault text other sort → ⊥ }
{}

/// No expression has a subquery with a given step of 0.
pub fn expressions_have_steps()
    ensures { (text : List ℕ) (tree : Tree) → IsExpression text tree → has_steps tree ≡ true }
{}
