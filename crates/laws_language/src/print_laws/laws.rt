//! The laws of printed texts, each as the contract of a function that does nothing.
ghost use Rattle.std.specs.Prelude.{◌≡◌, ℕ, List, [], ◌≤◌, Ok};
ghost use Rattle.pr_ast.specs.declared.lex.token.Token.{Token};
ghost use Rattle.pr_ast.specs.Tokens.{HasTokens};
ghost use Rattle.pr_ast.specs.private.Spaced.{kinds};
ghost use Rattle.pr_ast.specs.Tree.{Tree};
ghost use Rattle.pr_ast.specs.private.Places.{IsSameButPlaces};
ghost use Rattle.pr_ast.specs.private.Print.{tree_text};
ghost use Rattle.pr_parse.specs.Seen.{seen_tokens};
ghost use Rattle.pr_parse.specs.GrammarWhole.{Derives};
ghost use Rattle.pr_parse.specs.Parsed.{parsed, gives_tree};
ghost use Rattle.pr_parse.specs.pr_types.declared.kind.ValueType.{ValueType};
ghost use Rattle.pr_parse.specs.pr_types.Typed.{typed, checked};
ghost use Rattle.laws_language.specs.private.Kinds.{tree_kinds};
ghost use Rattle.laws_language.specs.private.TreeHeight.{tree_height};
ghost use Rattle.laws_language.specs.private.Shallow.{IsShallow};

/// The printed text of a tree that was read from a text has tokens, and these are the tokens of the
/// tree. They are read as the same tree again, but for places.
pub fn printed_trees_are_read_again()
    ensures tokens { (text : List ℕ) (tokens : List Token) (t : Tree) → HasTokens text tokens → Derives (seen_tokens tokens) t →
        (again : List Token) × (HasTokens (tree_text t) again × (kinds again ≡ tree_kinds t [])) }
    ensures again { (text : List ℕ) (tokens again : List Token) (t : Tree) → HasTokens text tokens → Derives (seen_tokens tokens) t → HasTokens (tree_text t) again →
        (u : Tree) × (Derives (seen_tokens again) u × IsSameButPlaces u t) }
{}

/// The printed text of a tree that was read from the tokens of a text is parsed as the same tree,
/// but for places, unless it is too deep. (What is read may be too deep to be parsed itself, as
/// where parentheses that mean nothing go away.)
pub fn printed_trees_are_parsed_again()
    ensures { (text : List ℕ) (tokens : List Token) (t : Tree) → HasTokens text tokens → Derives (seen_tokens tokens) t → IsShallow (tree_text t) →
        (u : Tree) × ((parsed (tree_text t) ≡ gives_tree u) × IsSameButPlaces u t) }
{}

/// A tree that has a type is printed shallow where no path from its root has more than 34 nodes.
pub fn typed_trees_of_34_nodes_are_printed_shallow()
    ensures typed { (text : List ℕ) (tokens : List Token) (t : Tree) (v : ValueType) → HasTokens text tokens → Derives (seen_tokens tokens) t → typed t ≡ Ok v → tree_height t ≤ 34 → IsShallow (tree_text t) }
    ensures checked { (text : List ℕ) (tokens : List Token) (t : Tree) (v : ValueType) → HasTokens text tokens → Derives (seen_tokens tokens) t → checked t ≡ Ok v → tree_height t ≤ 34 → IsShallow (tree_text t) }
{}
