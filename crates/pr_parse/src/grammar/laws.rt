//! The laws of the grammar, each as the contract of a function that does nothing.
ghost use Rattle.std.specs.Prelude.{◌≡◌, List, true};
ghost use Rattle.pr_forms.specs.Table.{IsDecided};
ghost use Rattle.pr_forms.specs.Reading.{Ends};
ghost use Rattle.pr_ast.specs.declared.lex.token.Token.{Token};
ghost use Rattle.pr_ast.specs.private.Spaced.{kinds};
ghost use Rattle.pr_ast.specs.Tree.{Tree};
ghost use Rattle.pr_ast.specs.private.Places.{IsSameButPlaces};
ghost use Rattle.pr_ast.specs.private.Steps.{has_steps};
ghost use Rattle.pr_parse.specs.Grammar.{production};
ghost use Rattle.pr_parse.specs.GrammarTable.{table, rank, steps};
ghost use Rattle.pr_parse.specs.Seen.{seen_tokens};
ghost use Rattle.pr_parse.specs.GrammarWhole.{Derives};

/// One token ahead decides the grammar.
pub fn one_token_decides()
    ensures { IsDecided production table }
{}

/// The grammar ends: so readings and first bad places are functions of the tokens.
pub fn the_grammar_ends()
    ensures { Ends production table rank steps }
{}

/// No tree that is read from tokens has a subquery with a given step of 0.
pub fn trees_have_steps()
    ensures { (tokens : List Token) (tree : Tree) → Derives (seen_tokens tokens) tree → has_steps tree ≡ true }
{}

/// Where tokens stand matters to nothing but the places of nodes: tokens of the same kinds have the
/// same tree, but for places.
pub fn places_of_tokens_do_not_matter()
    ensures { (ts us : List Token) (t : Tree) → kinds ts ≡ kinds us → Derives (seen_tokens ts) t → (u : Tree) × (Derives (seen_tokens us) u × IsSameButPlaces u t) }
{}
