//! The laws of the plain grammar, each as the contract of a function that does nothing.
ghost use Rattle.std.specs.Prelude.{ℕ, List, [], true, ◌↔◌};
ghost use Rattle.pr_forms.specs.Form.{rule, Reads, Begins, IsFirstBad};
ghost use Rattle.pr_ast.specs.declared.place.Place.{Place};
ghost use Rattle.pr_ast.specs.Tree.{Tree};
ghost use Rattle.pr_parse.specs.Seen.{Seen};
ghost use Rattle.pr_parse.specs.Grammar.{production, expression, part};
ghost use Rattle.pr_parse.specs.GrammarWhole.{IsBadPlace};
ghost use Rattle.laws_language.specs.private.Plain.{PlainlyReads, plain, Expr};

/// The plain grammar and the split one read the same tokens as the same tree, with the same places.
pub fn both_grammars_read_the_same()
    ensures { (ts : List Seen) (p : Place) (t : Tree) → PlainlyReads ts p t ↔ Reads production (rule expression) ts (part p t) [] }
{}

/// Both grammars begin the same: tokens can go on in the one where they can in the other.
pub fn both_grammars_begin_the_same()
    ensures { (ts rest : List Seen) → Begins plain (rule (Expr true)) ts rest ↔ Begins production (rule expression) ts rest }
{}

/// So the first bad place is that of the plain grammar.
pub fn both_grammars_have_the_same_bad_place()
    ensures { (ts : List Seen) (place : ℕ) → IsFirstBad plain (rule (Expr true)) ts place ↔ IsBadPlace ts place }
{}
