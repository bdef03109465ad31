//! The laws of names, each as the contract of a function that does nothing.
ghost use Rattle.std.specs.Prelude.{◌≡◌, ◌↔◌, ℕ, ◌≤◌, ◌<◌, Some, List, [], length, drop, slice_get, suc};
ghost use Rattle.pr_forms.specs.Form.{Form, rule, Reads, Begins};
ghost use Rattle.pr_ast.specs.declared.lex.token.Sign.TheVariants.{LeftParen};
ghost use Rattle.pr_parse.specs.declared.grammar.kind.TokenClass.TheVariants.{Sign};
ghost use Rattle.pr_parse.specs.Seen.{Seen, kinds_seen};
ghost use Rattle.pr_parse.specs.Grammar.{production, expression, QueryValue};
ghost use Rattle.pr_parse.specs.GrammarWhole.{IsBadPlace};
ghost use Rattle.pr_parse.specs.declared.fault.ParseKind.TheVariants.{UnknownFunction};
ghost use Rattle.pr_parse.specs.Faults.{kind_before, kind_at};
ghost use Rattle.laws_language.specs.private.Named.{TakesLast, TakesWithin, FollowsName, paren_kind, paren_after};

/// A beginning of one token or more ends in a token that the form takes, with some value.
pub fn each_beginning_takes_its_last_token<T, N, V>()
    ensures { (G : N → Form T N V) (f : Form T N V) (ts : List T) (place : ℕ) → place < length ts →
        Begins G f ts (drop (suc place) ts) → (v : V) × TakesLast G f ts v (drop (suc place) ts) }
{}

/// A reading of a whole text takes each token of it, with some value; and so it does where it is
/// cut short after that token.
pub fn each_reading_takes_all_tokens<T, N, V>()
    ensures all { (G : N → Form T N V) (f : Form T N V) (ts : List T) (w : V) (place : ℕ) → place < length ts → Reads G f ts w [] →
        (v : V) × TakesWithin G f ts v (drop (suc place) ts) w [] }
    ensures cut { (G : N → Form T N V) (f : Form T N V) (ts at rest : List T) (v w : V) → TakesWithin G f ts v at w rest → TakesLast G f ts v at }
{}

/// The kind of a parenthesis is worked out from the tokens alone, and tells how the grammar reads
/// the one before it: in each expression, and in each beginning of one, after each of the tokens. A
/// parenthesis that is put there would be that of an unknown function where the token before it is
/// read as a metric's name or as a label and is no function's name; and else it would be
/// unexpected. So it is with one that stands there.
pub fn tokens_tell_how_names_are_read()
    ensures whole { (ts : List Seen) (place : ℕ) (v w : QueryValue) → place ≤ length ts →
        TakesWithin production (rule expression) ts v (drop place ts) w [] →
        paren_after (kinds_seen ts) place ≡ paren_kind (kind_before (kinds_seen ts) place) v }
    ensures put { (ts : List Seen) (place : ℕ) (v : QueryValue) → place ≤ length ts →
        TakesLast production (rule expression) ts v (drop place ts) →
        paren_after (kinds_seen ts) place ≡ paren_kind (kind_before (kinds_seen ts) place) v }
    ensures there { (ts : List Seen) (place : ℕ) (v : QueryValue) → TakesLast production (rule expression) ts v (drop place ts) →
        slice_get (kinds_seen ts) place ≡ Some (Sign LeftParen) →
        kind_at (kinds_seen ts) place ≡ paren_kind (kind_before (kinds_seen ts) place) v }
{}

/// The first bad place is that of an unknown function exactly where a parenthesis stands there,
/// after a name that the grammar read as a metric's or as a label, and that is no function's.
pub fn unknown_function_follows_a_name()
    ensures { (ts : List Seen) (place : ℕ) → IsBadPlace ts place →
        (kind_at (kinds_seen ts) place ≡ UnknownFunction) ↔ ((slice_get (kinds_seen ts) place ≡ Some (Sign LeftParen)) × FollowsName ts place) }
{}
