//! The laws of tokens, each as the contract of a function that does nothing.
ghost use Rattle.std.specs.Prelude.{◌≡◌, ◌≤◌, ◌^◌, ℕ, List, ◌∷◌, ◌++◌, length, ◌⊎◌, Ok, Err, Bool, true, false, pos, ◌↔◌};
ghost use Rattle.pr_time.specs.pr_forms.Table.{IsDecided};
ghost use Rattle.pr_ast.specs.declared.lex.token.Token.{Token};
ghost use Rattle.pr_ast.specs.declared.lex.fault.LexKind.{LexKind};
ghost use Rattle.pr_ast.specs.Number.{production};
ghost use Rattle.pr_ast.specs.Tokens.{inside_after, HasTokens, HasFault};
ghost use Rattle.pr_ast.specs.SignAt.{sign_at};
ghost use Rattle.pr_ast.specs.declared.lex.token.Sign.{Sign};
ghost use Rattle.pr_ast.specs.Signs.{sign_text, BeginsWithSign, IsLongestSign};
ghost use Rattle.pr_ast.specs.private.Order.{AreInOrder};
ghost use Rattle.pr_ast.specs.private.Spaced.{spaced, kinds};
ghost use Rattle.pr_ast.specs.Lexed.{lexed, gives_tokens, gives_fault};
ghost use Rattle.pr_ast.specs.private.Spelled.{Spells, ends_sign, IsNameText, ends_name, ends_number, ends_span};
ghost use Rattle.pr_ast.specs.declared.lex.token.TokenKind.{TokenKind};
ghost use Rattle.pr_ast.specs.declared.lex.token.TokenKind.TheVariants.{Name as NameKind, Number as NumberKind, Duration as DurationKind, Sign as SignKind, Text as TextKind};
ghost use Rattle.pr_num.specs.declared.value.Num.{Num};
ghost use Rattle.pr_num.specs.declared.value.Num.TheVariants.{Finite};
ghost use Rattle.pr_num.specs.Arithmetic.{IsFit};
ghost use Rattle.pr_num.specs.private.Forms.{HasUnsignedForm};
ghost use Rattle.pr_num.specs.Reads.{reads};
ghost use Rattle.pr_num.specs.Shown.{shown};
ghost use Rattle.pr_time.specs.SpanShown.{shown_span};
ghost use Rattle.pr_labels.specs.pr_words.Quoted.{quoted_text};
ghost use Rattle.pr_ast.specs.NumberTable.{table};

/// One byte ahead decides the grammar of numbers.
pub fn one_byte_decides_numbers()
    ensures { IsDecided production table }
{}

/// The sign that is taken is the longest one that the text begins with; where none is taken, it
/// begins with none.
pub fn longest_sign_is_taken()
    ensures taken { (text : List ℕ) (sign : Sign) (n : ℕ) → sign_at text ≡ Ok (sign, n) → (n ≡ length (sign_text sign)) × IsLongestSign text sign }
    ensures none { (text : List ℕ) (place : ℕ) (sign : Sign) → sign_at text ≡ Err place → BeginsWithSign text sign → ⊥ }
{}

/// A text has one list of tokens at most, or one first fault, and not both.
pub fn tokens_or_one_fault()
    ensures tokens { (text : List ℕ) (ts us : List Token) → HasTokens text ts → HasTokens text us → ts ≡ us }
    ensures fault { (text : List ℕ) (p q : ℕ) (k j : LexKind) → HasFault text p k → HasFault text q j → (p ≡ q) × (k ≡ j) }
    ensures apart { (text : List ℕ) (ts : List Token) (place : ℕ) (kind : LexKind) → HasTokens text ts → HasFault text place kind → ⊥ }
{}

/// Each text has its tokens or a first fault.
pub fn every_text_is_answered()
    ensures { (text : List ℕ) → ((tokens : List Token) × HasTokens text tokens) ⊎ ((place : ℕ) × ((kind : LexKind) × HasFault text place kind)) }
{}

/// What a text gives is a function of it: its tokens, where it has some, and else its first fault.
pub fn lexed_is_tokens_or_fault()
    ensures tokens { (text : List ℕ) (tokens : List Token) → (lexed text ≡ gives_tokens tokens) ↔ HasTokens text tokens }
    ensures fault { (text : List ℕ) (place : ℕ) (kind : LexKind) → (lexed text ≡ gives_fault place kind) ↔ HasFault text place kind }
{}

/// The tokens of a text lie in it in their order. None is empty, no two of them overlap, and
/// nothing but whitespace and comments stands before, between and after them.
pub fn tokens_lie_in_order()
    ensures { (text : List ℕ) (tokens : List Token) → HasTokens text tokens → AreInOrder text 0 tokens }
{}

/// The first fault of a text lies in it, or at its end.
pub fn fault_lies_in_its_text()
    ensures { (text : List ℕ) (place : ℕ) (kind : LexKind) → HasFault text place kind → place ≤ length text }
{}

/// The texts of the tokens, with a space after each, have the same tokens again, but for their
/// places.
pub fn token_texts_have_the_tokens_again()
    ensures { (text : List ℕ) (tokens : List Token) → HasTokens text tokens →
        (again : List Token) × HasTokens (spaced text tokens) again × (kinds again ≡ kinds tokens) }
{}

/// A text that spells tokens has these tokens, wherever they stand in it.
pub fn spelled_texts_have_their_tokens()
    ensures { (text : List ℕ) (ks : List TokenKind) → Spells false text ks → (tokens : List Token) × HasTokens text tokens × (kinds tokens ≡ ks) }
{}

/// A name before anything that does not go on a name is spelled by its bytes.
pub fn names_are_spelled()
    ensures { (inside : Bool) (name rest : List ℕ) (ks : List TokenKind) → IsNameText inside name → ends_name inside rest ≡ true → Spells inside rest ks → Spells inside (name ++ rest) (NameKind name ∷ ks) }
{}

/// A sign is spelled by its bytes, before anything that makes no longer one.
pub fn signs_are_spelled()
    ensures { (inside : Bool) (sign : Sign) (rest : List ℕ) (ks : List TokenKind) → ends_sign inside sign rest ≡ true → Spells (inside_after inside (SignKind sign)) rest ks → Spells inside (sign_text sign ++ rest) (SignKind sign ∷ ks) }
{}

/// A string before anything is spelled by its quoted text.
pub fn strings_are_spelled()
    ensures { (inside : Bool) (bytes rest : List ℕ) (ks : List TokenKind) → Spells inside rest ks → Spells inside (quoted_text bytes ++ rest) (TextKind bytes ∷ ks) }
{}

/// A number text without a sign is spelled by its bytes, before anything that goes on no number,
/// and makes no duration of it; so is a number that is not negative, as it is printed.
pub fn numbers_are_spelled()
    ensures text { (inside : Bool) (text rest : List ℕ) (value : Num) (ks : List TokenKind) → HasUnsignedForm text → reads text ≡ Ok value →
        ends_number rest ≡ true → Spells inside rest ks → Spells inside (text ++ rest) (NumberKind value ∷ ks) }
    ensures printed { (inside : Bool) (n : ℕ) (rest : List ℕ) (ks : List TokenKind) → IsFit (Finite (pos n)) →
        ends_number rest ≡ true → Spells inside rest ks → Spells inside (shown (Finite (pos n)) ++ rest) (NumberKind (Finite (pos n)) ∷ ks) }
{}

/// A duration is spelled as it is printed, before anything that goes on no duration.
pub fn spans_are_spelled()
    ensures { (inside : Bool) (ms : ℕ) (rest : List ℕ) (ks : List TokenKind) → ms ≤ 2 ^ 40 →
        ends_span rest ≡ true → Spells inside rest ks → Spells inside (shown_span ms ++ rest) (DurationKind ms ∷ ks) }
{}
