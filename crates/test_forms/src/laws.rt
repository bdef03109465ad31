//! The laws of lists of words.
ghost use Rattle.std.specs.Prelude.{◌≡◌, ℕ, List, ◌∷◌, Some};
ghost use Rattle.pr_forms.specs.Language.{IsFirstBad};
ghost use Rattle.test_forms.specs.private.Words.{lists, Words, ReadsWords, words_of, bad_byte, written};

/// The words of a text, and its first bad place, are functions of it.
pub fn words_are_a_function_of_the_text()
    ensures reads { (text : List ℕ) (ws : List (List ℕ)) → words_of text ≡ Some ws → ReadsWords text ws }
    ensures given { (text : List ℕ) (ws : List (List ℕ)) → ReadsWords text ws → words_of text ≡ Some ws }
    ensures place { (text : List ℕ) → IsFirstBad lists Words text (bad_byte text) }
{}

/// What is written is read back.
pub fn written_words_are_read()
    ensures { (w : List ℕ) (ws : List (List ℕ)) → ReadsWords (written (w ∷ ws)) (w ∷ ws) }
{}
