//! The laws of strings, each as the contract of a function that does nothing.
ghost use Rattle.std.specs.Prelude.{◌≡◌, ℕ, List, [], ◌++◌, ◌↔◌, Some, true, codes};
ghost use Rattle.pr_forms.specs.Table.{IsDecided};
ghost use Rattle.pr_forms.specs.Reading.{Ends};
ghost use Rattle.pr_words.specs.Quoted.{quoted_text};
ghost use Rattle.pr_words.specs.StringAnswer.{string_of, bad_string_place};
ghost use Rattle.pr_words.specs.Strings.{production, IsString, IsBadPlace, fits};
ghost use Rattle.pr_words.specs.private.Escapes.{IsLimit, CanBecomeCharacter, IsEscape, WritesCharacter};
ghost use Rattle.pr_words.specs.declared.strings.kind.Mark.{Mark};
ghost use Rattle.pr_words.specs.StringTable.{table, rank, steps};

/// One byte ahead decides the grammar of strings: so a string is read in one way, and without going
/// back. The grammar ends: so its reading is a function of the text.
pub fn one_byte_decides()
    ensures decided { IsDecided production table }
    ensures ends { Ends production table rank steps }
{}

/// Bytes that are written in double quotes are read as those bytes, whatever follows.
pub fn quoted_texts_read_back()
    ensures { (bytes rest : List ℕ) → IsString (quoted_text bytes ++ rest) bytes rest }
{}

/// What a text gives is a function of it: the bytes that it means where it is a string whole, and
/// the first place at which no string can go on.
pub fn strings_are_functions_of_their_texts()
    ensures string { (text bytes : List ℕ) → (string_of text ≡ Some bytes) ↔ IsString text bytes [] }
    ensures place { (text : List ℕ) (n : ℕ) → (n ≡ bad_string_place text) ↔ IsBadPlace text n }
{}

/// The digits of an escape go on exactly while the number that they have written so far can still
/// become that of a character, at most the escape's limit. So the number that all of them write is
/// one: with no digit left a number becomes itself alone.
pub fn digits_go_on_while_a_character_can_come()
    ensures { (limit left number : ℕ) → IsLimit limit → (fits limit left number ≡ true) ↔ CanBecomeCharacter limit left number }
{}

/// The digits of an escape write its character: two after `x`, four after `u` and eight after `U`,
/// whose number is that of a character, up to the last one of one byte after `x`. The escape means
/// the bytes of that character in UTF-8.
pub fn digits_of_an_escape_write_its_character()
    ensures small { (quote : Mark) (text bytes rest : List ℕ) → IsEscape quote (codes "x" ++ text) bytes rest ↔ WritesCharacter 0x7F 2 text bytes rest }
    ensures short { (quote : Mark) (text bytes rest : List ℕ) → IsEscape quote (codes "u" ++ text) bytes rest ↔ WritesCharacter 0x10FFFF 4 text bytes rest }
    ensures long { (quote : Mark) (text bytes rest : List ℕ) → IsEscape quote (codes "U" ++ text) bytes rest ↔ WritesCharacter 0x10FFFF 8 text bytes rest }
{}
