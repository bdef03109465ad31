//! The laws of lines, as the contract of a function that does nothing.
ghost use Rattle.std.specs.Prelude.{◌≡◌, ◌≢◌, ℕ, Err, Ok, List, Option, length};
ghost use Rattle.std.specs.Str.{IsUtf8, chars};
ghost use Rattle.pr_labels.specs.pr_forms.Table.{IsDecided};
ghost use Rattle.pr_num.specs.Reads.{reads};
ghost use Rattle.pr_num.specs.declared.text.NumFault.{NumFault};
ghost use Rattle.pr_expo.specs.Line.{line_read, text_front};
ghost use Rattle.pr_expo.specs.private.Grammar.{production, IsBadPlace, ReadsLine};
ghost use Rattle.pr_expo.specs.private.Faults.{Stop, IsBeginning, IsBadBehind, HasFault};
ghost use Rattle.pr_expo.specs.declared.expo_line.place.ExpoKind.{ExpoKind};
ghost use Rattle.pr_expo.specs.declared.expo_line.place.ExpoKind.TheVariants.{NotText};
ghost use Rattle.pr_expo.specs.private.PlainLine.{IsSampleLine};
ghost use Rattle.pr_expo.specs.declared.expo_line.place.Measured.{Measured};
ghost use Rattle.pr_expo.specs.declared.expo_line.place.Read.TheVariants.{Sample};
ghost use Rattle.pr_expo.specs.declared.expo_line.place.Read.{Read};
ghost use Rattle.pr_expo.specs.private.GrammarTable.{table};

/// One character ahead decides the grammar of lines. A line reads as something exactly where it is
/// text and its characters are of the grammar, and as what they are there.
#[tactic(auto, using(crate::proofs::Grammar::known, crate::proofs::Grammar::line_reads, crate::proofs::Grammar::line_is))]
pub fn lines_are_those_of_the_grammar()
    ensures decided { IsDecided production table }
    ensures reads { (line : List ℕ) (read : Read) → IsUtf8 line → ReadsLine (chars line) read → line_read line ≡ Ok read }
    ensures only { (line : List ℕ) (read : Read) → line_read line ≡ Ok read → IsUtf8 line × ReadsLine (chars line) read }
{}

/// A line that is bad is no line of the grammar. Its first bad place is where some line could go on
/// up to it and none from there; what is bad is told by what stands before that place, and by what
/// stands there. A line is no text where its first byte that is none comes before any other fault.
pub fn faults_are_told_by_their_place()
    ensures unread { (line : List ℕ) (kind : ExpoKind) (read : Read) → line_read line ≡ Err kind → IsUtf8 line → ReadsLine (chars line) read → ⊥ }
    ensures fault { (line : List ℕ) (kind : ExpoKind) → line_read line ≡ Err kind → HasFault line kind }
    ensures only { (line : List ℕ) (kind : ExpoKind) → HasFault line kind → line_read line ≡ Err kind }
    ensures place { (line front : List ℕ) (stop : Stop) → IsBadBehind line front stop → IsBadPlace (chars (text_front line)) (length front) }
    ensures broken { (line : List ℕ) → (IsUtf8 line → ⊥) → IsBeginning (chars (text_front line)) → line_read line ≡ Err NotText }
    ensures broken_only { (line : List ℕ) → line_read line ≡ Err NotText → (IsUtf8 line → ⊥) × IsBeginning (chars (text_front line)) }
{}

/// A line reads as a sample exactly where it is text, and the line of that sample as a person reads
/// it.
pub fn samples_are_read_from_their_lines()
    ensures read { (line : List ℕ) (m : Measured) (time : Option (List ℕ)) →
        IsUtf8 line → IsSampleLine (chars line) m time → line_read line ≡ Ok (Sample m time) }
    ensures only { (line : List ℕ) (m : Measured) (time : Option (List ℕ)) →
        line_read line ≡ Ok (Sample m time) → IsUtf8 line × IsSampleLine (chars line) m time }
{}

/// The number of a sample is read as a value, or is too wide: it is never a text that is no number.
pub fn numbers_of_samples_are_read()
    ensures { (line : List ℕ) (m : Measured) (time : Option (List ℕ)) →
        line_read line ≡ Ok (Sample m time) → reads m.number ≢ Err NumFault.NotNumber }
{}
