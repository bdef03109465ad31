//! The laws of span texts, each as the contract of a function that does nothing.
ghost use Rattle.std.specs.Prelude.{◌≡◌, ℕ, List, ◌≤◌, ◌^◌, ◌++◌, ◌⊎◌, ◌↔◌, Some, codes};
ghost use Rattle.pr_forms.specs.Table.{IsDecided};
ghost use Rattle.pr_time.specs.SpanText.{production, seen, ReadsSpan, IsBadPlace};
ghost use Rattle.pr_time.specs.private.SpanParts.{IsSpanText};
ghost use Rattle.pr_time.specs.SpanAnswer.{span_of, bad_span_place};
ghost use Rattle.pr_time.specs.SpanShown.{shown_span};
ghost use Rattle.pr_time.specs.SpanTable.{table};

/// One byte ahead decides the grammar of span texts: so a text is read in one way, and without
/// going back.
pub fn one_byte_decides()
    ensures { IsDecided production table }
{}

/// A text reads as one span at most.
pub fn text_reads_as_one_span()
    ensures { (text : List ℕ) (m n : ℕ) → ReadsSpan text m → ReadsSpan text n → m ≡ n }
{}

/// Each text is a span text or none, and has a first byte with which it does not go on as a span
/// text (or ends there). Whether what stands before it can still become a span is not asked, as
/// `SpanFault::BadSpan` says.
pub fn text_is_a_span_or_none()
    ensures whole { (text : List ℕ) → ((ms : ℕ) × ReadsSpan text ms) ⊎ ((ms : ℕ) → ReadsSpan text ms → ⊥) }
    ensures place { (text : List ℕ) → (n : ℕ) × IsBadPlace text n }
{}

/// A span that is printed reads as that span.
pub fn shown_span_reads()
    ensures { (ms : ℕ) → ms ≤ 2 ^ 40 → ReadsSpan (shown_span ms) ms }
{}

/// What the grammar reads, told without it: a zero alone, or numbers with a unit each, every unit
/// smaller than the one before; and the milliseconds are the sum.
pub fn span_text_is_zero_or_parts()
    ensures read { (text : List ℕ) (ms : ℕ) → IsSpanText (seen text) ms → ReadsSpan text ms }
    ensures only { (text : List ℕ) (ms : ℕ) → ReadsSpan text ms → IsSpanText (seen text) ms }
{}

/// What a text gives is a function of it: its milliseconds where it is a span text, and the place
/// of its first bad byte.
pub fn spans_are_functions_of_their_texts()
    ensures span { (text : List ℕ) (ms : ℕ) → (span_of text ≡ Some ms) ↔ ReadsSpan text ms }
    ensures place { (text : List ℕ) (n : ℕ) → (n ≡ bad_span_place text) ↔ IsBadPlace text n }
{}

/// No span text begins with `5ms5`, whatever follows: a place up to which bytes go on is not one up
/// to which some span begins.
pub fn no_span_begins_with_a_number_after_milliseconds()
    ensures { (rest : List ℕ) (ms : ℕ) → ReadsSpan (codes "5ms5" ++ rest) ms → ⊥ }
{}
