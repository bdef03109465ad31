//! The laws of series texts, each as the contract of a function that does nothing.
ghost use Rattle.std.specs.Prelude.{◌≡◌, ℕ, List, Some, None};
ghost use Rattle.pr_words.specs.pr_forms.Table.{IsDecided};
ghost use Rattle.pr_words.specs.pr_forms.Reading.{Ends};
ghost use Rattle.pr_labels.specs.Edits.{first_fault};
ghost use Rattle.pr_labels.specs.LabelSet.{IsLabelSet};
ghost use Rattle.pr_labels.specs.SeriesGrammar.{production, ReadsSeries, ReadsLabels, IsBadPlace};
ghost use Rattle.pr_labels.specs.private.SeriesParts.{IsSeriesText};
ghost use Rattle.pr_labels.specs.SeriesReading.{series_pairs, series_labels, bad_series_place};
ghost use Rattle.pr_labels.specs.SeriesText.{series_text};
ghost use Rattle.pr_labels.specs.declared.pair.Pair.{Pair};
ghost use Rattle.pr_labels.specs.SeriesTable.{table, rank, steps};

/// One byte ahead decides the grammar of series texts: so a text is read in one way, and without
/// going back. The grammar ends: so its reading is a function of the text.
pub fn one_byte_decides_series_texts()
    ensures decided { IsDecided production table }
    ensures ends { Ends production table rank steps }
{}

/// What a series text reads as is a function of its bytes, and so are its label set and the first
/// bad place.
pub fn reading_of_a_series_text_is_a_function()
    ensures reads { (text : List ℕ) (pairs : List Pair) → series_pairs text ≡ Some pairs → ReadsSeries text pairs }
    ensures given { (text : List ℕ) (pairs : List Pair) → ReadsSeries text pairs → series_pairs text ≡ Some pairs }
    ensures labels { (text : List ℕ) (labels : List Pair) → series_labels text ≡ Some labels → ReadsLabels text labels }
    ensures labels_given { (text : List ℕ) (labels : List Pair) → ReadsLabels text labels → series_labels text ≡ Some labels }
    ensures place { (text : List ℕ) → IsBadPlace text (bad_series_place text) }
{}

/// A text reads as one label set at most, and what it reads as is a label set.
pub fn series_text_reads_as_one_label_set()
    ensures one { (text : List ℕ) (ls ms : List Pair) → ReadsLabels text ls → ReadsLabels text ms → ls ≡ ms }
    ensures set { (text : List ℕ) (ls : List Pair) → ReadsLabels text ls → IsLabelSet ls }
{}

/// What a series text reads has label names, each once: so its pairs are faultless, and make a
/// label set.
pub fn series_texts_name_labels_once()
    ensures { (text : List ℕ) (pairs : List Pair) → ReadsSeries text pairs → first_fault pairs ≡ None }
{}

/// What the grammar reads, told without it: a metric's name, pairs in braces, or both, among which
/// no name stands twice.
pub fn series_text_is_name_and_pairs()
    ensures read { (text : List ℕ) (pairs : List Pair) → IsSeriesText text pairs → ReadsSeries text pairs }
    ensures only { (text : List ℕ) (pairs : List Pair) → ReadsSeries text pairs → IsSeriesText text pairs }
{}

/// A printed label set is a series text, and reads as that set.
pub fn printed_labels_read_back()
    ensures { (labels : List Pair) → IsLabelSet labels → ReadsLabels (series_text labels) labels }
{}
