//! What the definitions say of small texts.
ghost use Rattle.std.specs.Prelude.{◌≡◌, codes, Some, None, [], ◌∷◌};
ghost use Rattle.pr_labels.specs.LabelSet.{named, pair_of};
ghost use Rattle.pr_labels.specs.SeriesReading.{series_labels, bad_series_place};

/// What small series texts read as: an empty value is no label, and a name stands once.
pub fn small_series_texts_read_so()
    ensures metric { series_labels (codes "m") ≡ Some (named (codes "m")) }
    ensures none { series_labels (codes "{}") ≡ Some [] }
    ensures listed { series_labels (codes "m {b='x',a=\"\",}") ≡ Some (pair_of (codes "__name__") (codes "m") ∷ pair_of (codes "b") (codes "x") ∷ []) }
    ensures empty_value { series_labels (codes "up{a=\"\"}") ≡ Some (named (codes "up")) }
    ensures not_classic { series_labels (codes "{__name__=\"a b\"}") ≡ Some (named (codes "a b")) }
    ensures nothing { series_labels [] ≡ None }
    ensures blank_before { series_labels (codes " up") ≡ None }
    ensures blank_after { series_labels (codes "up ") ≡ None }
    ensures comma_alone { series_labels (codes "{,}") ≡ None }
    ensures comma_place { bad_series_place (codes "{,}") ≡ 1 }
    ensures second_metric { series_labels (codes "up{__name__=\"x\"}") ≡ None }
    ensures twice { series_labels (codes "{a=\"1\",a=\"2\"}") ≡ None }
    ensures second_name { bad_series_place (codes "{a=\"1\",a=\"2\"}") ≡ 8 }
{}
