//! Worked examples of the definitions that contracts of this crate cite. Each is a function that
//! does nothing, and its contract says what the definitions give, so that none of them changes with
//! its code unseen.
ghost use Rattle.std.specs.Prelude.{◌≡◌, [], ◌∷◌, codes};
ghost use Rattle.pr_labels.specs.LabelSet.{named, pair_of, metric_label};
ghost use Rattle.pr_labels.specs.SeriesText.{series_text};

/// The printed text of label sets: with a classic name alone and with pairs behind it, of no label,
/// and with a name that is not classic.
#[tactic(auto, unfolding(crate::specs::SeriesText::series_text))]
pub fn series_texts_by_example()
    ensures name { series_text (named (codes "up")) ≡ codes "up" }
    ensures pairs { series_text (pair_of metric_label (codes "up") ∷ pair_of (codes "env") (codes "a") ∷ pair_of (codes "job") (codes "b\n") ∷ [])
        ≡ codes "up{env=\"a\",job=\"b\\n\"}" }
    ensures none { series_text [] ≡ codes "{}" }
    ensures no_name { series_text (pair_of (codes "job") (codes "b") ∷ []) ≡ codes "{job=\"b\"}" }
    ensures other_name { series_text (named (codes "a.b")) ≡ codes "{__name__=\"a.b\"}" }
{}
