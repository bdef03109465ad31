// What a printed range selector tells.
ghost use Rattle.std.specs.Prelude.{◌≡◌, ◌≤◌, ◌^◌, ℕ};
ghost use Rattle.pr_ast.specs.declared.selector.Selector.{Selector};
ghost use Rattle.pr_ast.specs.private.Print.{range_text};

/// Range selectors with one printed text have one span and one offset, so that the ranges of the
/// one go on from those of the other.
#[tactic(auto, using(crate::proofs::Ranges::ranges_same))]
pub fn equal_texts_have_equal_ranges()
    ensures { (s t : Selector) (d e : ℕ) → d ≤ 2 ^ 40 → e ≤ 2 ^ 40 → s.offset ≤ 2 ^ 40 → t.offset ≤ 2 ^ 40 → range_text s d ≡ range_text t e → (d ≡ e) × (s.offset ≡ t.offset) }
{}
