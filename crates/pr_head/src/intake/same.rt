// Lists of series that have not changed.
ghost use Rattle.std.specs.Prelude.{◌≡◌, ℕ, true, []};
ghost use Rattle.spec_history.specs.Puts.{markers};

use pr_labels::Labels;

/// Whether the lists have the same label sets in the same order. So they mostly have from one
/// evaluation to the next, and then no series is gone.
pub(crate) fn are_same(old: &[Labels], new: &[Labels]) -> bool
    ensures { (now : ℕ) → result ≡ true → markers now old.now new.now ≡ [] }
{
    old == new
}
