// The numbers that the series of a test have in a head.
ghost use Rattle.std.specs.Prelude.{◌≡◌, IfSome, Some, slice_get};
ghost use Rattle.pr_slide.specs.pr_head.private.Holds.{sets_of};

use pr_ast::labels::Labels;
use pr_slide::head::Head;

/// The number of the series with these labels, where the head has it: the one that is known, where
/// that is right, so that nothing is searched for.
pub(crate) fn number_of(head: &Head, labels: &Labels, known: Option<usize>) -> Option<usize>
    ensures { IfSome result (λ n. slice_get (sets_of head.now) n ≡ Some labels.now) }
{
    match known {
        Some(number) if head.has_labels(number, labels) => known,
        Some(_) | None => head.number(labels),
    }
}
