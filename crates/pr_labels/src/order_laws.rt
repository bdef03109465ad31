//! The laws of label order, each as the contract of a function that does nothing.
ghost use Rattle.std.specs.Prelude.{◌≡◌, ◌||◌, ◌&&◌, Bool, List, filter, fold};
ghost use Rattle.std.specs.Bool.{Decides};
ghost use Rattle.std.specs.Cmp.{IsTotalOrder};
ghost use Rattle.std.specs.declared.cmp.Ordering.TheVariants.{Equal};
ghost use Rattle.pr_labels.specs.Order.{labels_cmp, labels_eq};
ghost use Rattle.pr_labels.specs.Rising.{IsRising, is_among, with_labels};
ghost use Rattle.pr_labels.specs.declared.pair.Pair.{Pair};

/// Label order is a total order, in which a label set ties itself alone; the test of equality
/// decides equality.
pub fn label_order_is_total()
    ensures total { IsTotalOrder labels_cmp }
    ensures decided { (a b : List Pair) → Decides (labels_eq a b) (a ≡ b) }
    ensures tied { (a b : List Pair) → labels_cmp a b ≡ Equal → a ≡ b }
{}

/// Label sets that are put in one after another rise in label order, so that none comes twice, and
/// are those that stood there and those that were put in.
pub fn label_sets_are_put_in_order()
    ensures rising { (sets more : List (List Pair)) → IsRising sets → IsRising (fold with_labels sets more) }
    ensures among { (one : List Pair) (sets more : List (List Pair))
        → is_among one (fold with_labels sets more) ≡ (is_among one sets || is_among one more) }
    ensures filtered { (test : List Pair → Bool) (one : List Pair) (sets : List (List Pair))
        → is_among one (filter test sets) ≡ (test one && is_among one sets) }
{}

/// Rising lists with the same label sets are one list.
pub fn rising_lists_are_told_by_their_label_sets()
    ensures { (xs ys : List (List Pair)) → IsRising xs → IsRising ys
        → ((one : List Pair) → is_among one xs ≡ is_among one ys) → xs ≡ ys }
{}
