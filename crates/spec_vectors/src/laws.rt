// What the answers to two vectors are.
ghost use Rattle.std.specs.Prelude.{Bool, List, IfOk};
ghost use Rattle.pr_num.specs.declared.value.Num.{Num};
ghost use Rattle.spec_history.specs.pr_labels.declared.item.Item.{Item};
ghost use Rattle.spec_history.specs.pr_labels.declared.matching.Matching.{Matching};
ghost use Rattle.spec_vectors.specs.private.Laws.{IsVector};
ghost use Rattle.spec_vectors.specs.Matching.{Operator, joined, both_sides, left_alone, either_side};

/// The answers are in label order with distinct label sets: what operators and `or` give whatever
/// stood there before, what `and` and `unless` give of a left side that is so.
pub fn answers_are_vectors()
    ensures joined { (how : Matching) (keep_name : Bool) (op : Operator) (left right : List (Item Num)) → IfOk (joined how keep_name op left right) IsVector }
    ensures either { (how : Matching) (left right : List (Item Num)) → IsVector (either_side how left right) }
    ensures both { (how : Matching) (left right : List (Item Num)) → IsVector left → IsVector (both_sides how left right) }
    ensures left { (how : Matching) (left right : List (Item Num)) → IsVector left → IsVector (left_alone how left right) }
{}
