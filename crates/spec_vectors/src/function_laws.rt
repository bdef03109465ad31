// What the answers of functions are.
ghost use Rattle.std.specs.Prelude.{ℕ, List, IfOk};
ghost use Rattle.pr_num.specs.declared.value.Num.{Num};
ghost use Rattle.spec_history.specs.pr_labels.declared.item.Item.{Item};
ghost use Rattle.spec_vectors.specs.private.Laws.{IsVector};
ghost use Rattle.spec_vectors.specs.Functions.{ValueFunction, told_apart, mapped, clamped};
ghost use Rattle.spec_vectors.specs.LabelFunctions.{Expansion, label_replaced, label_joined};
ghost use Rattle.spec_vectors.specs.Histogram.{histogram_quantiles};

/// The answers of functions are in label order with distinct label sets, whatever they are given.
pub fn function_answers_are_vectors()
    ensures apart { (items : List (Item Num)) → IfOk (told_apart items) IsVector }
    ensures mapped { (f : ValueFunction) (items : List (Item Num)) → IfOk (mapped f items) IsVector }
    ensures clamped { (least most : Num) (items : List (Item Num)) → IfOk (clamped least most items) IsVector }
    ensures replaced { (name source : List ℕ) (expansion : Expansion) (items : List (Item Num)) → IfOk (label_replaced name source expansion items) IsVector }
    ensures joined { (name separator : List ℕ) (names : List (List ℕ)) (items : List (Item Num)) → IfOk (label_joined name separator names items) IsVector }
    ensures quantiles { (phi : Num) (items : List (Item Num)) → IfOk (histogram_quantiles phi items) IsVector }
{}
