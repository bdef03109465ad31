// Functions of a range are functions of what its values fold to.
ghost use Rattle.std.specs.Prelude.{◌≡◌, true, List, ◌∷◌, length, Some, Ok};
ghost use Rattle.pr_num.specs.declared.value.Num.{Num};
ghost use Rattle.pr_num.specs.Total.{Tally, joined};
ghost use Rattle.spec_vectors.specs.spec_history.declared.spot.Spot.{Spot};
ghost use Rattle.spec_vectors.specs.declared.range.Ask.{Ask};
ghost use Rattle.spec_vectors.specs.declared.range.RangeFn.{RangeFn};
ghost use Rattle.spec_vectors.specs.declared.range.RangeFn.TheVariants.{MaxOverTime, MinOverTime};
ghost use Rattle.spec_vectors.specs.Ranges.{function_of};
ghost use Rattle.pr_window.specs.private.Folding.{folded};
ghost use Rattle.pr_window.specs.declared.folds.neighbours.Neighbours.{Neighbours};
ghost use Rattle.pr_window.specs.private.Answers.{from_neighbours, from_total, is_of_neighbours, is_of_total};
ghost use Rattle.pr_window.specs.private.Extremes.{greater, lesser, value_alone};
ghost use Rattle.pr_window.specs.private.Neighbours.{beside, spot_alone};
ghost use Rattle.pr_window.specs.private.Totals.{total_alone};

/// The total of the values of a range tells their sum, mean and number, and that there are some.
pub fn totals_tell()
    ensures answer { (f : RangeFn) (a : Ask) (x : Spot) (xs : List Spot) (t : Tally) → is_of_total f ≡ true → folded total_alone joined (x ∷ xs) ≡ Some t
        → function_of f a x xs ≡ from_total f t }
    ensures count { (x : Spot) (xs : List Spot) (t : Tally) → folded total_alone joined (x ∷ xs) ≡ Some t → t.count ≡ length (x ∷ xs) }
{}

/// The greatest value.
pub fn greatest_tells()
    ensures { (a : Ask) (x : Spot) (xs : List Spot) (v : Num) → folded value_alone greater (x ∷ xs) ≡ Some v → function_of MaxOverTime a x xs ≡ Ok (Some v) }
{}

/// The least value.
pub fn least_tells()
    ensures { (a : Ask) (x : Spot) (xs : List Spot) (v : Num) → folded value_alone lesser (x ∷ xs) ≡ Some v → function_of MinOverTime a x xs ≡ Ok (Some v) }
{}

/// What is kept of the values one after another tells the last one, how many changes and falls there
/// are, and how much a counter or a gauge gained.
pub fn sequences_tell()
    ensures { (f : RangeFn) (a : Ask) (x : Spot) (xs : List Spot) (s : Neighbours) → is_of_neighbours f ≡ true → folded spot_alone beside (x ∷ xs) ≡ Some s
        → function_of f a x xs ≡ from_neighbours f a.from a.to s }
{}
