// What the definitions say of small vectors.
ghost use Rattle.std.specs.Prelude.{◌≡◌, true, false, codes, [], ◌∷◌, ◌++◌, Ok, Err};
ghost use Rattle.spec_history.specs.pr_labels.declared.matching.Card.TheVariants.{OneToOne, ManyToOne, OneToMany};
ghost use Rattle.spec_history.specs.pr_labels.LabelSet.{metric_label};
ghost use Rattle.spec_history.specs.private.Examples.{number};
ghost use Rattle.spec_vectors.specs.declared.match_fault.MatchFault.TheVariants.{ManyToMany, NotUnique, TooWide};
ghost use Rattle.spec_vectors.specs.Vectors.{element};
ghost use Rattle.spec_vectors.specs.Matching.{joined, key_of, both_sides, left_alone, either_side};
ghost use Rattle.spec_vectors.specs.private.Examples.{x, y, z, a, b, six, two_three, six_three, with_nan, five, nameless_five, on_x, on_names, ignoring_names, times, above, never_fits};

/// The key has the names of `on` alone; with `ignoring` it is without these names and the metric's
/// name.
pub fn keys_are_on_or_ignoring_names()
    ensures on { key_of on_x (a (x (codes "1") ∷ y (codes "p") ∷ []) 6) ≡ x (codes "1") ∷ [] }
    ensures ignoring { key_of (ignoring_names (codes "y" ∷ [])) (a (x (codes "1") ∷ y (codes "p") ∷ []) 6) ≡ x (codes "1") ∷ [] }
{}

/// One to one an element has its own labels: those that are not ignored, without the metric's name;
/// or those on the names.
#[tactic(auto, unfolding(pr_num::specs::Arithmetic::product_of, pr_num::specs::Half::half, pr_num::specs::Half::half_abs))]
pub fn a_pair_has_the_labels_of_its_key()
    ensures ignoring { joined (ignoring_names (codes "y" ∷ [])) false times (b (x (codes "1") ∷ y (codes "p") ∷ []) 2 ∷ []) five
        ≡ Ok (element (x (codes "1") ∷ []) (number 10) ∷ []) }
    ensures on { joined on_x false times (b (x (codes "1") ∷ y (codes "p") ∷ []) 2 ∷ []) five ≡ Ok (element (x (codes "1") ∷ []) (number 10) ∷ []) }
{}

/// Two elements of the one side with one key are refused, matched or not, unless the other side is
/// empty; with `group_left` each element of the many side has its pair.
#[tactic(auto, unfolding(pr_num::specs::Arithmetic::product_of, pr_num::specs::Half::half, pr_num::specs::Half::half_abs))]
pub fn one_side_has_a_key_once()
    ensures refused { joined on_x false times six two_three ≡ Err (ManyToMany (x (codes "1") ∷ [])) }
    ensures unmatched { joined on_x false times (a (x (codes "3") ∷ []) 6 ∷ []) two_three ≡ Err (ManyToMany (x (codes "1") ∷ [])) }
    ensures many { joined on_x false times two_three six ≡ Err (ManyToMany (x (codes "1") ∷ [])) }
    ensures grouped { joined (on_names (codes "x" ∷ []) ManyToOne []) false times two_three six
        ≡ Ok (element (x (codes "1") ∷ y (codes "p") ∷ []) (number 12) ∷ element (x (codes "1") ∷ y (codes "q") ∷ []) (number 18) ∷ []) }
    ensures least { joined on_x false times six (b (x (codes "2") ∷ y (codes "p") ∷ []) 4 ∷ b (x (codes "2") ∷ y (codes "q") ∷ []) 4 ∷ two_three)
        ≡ Err (ManyToMany (x (codes "1") ∷ [])) }
    ensures empty { joined on_x false times [] two_three ≡ Ok [] }
{}

/// A label that is listed after `group_left` is the one side's, and goes where that has it not; so
/// two elements may come to have equal labels.
#[tactic(auto, unfolding(pr_num::specs::Arithmetic::product_of, pr_num::specs::Half::half, pr_num::specs::Half::half_abs))]
pub fn a_label_is_taken_from_the_one_side()
    ensures taken { joined (on_names (codes "x" ∷ []) ManyToOne (codes "z" ∷ [])) false times two_three six
        ≡ Ok (element (x (codes "1") ∷ y (codes "p") ∷ z (codes "k") ∷ []) (number 12) ∷ element (x (codes "1") ∷ y (codes "q") ∷ z (codes "k") ∷ []) (number 18) ∷ []) }
    ensures removed { joined (on_names [] ManyToOne (metric_label ∷ [])) false times six_three nameless_five
        ≡ Ok (element (x (codes "1") ∷ []) (number 30) ∷ element (x (codes "2") ∷ []) (number 15) ∷ []) }
    ensures equal { joined (on_names (codes "x" ∷ []) ManyToOne (codes "y" ∷ [])) false times two_three six ≡ Err (NotUnique (x (codes "1") ∷ [])) }
{}

/// A filter keeps the left value where it holds, with the labels of the many side.
pub fn a_filter_keeps_the_left_value()
    ensures grouped { joined (on_names (codes "x" ∷ []) OneToMany []) true above six_three with_nan
        ≡ Ok (b (x (codes "1") ∷ y (codes "p") ∷ []) 6 ∷ b (x (codes "1") ∷ y (codes "q") ∷ []) 6 ∷ []) }
    ensures one { joined on_x true above six_three five ≡ Ok (element (x (codes "1") ∷ []) (number 6) ∷ []) }
{}

/// A value that is too wide comes before the test for equal keys, and two elements of the one side
/// before both.
pub fn faults_come_in_order()
    ensures wide { joined on_x false never_fits two_three six ≡ Err TooWide }
    ensures sides { joined on_x false never_fits six two_three ≡ Err (ManyToMany (x (codes "1") ∷ [])) }
{}

/// What is in both sides, in the left one alone, and in either.
pub fn sets_go_by_key()
    ensures both { both_sides on_x six_three five ≡ a (x (codes "1") ∷ []) 6 ∷ [] }
    ensures left { left_alone on_x six_three five ≡ a (x (codes "2") ∷ []) 3 ∷ [] }
    ensures either { either_side (ignoring_names []) six_three five ≡ six_three }
    ensures other { either_side (ignoring_names []) five six_three ≡ a (x (codes "2") ∷ []) 3 ∷ five }
{}
