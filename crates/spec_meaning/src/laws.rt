// Laws of what expressions give.
ghost use Rattle.std.specs.Prelude.{◌≡◌, ℕ, List, IfOk, map};
ghost use Rattle.pr_ast.specs.pr_labels.declared.pair.Pair.{Pair};
ghost use Rattle.pr_ast.specs.pr_labels.Rising.{IsRising};
ghost use Rattle.pr_match.specs.Matcher.{equality, meets_all};
ghost use Rattle.pr_ast.specs.declared.selector.Selector.{Selector};
ghost use Rattle.pr_ast.specs.Tree.{Tree};
ghost use Rattle.spec_vectors.specs.spec_history.declared.entry.Entry.{Entry};
ghost use Rattle.spec_vectors.specs.spec_history.Series.{chosen};
ghost use Rattle.spec_vectors.specs.spec_history.private.Laws.{has_values};
ghost use Rattle.spec_meaning.specs.private.Laws.{IsAnswer};
ghost use Rattle.spec_meaning.specs.Selection.{chosen_by, selected_spots};
ghost use Rattle.spec_meaning.specs.Meaning.{meaning};

/// The series that a selector chooses rise in label order, and so do those that it shows.
pub fn chosen_series_are_in_label_order()
    ensures chosen { (history : List Entry) (s : Selector) → IsRising (chosen_by s history) }
    ensures shown { (history : List Entry) (s : Selector) (time : ℕ) → IsRising (map (λ e. e.labels) (selected_spots history s time)) }
{}

/// The series that matchers with `=` choose are those that have the pairs.
pub fn equalities_choose_series_with_pairs()
    ensures { (pairs : List Pair) (history : List Entry)
        → chosen (meets_all (map equality pairs)) history ≡ chosen (has_values pairs) history }
{}

/// Whatever an expression gives, a vector is in label order with distinct label sets.
pub fn answers_are_vectors()
    ensures { (step : ℕ) (history : List Entry) (t : Tree) (time : ℕ) → IfOk (meaning step history t time) IsAnswer }
{}
