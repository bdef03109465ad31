//! What the definitions say of small trees.
ghost use Rattle.std.specs.Prelude.{◌≡◌, ◌∷◌, [], codes};
ghost use Rattle.pr_ast.specs.pr_labels.LabelSet.{pair_of};
ghost use Rattle.pr_yaml.specs.Tree.{map_node, no_entries, entry_then, absent_node};
ghost use Rattle.pr_yaml.specs.private.Worked.{plain, quoted};
ghost use Rattle.pr_rulefile.specs.declared.fields.problem.ProblemKind.TheVariants.{WantMap, WantList, UnknownField, Missing, FuzzyCompare};
ghost use Rattle.pr_rulefile.specs.Problems.{problem};
ghost use Rattle.pr_testfile.specs.Labels.{label_set, notes_of};
ghost use Rattle.pr_testfile.specs.Samples.{sample_problems};
ghost use Rattle.pr_testfile.specs.Alerts.{alert_problems};
ghost use Rattle.pr_testfile.specs.Checks.{check_problems};
ghost use Rattle.pr_testfile.specs.File.{file_problems, interval_under};

/// A file that says nothing has no tests. A field that no table has is told at its key, whatever
/// its value is.
#[tactic(auto, unfolding(crate::specs::File::file_problems, crate::specs::Scalars::fuzzy_problems, crate::specs::Words::evaluation_interval, crate::specs::Words::group_eval_order, crate::specs::Words::fuzzy_compare, pr_rulefile::specs::Maps::map_problems, pr_rulefile::specs::Maps::list_problems, pr_rulefile::specs::Nodes::field, pr_yaml::specs::Tree::is_absent_text))]
pub fn files_have_these_problems()
    ensures nothing { file_problems (absent_node 1) ≡ [] }
    ensures no_map { file_problems (plain 1 (codes "a")) ≡ problem 1 WantMap ∷ [] }
    ensures no_list { file_problems (map_node 1 (entry_then (codes "tests") 1 (map_node 2 no_entries) no_entries)) ≡ problem 2 WantList ∷ [] }
    ensures unknown { file_problems (map_node 1 (entry_then (codes "tests") 1 (absent_node 1) (entry_then (codes "foo") 2 (absent_node 2) no_entries))) ≡ problem 2 (UnknownField (codes "foo")) ∷ [] }
    ensures fuzzy { file_problems (map_node 1 (entry_then (codes "fuzzy_compare") 1 (plain 1 (codes "true")) no_entries)) ≡ problem 1 FuzzyCompare ∷ [] }
    ensures exact { file_problems (map_node 1 (entry_then (codes "fuzzy_compare") 1 (plain 1 (codes "false")) no_entries)) ≡ [] }
    ensures minute { interval_under [] ≡ 60000 }
{}

/// What has to be there, in this order, at the line of its map; an empty expression is none, but an
/// empty name is one.
#[tactic(auto, unfolding(pr_rulefile::specs::Maps::map_problems, pr_rulefile::specs::Maps::list_problems, pr_rulefile::specs::Nodes::field, pr_rulefile::specs::Nodes::written, pr_rulefile::specs::Expressions::expression_value_problems, pr_yaml::specs::Tree::is_absent_text))]
pub fn checks_have_these_fields()
    ensures alert { alert_problems (map_node 4 no_entries) ≡ problem 4 (Missing (codes "eval_time")) ∷ problem 4 (Missing (codes "alertname")) ∷ [] }
    ensures expression { check_problems (map_node 4 no_entries) ≡ problem 4 (Missing (codes "eval_time")) ∷ problem 4 (Missing (codes "expr")) ∷ [] }
    ensures sample { sample_problems (map_node 4 no_entries) ≡ problem 4 (Missing (codes "value")) ∷ [] }
    ensures empty { check_problems (map_node 4 (entry_then (codes "expr") 5 (quoted 5 []) no_entries)) ≡ problem 4 (Missing (codes "eval_time")) ∷ problem 4 (Missing (codes "expr")) ∷ [] }
    ensures named { alert_problems (map_node 4 (entry_then (codes "alertname") 5 (quoted 5 []) no_entries)) ≡ problem 4 (Missing (codes "eval_time")) ∷ [] }
{}

/// Labels that are expected have values that are not empty; annotations may be empty, but are
/// there.
#[tactic(auto, unfolding(crate::specs::Labels::label_set, crate::specs::Labels::notes_of, pr_rulefile::specs::Labels::put_labels, pr_yaml::specs::Tree::is_absent_text))]
pub fn empty_labels_are_none()
    ensures labels { label_set ((record { key = codes "b"; line = 1; value = quoted 1 [] }) ∷ (record { key = codes "a"; line = 1; value = plain 1 (codes "x") }) ∷ []) ≡ pair_of (codes "a") (codes "x") ∷ [] }
    ensures notes { notes_of ((record { key = codes "b"; line = 1; value = quoted 1 [] }) ∷ (record { key = codes "a"; line = 1; value = absent_node 1 }) ∷ []) ≡ pair_of (codes "b") [] ∷ [] }
{}
