//! The laws of problems, as the contracts of functions that do nothing.
ghost use Rattle.std.specs.Prelude.{◌≡◌, ◌≢◌, ℕ, Bool, true, List, []};
ghost use Rattle.std.specs.List.Sorted.{IsSortedBy, IsStableBy};
ghost use Rattle.pr_labels.specs.LabelSet.{metric_label};
ghost use Rattle.pr_labels.specs.Names.{is_label_name};
ghost use Rattle.pr_yaml.specs.Tree.{Tree};
ghost use Rattle.pr_rulefile.specs.declared.fields.problem.Problem.{Problem};
ghost use Rattle.pr_rulefile.specs.Nodes.{fields_in};
ghost use Rattle.pr_rulefile.specs.Labels.{labels_problems, put_labels, pairs_of, is_free_name, HaveFreeNames};
ghost use Rattle.spec_rules.specs.Definitions.{AreTemplates};
ghost use Rattle.pr_rulefile.specs.Order.{is_told_before, in_order};

/// Problems are told by line, and on one line by kind; of each line and kind they are those of the
/// text, in its order. So none is lost and none is added, and no other list is such.
pub fn problems_are_told_in_order()
    ensures rises { (problems : List Problem) → IsSortedBy is_told_before (in_order problems) }
    ensures stable { (problems : List Problem) → IsStableBy is_told_before problems (in_order problems) }
    ensures only { (problems list : List Problem) → IsSortedBy is_told_before list → IsStableBy is_told_before problems list → list ≡ in_order problems }
{}

/// A free name is a label name, and not that of the metric's name.
pub fn free_names_are_no_metric_names()
    ensures label { (name : List ℕ) → is_free_name name ≡ true → is_label_name name ≡ true }
    ensures other { (name : List ℕ) → is_free_name name ≡ true → name ≢ metric_label }
{}

/// A map of labels with which nothing is wrong has labels of free names, and where templates are
/// wanted the values are such.
pub fn good_labels_have_free_names()
    ensures names { (templates : Bool) (t : Tree) → labels_problems templates t ≡ [] → HaveFreeNames (pairs_of (put_labels [] (fields_in t))) }
    ensures templates { (t : Tree) → labels_problems true t ≡ [] → AreTemplates (pairs_of (put_labels [] (fields_in t))) }
{}
