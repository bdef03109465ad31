//! The laws of rule files, as the contracts of functions that do nothing.
ghost use Rattle.std.specs.Prelude.{◌≡◌, ◌≢◌, ◌≤◌, ◌<◌, ◌^◌, ℕ, Bool, true, false, not, List, [], map, codes, is_some, IsSome, IfSome};
ghost use Rattle.std.specs.List.{IsDistinct};
ghost use Rattle.std.specs.Str.{bytes_eq};
ghost use Rattle.pr_yaml.specs.Tree.{Tree, EntryTree};
ghost use Rattle.pr_rulefile.specs.declared.fields.problem.Problem.{Problem};
ghost use Rattle.pr_rulefile.specs.Nodes.{fields_in, written};
ghost use Rattle.pr_rulefile.specs.Labels.{HaveFreeNames};
ghost use Rattle.spec_rules.specs.Definitions.{AreTemplates, Group};
ghost use Rattle.pr_rulefile.specs.Rules.{rule_problems, rule_of};
ghost use Rattle.pr_rulefile.specs.Groups.{group_problems, group_of};
ghost use Rattle.pr_rulefile.specs.File.{rule_file_of, gives_file, gives_problems};
ghost use Rattle.pr_rulefile.specs.private.Sound.{HoldsOfGroups, HoldsOfRules, IsNamed, IsTyped};

pub use crate::fields::laws::problems_are_told_in_order;

/// A node with which nothing is wrong is a rule, and so with a group: a file that is answered has
/// left none out.
pub fn what_is_not_wrong_is_there()
    ensures rule { (group : List EntryTree) (t : Tree) → rule_problems t ≡ [] → IsSome (rule_of group t) }
    ensures group { (before : List ℕ → Bool) (t : Tree) → group_problems before t ≡ [] → IsSome (group_of t) }
{}

/// A text that is no rule file has a problem that can be told.
#[tactic(auto, using(crate::proofs::SomeProblems::problem_is_told))]
pub fn a_refused_file_has_a_problem()
    ensures { (text : List ℕ) (list : List Problem) → rule_file_of text ≡ gives_problems list → list ≢ [] }
{}

/// The groups of a file have names that differ, and neither their intervals nor their limits are
/// too great.
pub fn groups_are_sound()
    ensures named { HoldsOfGroups (λ g. g.name ≢ []) }
    ensures distinct { (text : List ℕ) (groups : List Group) → rule_file_of text ≡ gives_file groups → IsDistinct bytes_eq (map (λ g. g.name) groups) }
    ensures interval { HoldsOfGroups (λ g. IfSome g.interval (λ ms. ms ≤ 2 ^ 40)) }
    ensures limit { HoldsOfGroups (λ g. g.limit < 2 ^ 32) }
{}

/// A rule of a file either records or alerts. It has a name, an expression with a type, and labels
/// and annotations of free names, of which those of an alert are templates. What records has
/// nothing that belongs to alerts alone.
pub fn rules_are_sound()
    ensures one_name { (t : Tree) → rule_problems t ≡ [] → is_some (written (codes "record") (fields_in t)) ≡ not (is_some (written (codes "alert") (fields_in t))) }
    ensures named { HoldsOfRules IsNamed }
    ensures typed { HoldsOfRules (λ r. IsTyped r.expr) }
    ensures labels { HoldsOfRules (λ r. HaveFreeNames r.labels) }
    ensures notes { HoldsOfRules (λ r. HaveFreeNames r.notes) }
    ensures templates { HoldsOfRules (λ r. r.alert ≡ true → AreTemplates r.labels × AreTemplates r.notes) }
    ensures recording { HoldsOfRules (λ r. r.alert ≡ false → (r.hold ≡ 0) × (r.keep ≡ 0) × (r.notes ≡ [])) }
    ensures hold { HoldsOfRules (λ r. r.hold ≤ 2 ^ 40) }
    ensures keep { HoldsOfRules (λ r. r.keep ≤ 2 ^ 40) }
{}
