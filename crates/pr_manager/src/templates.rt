// Laws of the templates of rules.
ghost use Rattle.std.specs.Prelude.{◌≡◌, ℕ, List, All};
ghost use Rattle.spec_world.specs.pr_rulefile.declared.rule_file.RuleFile.{RuleFile};
ghost use Rattle.spec_world.specs.pr_rulefile.File.{gives_file, groups_of_file, rule_file_of};
ghost use Rattle.spec_world.specs.pr_rulefile.private.Sound.{HoldsOfRules};
ghost use Rattle.pr_group.specs.pr_rule.private.Templates.{HasTemplates, HaveTemplates};

/// The labels and annotations of the alerts of a rule file are templates.
pub(crate) fn rules_that_read_have_templates()
    ensures rules { HoldsOfRules HasTemplates }
    ensures file { (text : List ℕ) (file : RuleFile) → rule_file_of text ≡ gives_file (groups_of_file file) → All HaveTemplates file.groups }
{}
