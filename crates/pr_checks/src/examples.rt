//! What is told of small files and expositions.
ghost use Rattle.std.specs.Prelude.{◌≡◌, ◌<◌, ◌^◌, ℕ, List, codes, length, true, false, [], ◌∷◌, Some, None};
ghost use Rattle.pr_yaml.specs.declared.yaml_scan.fault.YamlKind.TheVariants as yaml;
ghost use Rattle.pr_ast.specs.declared.lex.fault.LexKind.TheVariants as lex;
ghost use Rattle.spec_world.specs.pr_parse.declared.fault.ParseKind.TheVariants as parse;
ghost use Rattle.spec_world.specs.pr_types.declared.kind.TypeKind.TheVariants as typing;
ghost use Rattle.spec_world.specs.pr_parse.declared.query_kind.QueryKind.TheVariants.{Lex, Parse, Typing};
ghost use Rattle.spec_world.specs.pr_rulefile.declared.fields.problem.ProblemKind.TheVariants.{Yaml, WantMap, DuplicateGroup, BadTemplate, Expression};
ghost use Rattle.spec_world.specs.pr_rulefile.Problems.{problem};
ghost use Rattle.pr_outside.specs.declared.check_loops.verdict.Verdict.TheVariants.{Good, Complaints, Refused};
ghost use Rattle.pr_checks.specs.Problems.{problem_line};
ghost use Rattle.pr_checks.specs.RuleFiles.{file_told};
ghost use Rattle.pr_checks.specs.Metrics.{metrics_told};

/// How many rules a file has; that it is not there, or too large. A file that says nothing has no
/// rules.
pub fn files_are_told_so()
    ensures empty { file_told (codes "a.yml") (Some []) ≡ record { text = codes "Checking a.yml\n  SUCCESS: 0 rules found\n"; refused = false; asks = codes "a.yml" ∷ [] } }
    ensures one_rule { file_told (codes "a.yml") (Some (codes "groups:\n- name: g\n  rules:\n  - record: a:b\n    expr: up\n")) ≡ record { text = codes "Checking a.yml\n  SUCCESS: 1 rules found\n"; refused = false; asks = codes "a.yml" ∷ [] } }
    ensures missing { file_told (codes "a.yml") None ≡ record { text = codes "Checking a.yml\n  FAILED:\na.yml: Missing\n"; refused = true; asks = codes "a.yml" ∷ [] } }
    ensures too_large { (bytes : List ℕ) → 2 ^ 26 < length bytes → file_told (codes "a.yml") (Some bytes) ≡ record { text = codes "Checking a.yml\n  FAILED:\na.yml: TooLarge\n"; refused = true; asks = codes "a.yml" ∷ [] } }
{}

/// Each problem of a file stands on a line: by the lines of the file, and on one line by kind.
pub fn problems_are_told_so()
    ensures unknown { file_told (codes "rules.yml") (Some (codes "groups:\n- name: g\n  every: 1m\n  rules:\n  - record: a:b\n    expr: up\n")) ≡ record { text = codes "Checking rules.yml\n  FAILED:\nrules.yml: line 3 UnknownField \"every\"\n"; refused = true; asks = codes "rules.yml" ∷ [] } }
    ensures by_line { file_told (codes "a.yml") (Some (codes "groups:\n- rules:\n  - {}\n")) ≡ record { text = codes "Checking a.yml\n  FAILED:\na.yml: line 2 Missing \"name\"\na.yml: line 3 Missing \"expr\"\na.yml: line 3 NoName\n"; refused = true; asks = codes "a.yml" ∷ [] } }
    ensures no_tree { file_told (codes "a.yml") (Some (codes "a: b: c\n")) ≡ record { text = codes "Checking a.yml\n  FAILED:\na.yml: line 1 Colon\n"; refused = true; asks = codes "a.yml" ∷ [] } }
{}

/// A kind is told by its name and what it tells: a name in double quotes, or a place. A kind of
/// YAML or of an expression is told in place of the one that holds it.
#[tactic(auto, unfolding(crate::proofs::Computing::printing))]
pub fn lines_are_printed_so()
    ensures alone { problem_line (codes "a.yml") (problem 7 WantMap) ≡ codes "a.yml: line 7 WantMap\n" }
    ensures name { problem_line (codes "a.yml") (problem 12 (DuplicateGroup (codes "a \"b\"\\"))) ≡ codes "a.yml: line 12 DuplicateGroup \"a \\\"b\\\"\\\\\"\n" }
    ensures tree { problem_line (codes "a.yml") (problem 1 (Yaml yaml.DuplicateKey)) ≡ codes "a.yml: line 1 DuplicateKey\n" }
    ensures template { problem_line (codes "a.yml") (problem 3 (BadTemplate 15)) ≡ codes "a.yml: line 3 BadTemplate 15\n" }
    ensures token { problem_line (codes "a.yml") (problem 3 (Expression (Lex lex.BadChar) 4)) ≡ codes "a.yml: line 3 BadChar 4\n" }
    ensures parsed { problem_line (codes "a.yml") (problem 3 (Expression (Parse parse.End) 0)) ≡ codes "a.yml: line 3 End 0\n" }
    ensures typed { problem_line (codes "a.yml") (problem 3 (Expression (Typing typing.BoolNeeded) 0)) ≡ codes "a.yml: line 3 BoolNeeded 0\n" }
    ensures arguments { problem_line (codes "a.yml") (problem 3 (Expression (Typing (typing.Arguments 1 2 2)) 7)) ≡ codes "a.yml: line 3 Arguments 1 2 2 7\n" }
{}

/// A complaint about a family stands on a line, in the order of the kinds. A good exposition is
/// told by nothing, and the first bad line of what is none by its number.
pub fn expositions_are_told_so()
    ensures nothing { metrics_told [] ≡ record { text = []; verdict = Good } }
    ensures good { metrics_told (codes "# HELP a_total b\n# TYPE a_total counter\na_total 1\n") ≡ record { text = []; verdict = Good } }
    ensures complaint { metrics_told (codes "# HELP temp Temperature.\n# TYPE temp gauge\ntemp{le=\"1\"} 21\n") ≡ record { text = codes "temp LeLabel\n"; verdict = Complaints } }
    ensures complaints { metrics_told (codes "# TYPE aB_total gauge\naB_total 1\nc 2\n") ≡ record { text = codes "aB_total NoHelp\naB_total NotCounterTotal\naB_total Camel\nc NoHelp\n"; verdict = Complaints } }
    ensures bad_line { metrics_told (codes "a{") ≡ record { text = codes "line 1 BadLabels\n"; verdict = Refused } }
    ensures first_bad_line { metrics_told (codes "a 1\na b\na{\n") ≡ record { text = codes "line 2 BadValue\n"; verdict = Refused } }
{}
