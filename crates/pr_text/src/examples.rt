// What the definitions say of small inputs.
ghost use Rattle.std.specs.Prelude.{◌≡◌, codes, [], ◌∷◌, None, Some};
ghost use Rattle.spec_world.specs.pr_labels.LabelSet.{named, pair_of};
ghost use Rattle.spec_world.specs.pr_num.declared.value.Point.TheVariants.{Stale};
ghost use Rattle.spec_world.specs.spec_history.private.Examples.{m, job, number, whole};
ghost use Rattle.spec_world.specs.spec_history.declared.append.Append.TheVariants as append;
ghost use Rattle.spec_world.specs.spec_history.Series.{element};
ghost use Rattle.spec_world.specs.pr_rulefile.declared.fields.problem.ProblemKind.TheVariants.{NotForRecording};
ghost use Rattle.spec_world.specs.spec_alerts.declared.record.State.TheVariants.{Pending};
ghost use Rattle.spec_world.specs.spec_alerts.declared.notices.joined.Joined.TheVariants.{New, Known, Full};
ghost use Rattle.spec_world.specs.spec_rules.declared.fault.RuleFault.TheVariants.{LimitExceeded, SameAfterRule};
ghost use Rattle.spec_world.specs.private.GroupExamples.{alerts_series, big_fails, fine, firing, for_state_series, moved_to, of_alert, over};
ghost use Rattle.spec_world.specs.declared.report.Report.TheVariants.{Opened, Added, Same, OutOfOrder, Conflict, Scraped, BadScrape, Failed, Gone, Evaluated, NoGroup, NotLater, Reloaded, Missing, TooLarge, Refused, Restarted, Alerts, Scalar, Vector, QueryFault, QueryRefused, Backwards};
ghost use Rattle.spec_world.specs.pr_parse.declared.query_kind.QueryKind.TheVariants.{Parse};
ghost use Rattle.spec_world.specs.pr_expo.declared.expo_line.place.ExpoKind.TheVariants.{BadLabels};
ghost use Rattle.spec_world.specs.pr_parse.declared.fault.ParseKind.TheVariants as parse;
ghost use Rattle.spec_world.specs.spec_meaning.declared.fault.FaultKind.TheVariants as fault;
ghost use Rattle.pr_text.specs.Evaluated.{alert_text, put_line_by, restored_line, rule_fault_text, rule_lines};
ghost use Rattle.pr_text.specs.Faults.{fault_text};
ghost use Rattle.pr_text.specs.Notices.{flush_text, joined_text, note_line, sending_lines};
ghost use Rattle.pr_text.specs.Printed.{shown_report, bad_line_text};

/// What is written for each report, and for a line that spells no order.
#[tactic(auto, unfolding(crate::proofs::Computing::computing))]
pub fn reports_are_written_so()
    ensures opened { shown_report (Opened 12) ≡ codes "opened 12\n" }
    ensures added { shown_report Added ≡ codes "added\n" }
    ensures same { shown_report Same ≡ codes "same\n" }
    ensures out_of_order { shown_report (OutOfOrder 5000) ≡ codes "dropped OutOfOrder 5000\n" }
    ensures conflict { shown_report (Conflict (whole 1)) ≡ codes "dropped Conflict 1\n" }
    ensures marker { shown_report (Conflict Stale) ≡ codes "dropped Conflict stale\n" }
    ensures scraped { shown_report (Scraped 12 0 5) ≡ codes "scraped added 12 dropped 0 stale 5\n" }
    ensures bad_scrape { shown_report (BadScrape 2 BadLabels 5) ≡ codes "bad scrape line 2 BadLabels stale 5\n" }
    ensures failed { shown_report (Failed 5) ≡ codes "failed stale 5\n" }
    ensures gone { shown_report (Gone 12) ≡ codes "gone stale 12\n" }
    ensures scalar { shown_report (Scalar (number 20)) ≡ codes "scalar 20\n" }
    ensures vector { shown_report (Vector (element m (number 1) ∷ element (job (codes "a")) (number 20) ∷ []))
        ≡ codes "vector 2\nvalue m 1\nvalue {job=\"a\"} 20\n" }
    ensures nothing { shown_report (Vector []) ≡ codes "vector 0\n" }
    ensures fault { shown_report (QueryFault 3 fault.TooWide) ≡ codes "fault TooWide at 3\n" }
    ensures refused { shown_report (QueryRefused 0 (Parse parse.UnknownFunction)) ≡ codes "refused UnknownFunction at 0\n" }
    ensures backwards { shown_report (Backwards 5000 4000) ≡ codes "backwards last 5000 given 4000\n" }
    ensures bad_line { bad_line_text 70 ≡ codes "bad line 70\n" }
{}

/// What is written of rules, reloads, restarts and alerts.
#[tactic(auto, unfolding(crate::proofs::Computing::computing))]
pub fn groups_are_written_so()
    ensures no_group { shown_report (NoGroup (codes "r.yml") (codes "h")) ≡ codes "no group \"r.yml\" \"h\"\n" }
    ensures not_later { shown_report (NotLater 0) ≡ codes "not later last 0\n" }
    ensures reloaded { shown_report (Reloaded 1 2 0) ≡ codes "reloaded groups 1 rules 2 stale 0\n" }
    ensures missing { shown_report (Missing (codes "none.yml")) ≡ codes "missing none.yml\n" }
    ensures too_large { shown_report (TooLarge (codes "a.yml")) ≡ codes "too large a.yml\n" }
    ensures refused { shown_report (Refused (codes "r") 6 (NotForRecording (codes "for"))) ≡ codes "refused r line 6 NotForRecording \"for\"\n" }
    ensures restarted { shown_report (Restarted 1) ≡ codes "restarted 1\n" }
    ensures alerts { shown_report (Alerts []) ≡ codes "alerts 0\n" }
    ensures evaluated { shown_report (Evaluated (record { rules = big_fails; leftovers = m ∷ []; restored = []; admitted = [] }))
        ≡ codes "rule 1 fault TooWide at 0\nrule 2 ok\nsample b 10000000000000000000\nstale m\nevaluated rules 2 faults 1\n" }
{}

/// What is written of a rule: its samples, its markers, its notifications, or its fault.
#[tactic(auto, unfolding(crate::proofs::Computing::computing))]
pub fn rules_are_written_so()
    ensures over { rule_lines 1 (fine [] (alerts_series (codes "D") (codes "firing") ∷ for_state_series (codes "D") ∷ []) (over (codes "D") 180000 240000 ∷ []))
        ≡ codes "rule 1 ok\nstale ALERTS{alertname=\"D\",alertstate=\"firing\"}\nstale ALERTS_FOR_STATE{alertname=\"D\"}\nsend resolved {alertname=\"D\"} value 0 starts 180000 ends 240000\n" }
    ensures fires { sending_lines (firing (codes "D") 0 240000) ≡ codes "send firing {alertname=\"D\"} value 0 starts 0 ends 240000\n" }
    ensures note { note_line (pair_of (codes "summary") (codes "x")) ≡ codes "note summary \"x\"\n" }
    ensures conflict { put_line_by (append.Conflict (whole 1)) (named (codes "r")) (number 2) ≡ codes "dropped r Conflict 1\n" }
    ensures late { put_line_by (append.OutOfOrder 5) (named (codes "r")) (number 2) ≡ codes "dropped r OutOfOrder 5\n" }
    ensures limit { rule_fault_text (LimitExceeded 1 2) ≡ codes "LimitExceeded 1 2" }
    ensures same { rule_fault_text (SameAfterRule (named (codes "r"))) ≡ codes "SameAfterRule r" }
    ensures restored { restored_line (moved_to (codes "H") 1260000) ≡ codes "restored {alertname=\"H\"} active 1260000\n" }
    ensures alert { alert_text (record { state = Pending; labels = of_alert (codes "D"); active = 0; value = number 0 }) ≡ codes "alert pending {alertname=\"D\"} active 0 value 0\n" }
{}

/// The kind of a fault is written by its name and what it tells.
#[tactic(auto, unfolding(crate::proofs::Computing::computing))]
pub fn faults_are_written_so()
    ensures key { fault_text (fault.ManyToMany (job (codes "a"))) ≡ codes "ManyToMany {job=\"a\"}" }
    ensures labels { fault_text (fault.SameLabels m) ≡ codes "SameLabels m" }
    ensures empty { fault_text (fault.NotUnique []) ≡ codes "NotUnique {}" }
    ensures range { fault_text (fault.RangeTooLong 1048577) ≡ codes "RangeTooLong 1048577" }
{}

/// What receivers are told: what becomes of a name, what one is given, and that there is none.
#[tactic(auto, unfolding(crate::proofs::Computing::computing))]
pub fn receivers_are_told_so()
    ensures new { joined_text (codes "a") New ≡ codes "receiver a\n" }
    ensures known { joined_text (codes "a") Known ≡ codes "known a\n" }
    ensures full { joined_text (codes "a") Full ≡ codes "too many receivers\n" }
    ensures batch { flush_text (codes "a") (Some (record { notices = firing (codes "D") 0 240000 ∷ over (codes "D") 0 270000 ∷ []; dropped = 3 }))
        ≡ codes "batch a notices 2 dropped 3\ndeliver firing {alertname=\"D\"} value 0 starts 0 ends 240000\ndeliver resolved {alertname=\"D\"} value 0 starts 0 ends 270000\n" }
    ensures empty { flush_text (codes "a") (Some (record { notices = []; dropped = 0 })) ≡ codes "batch a notices 0 dropped 0\n" }
    ensures nobody { flush_text (codes "b") None ≡ codes "no receiver b\n" }
{}
