// Laws of records.
ghost use Rattle.std.specs.Prelude.{◌≡◌, ℕ, List, [], ◌∷◌, ◌++◌, map, Option, Some, None, true, slice_get, slice_set};
ghost use Rattle.pr_labels.specs.declared.pair.Pair.{Pair};
ghost use Rattle.spec_rules.specs.spec_alerts.declared.found.RuleElement.{RuleElement};
ghost use Rattle.spec_rules.specs.spec_alerts.Sights.{Sight};
ghost use Rattle.spec_rules.specs.spec_alerts.Records.{alert, evaluation, is_living, records, sendings, sendings_at, unsent_alert, unsent_records};
ghost use Rattle.spec_rules.specs.spec_alerts.Lineage.{Occurrence, came_to, exceeded, failed, moved};
ghost use Rattle.spec_rules.specs.spec_alerts.declared.record.Record.{Record};
ghost use Rattle.spec_rules.specs.spec_alerts.declared.restored.Restored.{Restored};
ghost use Rattle.spec_rules.specs.spec_alerts.Restoring.{restored_of};
ghost use Rattle.pr_rule.specs.private.Restoring.{with_active};
ghost use Rattle.pr_rule.specs.private.AlertStanding.{StandsFor, StandsUnsent, marked_if};
ghost use Rattle.pr_rule.specs.private.Going.{found_record, gone_on};

/// At an evaluation the alert of a label set goes on as its record does, whether it is found or
/// missing: what the whole lineage comes to is one step from what it came to before.
#[tactic(auto, using(crate::proofs::FoundAlerts::found_alert, crate::proofs::MissingAlerts::missing_alert))]
pub fn an_alert_goes_on_with_each_evaluation()
    ensures found { (f : RuleElement) (ss : List Sight) (now hold keep : ℕ)
        → unsent_alert f.labels (record { time = now; hold = hold; keep = keep; found = Some f; moved = None } ∷ ss) ≡ Some (found_record (alert f.labels ss) f now hold) }
    ensures missing { (labels : List Pair) (ss : List Sight) (now hold keep : ℕ)
        → unsent_alert labels (record { time = now; hold = hold; keep = keep; found = None; moved = None } ∷ ss) ≡ gone_on (alert labels ss) None now hold keep }
{}

/// Records that stand for a lineage before anything is sent at its last evaluation stand for it once
/// all that is due is marked; and what is sent then is what is due of them.
pub fn what_is_sent_is_marked()
    ensures sent { (lineage : List Occurrence) (rs : List Record) (fs : List RuleElement) (interval now hold keep : ℕ) (wrote : List (List Pair))
        → StandsUnsent rs (lineage ++ evaluation now hold keep (came_to fs) wrote ∷ [])
        → sendings interval (lineage ++ evaluation now hold keep (came_to fs) wrote ∷ []) ≡ sendings_at interval now rs }
    ensures marked { (lineage : List Occurrence) (rs : List Record) (fs : List RuleElement) (now hold keep : ℕ) (wrote : List (List Pair))
        → StandsUnsent rs (lineage ++ evaluation now hold keep (came_to fs) wrote ∷ [])
        → StandsFor (map (marked_if now) rs) (lineage ++ evaluation now hold keep (came_to fs) wrote ∷ []) }
{}

/// The records that stand for a lineage are its records, whole and in order, and these stand for it.
pub fn records_of_a_lineage_stand_for_it()
    ensures stand { (lineage : List Occurrence) → StandsFor (records lineage) lineage }
    ensures alone { (rs : List Record) (lineage : List Occurrence) → StandsFor rs lineage → rs ≡ records lineage }
    ensures unsent { (rs : List Record) (lineage : List Occurrence) → StandsUnsent rs lineage → rs ≡ unsent_records lineage }
{}

/// After an evaluation that exceeded the limit no records stand for the lineage.
pub fn no_records_stand_after_the_limit()
    ensures { (lineage : List Occurrence) (now hold keep : ℕ) (wrote : List (List Pair))
        → StandsFor [] (lineage ++ evaluation now hold keep exceeded wrote ∷ []) }
{}

/// Where the active time of a pending or firing record is set, the records stand for the lineage with
/// one more entry, that moves its alert.
/// Two such entries, one after the other, are as one.
pub fn a_restored_record_is_moved()
    ensures moved { (lineage : List Occurrence) (rs : List Record) (i : ℕ) (r : Record) (active : ℕ) → StandsFor rs lineage → slice_get rs i ≡ Some r → is_living r ≡ true
        → StandsFor (slice_set rs i (with_active active r)) (lineage ++ moved (restored_of r.labels active ∷ []) ∷ []) }
    ensures as_one { (lineage : List Occurrence) (rs : List Record) (first later : List Restored) → StandsFor rs (lineage ++ moved first ∷ moved later ∷ [])
        → StandsFor rs (lineage ++ moved (first ++ later) ∷ []) }
{}

/// An entry that moves no alerts leaves the records: one of a rule of which nothing is restored.
pub fn a_move_of_no_alerts_leaves_the_records()
    ensures { (lineage : List Occurrence) (rs : List Record) → StandsFor rs lineage → StandsFor rs (lineage ++ moved [] ∷ []) }
{}

/// An evaluation that failed otherwise than by the limit leaves the records.
pub fn a_fault_leaves_the_records()
    ensures { (lineage : List Occurrence) (rs : List Record) (now hold keep : ℕ) (wrote : List (List Pair)) → StandsFor rs lineage
        → StandsFor rs (lineage ++ evaluation now hold keep failed wrote ∷ []) }
{}
