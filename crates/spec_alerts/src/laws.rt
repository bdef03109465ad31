// Laws of lineages.
ghost use Rattle.std.specs.Prelude.{◌≡◌, ℕ, false, List, filter, map};
ghost use Rattle.spec_history.specs.pr_labels.Rising.{IsRising};
ghost use Rattle.spec_alerts.specs.declared.record.Record.{Record};
ghost use Rattle.spec_alerts.specs.declared.record.State.TheVariants.{Pending};
ghost use Rattle.spec_alerts.specs.Lineage.{Occurrence};
ghost use Rattle.spec_alerts.specs.Records.{is_due, records, sending_of, sendings_at, unsent_records};

/// The records of a lineage are in label order, each label set once.
#[tactic(auto, using(crate::proofs::RecordOrder::records_rise, crate::proofs::RecordOrder::unsent_rise))]
pub fn records_are_in_label_order()
    ensures records { (lineage : List Occurrence) → IsRising (map (λ r. r.labels) (records lineage)) }
    ensures unsent { (lineage : List Occurrence) → IsRising (map (λ r. r.labels) (unsent_records lineage)) }
{}

/// What is sent is sent of the alerts that are due, in their order; a pending one is never due.
#[tactic(auto, using(crate::proofs::DueAlerts::sent_of_due, crate::proofs::DueAlerts::pending_stays))]
pub fn no_pending_alert_is_sent()
    ensures due { (interval now : ℕ) (rs : List Record) → sendings_at interval now rs ≡ map (sending_of interval now) (filter (is_due now) rs) }
    ensures pending { (now : ℕ) (r : Record) → r.state ≡ Pending → is_due now r ≡ false }
{}
