// Laws of scrapes and targets.
ghost use Rattle.std.specs.Prelude.{◌≡◌, ℕ, ◌++◌, cond, false, List, Some, None, length};
ghost use Rattle.spec_vectors.specs.spec_history.declared.entry.Entry.{Entry};
ghost use Rattle.spec_vectors.specs.spec_history.Admission.{put_all};
ghost use Rattle.pr_ast.specs.pr_labels.declared.pair.Pair.{Pair};
ghost use Rattle.pr_ast.specs.pr_labels.LabelSet.{IsLabelSet};
ghost use Rattle.pr_ast.specs.pr_labels.Order.{labels_eq};
ghost use Rattle.pr_ast.specs.pr_labels.Rising.{IsRising};
ghost use Rattle.spec_world.specs.declared.scraped.Offer.{Offer};
ghost use Rattle.spec_world.specs.private.Renaming.{HasAllLabels, IsFirstFree};
ghost use Rattle.spec_world.specs.Scrapes.{added_count, admitted, free_name, scraped_labels, tracked_after};
ghost use Rattle.spec_world.specs.Targets.{Target, fail_step, gone_step, tracked_at, scrape_step, with_tracked, without_target};

/// What is admitted comes behind the history, and nothing else; it is as much as is counted.
pub fn what_is_admitted_comes_behind_the_history()
    ensures behind { (history entries : List Entry) → put_all history entries ≡ history ++ admitted history entries }
    ensures counted { (history entries : List Entry) → length (admitted history entries) ≡ added_count history entries }
{}

/// A scraped label that the target has too gets the shortest name, with `exported_` before its own
/// once or more often, that neither label set has.
pub fn a_new_name_is_the_first_free_one()
    ensures { (target labels : List Pair) (name : List ℕ) → IsFirstFree target labels name (free_name target labels name) }
{}

/// A sample has the labels of its target and its own, these under their new names; none is lost.
pub fn no_scraped_label_is_lost()
    ensures { (target labels : List Pair) → IsLabelSet target → IsLabelSet labels → HasAllLabels target labels (scraped_labels target labels) }
{}

/// A tracked set is in label order, each series once.
#[tactic(auto, using(crate::proofs::Scraping::tracked_rises))]
pub fn a_tracked_set_rises()
    ensures { (history : List Entry) (offered : List Offer) → IsRising (tracked_after history offered) }
{}

/// An order about a target adds what is admitted of the entries that it puts.
#[tactic(auto, using(crate::proofs::Targeting::scrape_puts, crate::proofs::Targeting::fail_puts, crate::proofs::Targeting::gone_puts))]
pub fn an_order_about_a_target_adds_what_is_admitted()
    ensures scrape { (targets : List Target) (history : List Entry) (target : List Pair) (now : ℕ) (body : List ℕ)
        → put_all history (scrape_step targets history target now body).entries ≡ history ++ (scrape_step targets history target now body).answer.admitted }
    ensures fail { (targets : List Target) (history : List Entry) (target : List Pair) (now : ℕ)
        → put_all history (fail_step targets history target now).entries ≡ history ++ (fail_step targets history target now).answer.admitted }
    ensures gone { (targets : List Target) (history : List Entry) (target : List Pair) (now : ℕ)
        → put_all history (gone_step targets history target now).entries ≡ history ++ (gone_step targets history target now).answer.admitted }
{}

/// A scrape sets what is tracked of its target, and the end of a target makes it unknown; what is
/// tracked of the others stays.
#[tactic(auto, using(crate::proofs::Targeting::tracked_with, crate::proofs::Targeting::tracked_without, crate::proofs::Targeting::others_known, crate::proofs::Targeting::others_gone))]
pub fn an_order_changes_one_target()
    ensures known { (targets : List Target) (target : List Pair) (tracked : List (List Pair)) (other : List Pair)
        → tracked_at (with_tracked targets target tracked) other ≡ cond (labels_eq target other) (Some tracked) (tracked_at targets other) }
    ensures forgotten { (targets : List Target) (target other : List Pair)
        → tracked_at (without_target targets target) other ≡ cond (labels_eq target other) None (tracked_at targets other) }
    ensures scrape { (targets : List Target) (history : List Entry) (target : List Pair) (now : ℕ) (body : List ℕ) (other : List Pair)
        → labels_eq target other ≡ false → tracked_at (scrape_step targets history target now body).targets other ≡ tracked_at targets other }
    ensures fail { (targets : List Target) (history : List Entry) (target : List Pair) (now : ℕ) (other : List Pair)
        → labels_eq target other ≡ false → tracked_at (fail_step targets history target now).targets other ≡ tracked_at targets other }
    ensures gone { (targets : List Target) (history : List Entry) (target : List Pair) (now : ℕ) (other : List Pair)
        → labels_eq target other ≡ false → tracked_at (gone_step targets history target now).targets other ≡ tracked_at targets other }
{}
