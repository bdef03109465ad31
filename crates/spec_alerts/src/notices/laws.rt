// Laws of what receivers are given.
ghost use Rattle.std.specs.Prelude.{◌≡◌, ◌++◌, ℕ, List, [], false};
ghost use Rattle.spec_alerts.specs.declared.sending.Sending.{Sending};
ghost use Rattle.spec_alerts.specs.private.Accounts.{IsAccounted};
ghost use Rattle.spec_alerts.specs.private.Calls.{Call, after, after_all, batches, forgets};
ghost use Rattle.spec_alerts.specs.private.Laws.{AreReceivers};
ghost use Rattle.spec_alerts.specs.Receivers.{Receiver, after_add, after_offer, joins};
ghost use Rattle.spec_alerts.specs.declared.notices.joined.Joined.TheVariants.{New};

/// At first and after each call the place of each receiver lies in its stream, with at most 10,000
/// notices behind it; no name stands twice; and there are at most 64 receivers.
#[tactic(auto, using(crate::proofs::Kept::none_known, crate::proofs::Kept::kept_after))]
pub fn receivers_stay_within_their_bounds()
    ensures begin { AreReceivers [] }
    ensures stay { (rs : List Receiver) (call : Call) → AreReceivers rs → AreReceivers (after rs call) }
{}

/// What a receiver was given since it was added, batch by batch, is its stream up to its place, without
/// exactly the notices that were counted as lost, each notice once and in order. Its stream is all that
/// was offered since. A count of 2^64 - 1 stands for so many or more.
#[tactic(auto, using(crate::proofs::Accounted::accounted_since_added))]
pub fn a_receiver_is_given_its_stream_in_order()
    ensures { (name : List ℕ) (rs : List Receiver) (calls : List Call) → joins name rs ≡ New → forgets calls ≡ false
        → IsAccounted name calls (after_all (after_add name rs) calls) (batches name (after_add name rs) calls) }
{}

/// Notices that are offered one list after another are offered as one list. A list without notices
/// changes nothing.
#[tactic(auto, using(crate::proofs::Offers::all_offered_on, crate::proofs::Offers::none_offered))]
pub fn notices_may_be_offered_in_parts()
    ensures parts { (first later : List Sending) (rs : List Receiver) → after_offer later (after_offer first rs) ≡ after_offer (first ++ later) rs }
    ensures none { (rs : List Receiver) → AreReceivers rs → after_offer [] rs ≡ rs }
{}
