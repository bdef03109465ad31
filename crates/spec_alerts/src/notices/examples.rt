// What the definitions say of a few calls.
ghost use Rattle.std.specs.Prelude.{◌≡◌, ◌++◌, [], ◌∷◌, codes, Some, None};
ghost use Rattle.spec_alerts.specs.private.Calls.{add, answers, batched, clear, done, flush, joined, offer};
ghost use Rattle.spec_alerts.specs.private.NoticesExamples.{gives, notice, notices, receivers};
ghost use Rattle.spec_alerts.specs.Receivers.{joins};
ghost use Rattle.spec_alerts.specs.declared.notices.joined.Joined.TheVariants.{New, Known, Full};

/// A receiver is given what was offered since it was added, and nothing from before.
pub fn a_receiver_is_given_what_was_offered_since_it_was_added()
    ensures since { answers [] (offer (notice 1 ∷ []) ∷ add (codes "a") ∷ offer (notice 2 ∷ []) ∷ flush (codes "a") ∷ [])
        ≡ done ∷ joined New ∷ done ∷ batched (Some (gives (notice 2 ∷ []) 0)) ∷ [] }
    ensures once { answers [] (add (codes "a") ∷ offer (notice 1 ∷ notice 2 ∷ []) ∷ flush (codes "a") ∷ flush (codes "a") ∷ [])
        ≡ joined New ∷ done ∷ batched (Some (gives (notice 1 ∷ notice 2 ∷ []) 0)) ∷ batched (Some (gives [] 0)) ∷ [] }
    ensures each { answers [] (add (codes "a") ∷ add (codes "b") ∷ offer (notice 1 ∷ []) ∷ flush (codes "a") ∷ flush (codes "b") ∷ [])
        ≡ joined New ∷ joined New ∷ done ∷ batched (Some (gives (notice 1 ∷ []) 0)) ∷ batched (Some (gives (notice 1 ∷ []) 0)) ∷ [] }
    ensures nobody { answers [] (add (codes "a") ∷ flush (codes "b") ∷ [])
        ≡ joined New ∷ batched None ∷ [] }
    ensures forgotten { answers [] (add (codes "a") ∷ offer (notice 1 ∷ []) ∷ clear ∷ flush (codes "a") ∷ add (codes "a") ∷ flush (codes "a") ∷ [])
        ≡ joined New ∷ done ∷ done ∷ batched None ∷ joined New ∷ batched (Some (gives [] 0)) ∷ [] }
{}

/// A name that is known is left as it is.
pub fn a_name_is_added_once()
    ensures { answers [] (add (codes "a") ∷ offer (notice 1 ∷ []) ∷ add (codes "a") ∷ flush (codes "a") ∷ [])
        ≡ joined New ∷ done ∷ joined Known ∷ batched (Some (gives (notice 1 ∷ []) 0)) ∷ [] }
{}

/// At most 64 receivers are known; of a full list a known name is told as known.
pub fn at_most_so_many_receivers_are_known()
    ensures last { joins (codes "a") (receivers 63) ≡ New }
    ensures full { joins (codes "a") (receivers 64) ≡ Full }
    ensures known { joins (63 ∷ []) (receivers 64) ≡ Known }
{}

/// At most 64 notices are given at once, and the others later.
pub fn notices_are_given_at_most_so_many_at_once()
    ensures { answers [] (add (codes "a") ∷ offer (notices 0 65) ∷ flush (codes "a") ∷ offer (notices 65 2) ∷ flush (codes "a") ∷ [])
        ≡ joined New ∷ done ∷ batched (Some (gives (notices 0 64) 0)) ∷ done ∷ batched (Some (gives (notices 64 3) 0)) ∷ [] }
{}

/// Where more than 10,000 notices would wait, the oldest are passed over, and counted until the next
/// batch.
pub fn the_oldest_notices_are_passed_over()
    ensures one { answers [] (add (codes "a") ∷ offer (notices 0 10001) ∷ flush (codes "a") ∷ flush (codes "a") ∷ [])
        ≡ joined New ∷ done ∷ batched (Some (gives (notices 1 64) 1)) ∷ batched (Some (gives (notices 65 64) 0)) ∷ [] }
    ensures none { answers [] (add (codes "a") ∷ offer (notices 0 10000) ∷ flush (codes "a") ∷ [])
        ≡ joined New ∷ done ∷ batched (Some (gives (notices 0 64) 0)) ∷ [] }
    ensures twice { answers [] (add (codes "a") ∷ offer (notices 0 10001) ∷ offer (notices 10001 2) ∷ flush (codes "a") ∷ [])
        ≡ joined New ∷ done ∷ done ∷ batched (Some (gives (notices 3 64) 3)) ∷ [] }
{}
