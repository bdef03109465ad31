// What the definitions say of small scripts.
ghost use Rattle.std.specs.Prelude.{◌≡◌, codes, [], None, true, false};
ghost use Rattle.pr_run.specs.Told.{refuses, told};

/// A value is told for five minutes, and no millisecond longer.
pub fn a_value_is_told_for_five_minutes()
    ensures { told (λ name. None) [] (codes "add 0 m 1\nquery 299999 m\nquery 300000 m\n")
        ≡ codes "opened 0\nadded\nvector 1\nvalue m 1\nvector 0\n" }
{}

/// A name is a receiver once, and what waits for no receiver is nothing.
pub fn a_receiver_is_told_what_waits()
    ensures told { told (λ name. None) [] (codes "receiver a\nreceiver a\nflush a\nflush b\n")
        ≡ codes "opened 0\nreceiver a\nknown a\nbatch a notices 0 dropped 0\nno receiver b\n" }
    ensures fine { refuses (λ name. None) [] (codes "receiver a\nflush a\n") ≡ false }
    ensures known { refuses (λ name. None) [] (codes "receiver a\nreceiver a\n") ≡ true }
    ensures unknown { refuses (λ name. None) [] (codes "flush a\n") ≡ true }
{}
