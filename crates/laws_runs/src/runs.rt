//! What the definitions say of small runs: over rows, anew, and where something is refused.
ghost use Rattle.std.specs.Prelude.{◌≡◌, codes, [], None, true};
ghost use Rattle.pr_top.specs.pr_run.Told.{kept, refuses, told};

/// What was kept is told again after a restart.
pub fn a_restart_tells_what_was_kept()
    ensures { told (λ name. None) [] (codes "add 0 m 1\nrestart 0\nquery 0 m\n") ≡ codes "opened 0\nadded\nrestarted 1\nvector 1\nvalue m 1\n" }
{}

/// A run begins with the number of rows that the run before it kept.
pub fn a_run_opens_what_was_kept()
    ensures { told (λ name. None) (kept (λ name. None) [] (codes "add 0 m 1\nadd 60000 m 2\n")) [] ≡ codes "opened 2\n" }
{}

/// A time before that of the last event is refused with both.
pub fn a_run_goes_forward()
    ensures told { told (λ name. None) [] (codes "add 5000 m 1\nadd 4000 n 1\n") ≡ codes "opened 0\nadded\nbackwards last 5000 given 4000\n" }
    ensures refuses { refuses (λ name. None) [] (codes "add 5000 m 1\nadd 4000 n 1\n") ≡ true }
{}

/// A file that is not there, a group that no file has, and a line that spells no order are told by
/// what was asked for.
pub fn what_is_not_there_is_told()
    ensures file { told (λ name. None) [] (codes "reload 0 none.yml\n") ≡ codes "opened 0\nmissing none.yml\n" }
    ensures group { told (λ name. None) [] (codes "eval 0 r.yml h\n") ≡ codes "opened 0\nno group \"r.yml\" \"h\"\n" }
    ensures line { told (λ name. None) [] (codes "add 4398046511104 m 1\n") ≡ codes "opened 0\nbad line 1\n" }
    ensures refuses { refuses (λ name. None) [] (codes "add 4398046511104 m 1\n") ≡ true }
{}
