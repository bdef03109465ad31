// What small lists of files are.
ghost use Rattle.std.specs.Prelude.{◌≡◌, codes, [], ◌∷◌, Some, Ok, Err};
ghost use Rattle.spec_vectors.specs.spec_history.private.Examples.{one};
ghost use Rattle.spec_world.specs.declared.report.Report.TheVariants.{Backwards, Missing, TooLarge};
ghost use Rattle.spec_world.specs.Loading.{all_found, is_missing, is_too_large, reload_asked};
ghost use Rattle.spec_world.specs.Settings.{of_a_run};
ghost use Rattle.spec_world.specs.World.{begin};

/// Files are looked for in order, up to the first that is not there or is too large.
pub fn files_are_found_in_order()
    ensures missing { all_found (λ file. is_missing) (record { name = codes "a"; file = codes "a.yml" } ∷ record { name = codes "b"; file = codes "b.yml" } ∷ []) ≡ Err (Missing (codes "a.yml")) }
    ensures large { all_found (λ file. is_too_large) (record { name = codes "a"; file = codes "a.yml" } ∷ []) ≡ Err (TooLarge (codes "a.yml")) }
    ensures none { all_found (λ file. is_missing) [] ≡ Ok [] }
{}

/// The time of a reload is looked at before its files are.
#[tactic(auto, unfolding(crate::specs::Loading::reload_asked))]
pub fn a_reload_before_the_last_event_looks_for_no_file()
    ensures backwards { (reload_asked of_a_run (begin (Some 100) one) 50 (λ file. is_missing) (record { name = codes "a"; file = codes "a.yml" } ∷ [])).report ≡ Backwards 100 50 }
    ensures in_time { (reload_asked of_a_run (begin (Some 100) one) 100 (λ file. is_missing) (record { name = codes "a"; file = codes "a.yml" } ∷ [])).report ≡ Missing (codes "a.yml") }
    ensures unchanged { (reload_asked of_a_run (begin (Some 100) one) 100 (λ file. is_missing) (record { name = codes "a"; file = codes "a.yml" } ∷ [])).world ≡ begin (Some 100) one }
{}
