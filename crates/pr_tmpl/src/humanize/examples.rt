//! What the definitions say of small values.
ghost use Rattle.std.specs.Prelude.{◌≡◌, codes, pos, neg_ℤ};
ghost use Rattle.pr_num.specs.declared.value.Num.TheVariants.{Finite, NaN, NegInf};
ghost use Rattle.pr_tmpl.specs.Decimals.{fixed};
ghost use Rattle.pr_tmpl.specs.Humanized.{humanize, humanize_percentage, humanize_duration};

/// How values are written.
pub fn values_are_written_so()
    ensures two_places { fixed 2 (pos 1234567891) ≡ codes "1.23" }
    ensures tie_to_even { fixed 0 (pos 2500000000) ≡ codes "2" }
    ensures six_places { fixed 6 (neg_ℤ (pos 1500000000)) ≡ codes "-1.500000" }
    ensures no_sign_of_zero { fixed 1 (neg_ℤ (pos 40000000)) ≡ codes "0.0" }
    ensures thousands { humanize (Finite (pos 1234567000000000)) ≡ codes "1.235M" }
    ensures after_the_division { humanize (Finite (pos 999960000000)) ≡ codes "1000" }
    ensures thousandths { humanize (Finite (neg_ℤ (pos 2500000))) ≡ codes "-2.5m" }
    ensures least { humanize (Finite (pos 1)) ≡ codes "1n" }
    ensures greatest { humanize (Finite (pos 99999999999999999999000000000)) ≡ codes "100E" }
    ensures zero { humanize (Finite (pos 0)) ≡ codes "0" }
    ensures special { humanize NaN ≡ codes "NaN" }
    ensures percentage { humanize_percentage (Finite (pos 123456000)) ≡ codes "12.35%" }
    ensures no_percentage { humanize_percentage (Finite (pos 0)) ≡ codes "0%" }
    ensures infinite_percentage { humanize_percentage NegInf ≡ codes "-Inf" }
    ensures no_duration { humanize_duration (Finite (pos 0)) ≡ codes "0s" }
    ensures milliseconds { humanize_duration (Finite (pos 12345600)) ≡ codes "12.35ms" }
    ensures seconds { humanize_duration (Finite (pos 59999000000)) ≡ codes "60s" }
    ensures minutes { humanize_duration (Finite (pos 60000000000)) ≡ codes "1m 0s" }
    ensures days { humanize_duration (Finite (neg_ℤ (pos 93784900000000))) ≡ codes "-1d 2h 3m 4s" }
{}
