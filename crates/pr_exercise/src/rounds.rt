ghost use Rattle.std.specs.Prelude.{◌≡◌, ◌≤◌};

use std::marker::Model;

/// How many rounds an exercise has: at most 100,000. Contracts see the number. (Own choice.)
#[derive(Clone, Copy)]
pub struct Rounds {
    count: u32,
}

impl Model for Rounds {
    ghost use Rattle.std.specs.Prelude.{ℕ, ◌≤◌};

    ghost Value = { ℕ };

    ghost view = { λ r. r.count };

    ghost invariant = { λ r. r.count ≤ 100000 };

    ghost inverse = { λ n. record { count = n } };
}

impl Rounds {
    /// So many rounds.
    pub fn new(count: u64) -> Rounds
        requires { count ≤ 100000 }
        ensures { result ≡ count }
    {
        Rounds {
            count: count as u32,
        }
    }

    /// Their number.
    pub fn get(self) -> u32
        ensures value { result ≡ self }
        ensures few { self ≤ 100000 }
    {
        self.count
    }
}
