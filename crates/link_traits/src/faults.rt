// How often a device failed.
ghost use Rattle.std.specs.Prelude.{◌≡◌, ◌≤◌};
ghost use Rattle.link_traits.specs.Counts.{one_more};

use crate::source::Failed;
use std::marker::Model;

/// How often a device failed: a count that stops at its greatest value.
#[derive(Clone, Copy)]
pub struct Faults {
    count: u64,
}

impl Model for Faults {
    ghost use Rattle.std.specs.Prelude.{ℕ};

    ghost Value = { ℕ };

    ghost view = { λ faults. faults.count };

    ghost inverse = { λ count. record { count = count } };
}

impl Faults {
    /// None yet.
    pub fn none() -> Faults
        ensures { result ≡ 0 }
    {
        Faults { count: 0 }
    }

    /// How many there were.
    pub fn count(&self) -> u64
        ensures { result ≡ self.now }
    {
        self.count
    }

    /// One more, which the device answers with.
    pub fn fail(&mut self) -> Failed
        ensures counted { self.new ≡ one_more self.old }
        ensures later { self.old ≤ self.new }
    {
        self.count = self.count.saturating_add(1);
        Failed
    }
}
