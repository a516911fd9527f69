// Clocks in seconds: the trait, and one that always gives the same answer.
ghost use Rattle.std.specs.Prelude.{◌≡◌, ℕ, Option, Some};

/// A clock in seconds. It may tell its next answer.
pub trait Clock {
    /// Its next answer, where told.
    ghost next: { Self → Option ℕ };

    /// The time, in seconds.
    fn now(&mut self) -> u64
        ensures told { (time : ℕ) → next self.old ≡ Some time → result ≡ time };
}

/// A clock that always gives the same answer, and tells it.
#[derive(Drop)]
pub struct FixedClock {
    now: u64,
}

impl FixedClock {
    /// A clock that always answers this number of seconds.
    pub fn new(now: u64) -> FixedClock
        ensures { result ≡ record { now = now } }
    {
        FixedClock { now }
    }
}

impl Clock for FixedClock {
    ghost next = { λ clock. Some clock.now };

    /// The number of seconds that it was made with.
    fn now(&mut self) -> u64
        ensures told { (time : ℕ) → Some self.old.now ≡ Some time → result ≡ time }
        ensures answer { result ≡ self.old.now }
        ensures after { self.new ≡ self.old }
    {
        self.now
    }
}
