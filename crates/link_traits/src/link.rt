// A way to servers, by which requests go out and answers come in: the trait.
ghost use Rattle.std.specs.Prelude.{◌≡◌, ◌⊎◌, ◌<◌, take, length, Ok, IfOk, OnOk, OnErr, option_map};
ghost use Rattle.std.specs.Io.{ReadsAtMost};
ghost use Rattle.link_traits.specs.Counts.{HasCause};
ghost use Rattle.link_traits.specs.Links.{Asked, Awaits, MayHaveAsked, Received, Serves, LinkTold};
ghost use Rattle.link_traits.specs.Sources.{Gave, IsAtEnd};

use crate::source::Failed;
use crate::target::Target;

/// A way to servers: a request goes out, and the bytes of its answer come in. It counts its faults.
/// It may tell its state, which fixes the answer to each request and the state after that request.
pub trait Link {
    /// What its answers depend on.
    ghost State: { Type 0 };

    /// In a state, what it answers and the state after that.
    ghost serves: { Serves State };

    /// What it tells of itself.
    ghost told: { Self → LinkTold State };

    /// Sends a request to its target. The bytes to come are then its answer. The state goes on also
    /// where it failed. The count of faults rises by one where it fails, and only there.
    fn ask(&mut self, target: &Target, request: &[u8]) -> Result<(), Failed>
        ensures state { (told self.new).state
            ≡ option_map (λ s. serves.next s target.now.origin request.now) (told self.old).state }
        ensures answered { OnOk result ((told self.new).left
            ≡ option_map (λ s. serves.answer s target.now.origin request.now) (told self.old).state) }
        ensures asked { OnOk result (Asked (told self.old).asks (told self.new).asks
            (record { origin = target.now.origin; request = request.now })) }
        ensures failed { OnErr result (MayHaveAsked (told self.old).asks (told self.new).asks
            (record { origin = target.now.origin; request = request.now })) }
        ensures awaits { OnOk result (Awaits (told self.old).received (told self.new).received) }
        ensures may_await { OnErr result (Awaits (told self.old).received (told self.new).received
            ⊎ ((told self.new).received ≡ (told self.old).received)) }
        ensures cause { HasCause (told self.old).faults (told self.new).faults result };

    /// Puts the next bytes of the answer at the front of the buffer, and answers how many, which are
    /// counted as received. 0 for a buffer that is not empty is the end of the answer. The count of faults
    /// rises by one where it fails, and only there.
    fn recv(&mut self, buf: &mut [u8]) -> Result<usize, Failed>
        ensures count { ReadsAtMost result buf.new }
        ensures gave { IfOk result (λ n. Gave (told self.old).left (told self.new).left (take n buf.new)) }
        ensures end { result ≡ Ok 0 → 0 < length buf.new → IsAtEnd (told self.new).left }
        ensures failed { OnErr result ((told self.new).left ≡ (told self.old).left) }
        ensures state { (told self.new).state ≡ (told self.old).state }
        ensures asks { (told self.new).asks ≡ (told self.old).asks }
        ensures received { IfOk result (λ n. Received n (told self.old).received (told self.new).received) }
        ensures unreceived { OnErr result ((told self.new).received ≡ (told self.old).received) }
        ensures cause { HasCause (told self.old).faults (told self.new).faults result };

    /// Drops the rest of the answer.
    fn hang_up(&mut self)
        ensures end { IsAtEnd (told self.new).left }
        ensures state { (told self.new).state ≡ (told self.old).state }
        ensures asks { (told self.new).asks ≡ (told self.old).asks }
        ensures received { (told self.new).received ≡ (told self.old).received }
        ensures faults { (told self.new).faults ≡ (told self.old).faults };
}
