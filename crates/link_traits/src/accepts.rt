// What listens at an address, and gives the end of each connection that comes: the trait.
ghost use Rattle.std.specs.Prelude.{◌≡◌, ℕ, List, Option, IfOk, OnOk, OnErr, option_map};
ghost use Rattle.value_text.specs.Texts.{Text};
ghost use Rattle.link_traits.specs.Accepts.{GaveFirst, Opened};
ghost use Rattle.link_traits.specs.Counts.{HasCause};
ghost use Rattle.link_traits.specs.Links.{Lendings, TookBack, one_out};

use crate::peer::Peer;
use crate::source::Failed;

/// What listens at an address, gives the end of each connection that is made to it, and takes it back when
/// it was served. It counts its faults, and may tell the address, the ends that it gives and those that
/// it took back, and so what was read from each, what it was given and its counts.
pub trait Accepts {
    type End: Peer;

    /// The address that is open, if one is, where told.
    ghost opened: { Self → Option (Option Text) };

    /// The ends still to come, in order, where told.
    ghost coming: { Self → Option (List Self.End) };

    /// The ends taken back, each as it came back, in order, and how many more are out, where told.
    ghost lent: { Self → Option (Lendings Self.End) };

    /// How often it failed.
    ghost faults: { Self → ℕ };

    /// Listens at an address, and at no other from then on. The count of faults rises by one where it
    /// fails, and only there; what was open then stays so.
    fn listen(&mut self, address: &[u8]) -> Result<(), Failed>
        ensures opened { OnOk result (Opened (opened self.old) (opened self.new) address.now) }
        ensures failed { OnErr result (opened self.new ≡ opened self.old) }
        ensures coming { coming self.new ≡ coming self.old }
        ensures lent { lent self.new ≡ lent self.old }
        ensures cause { HasCause (faults self.old) (faults self.new) result };

    /// The end of the next connection. The count of faults rises by one where it fails, and only there.
    fn next(&mut self) -> Result<Self::End, Failed>
        ensures gave { IfOk result (λ given. GaveFirst (coming self.old) (coming self.new) given) }
        ensures lent { IfOk result (λ _. lent self.new ≡ option_map one_out (lent self.old)) }
        ensures failed { OnErr result (coming self.new ≡ coming self.old) }
        ensures kept { OnErr result (lent self.new ≡ lent self.old) }
        ensures opened { opened self.new ≡ opened self.old }
        ensures cause { HasCause (faults self.old) (faults self.new) result };

    /// Takes an end back that it gave.
    fn take_back(&mut self, end: Self::End)
        ensures took { TookBack (lent self.old) (lent self.new) end }
        ensures opened { opened self.new ≡ opened self.old }
        ensures coming { coming self.new ≡ coming self.old }
        ensures faults { faults self.new ≡ faults self.old };
}
