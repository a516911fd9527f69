// What makes each document's link and takes it back: the trait.
ghost use Rattle.std.specs.Prelude.{◌≡◌, ◌+◌, ℕ, List, Option, IfOk, OnErr, option_map};
ghost use Rattle.link_traits.specs.Counts.{grown_by};
ghost use Rattle.link_traits.specs.Links.{IsForetold, Lendings, TookBack, one_out};
ghost use Rattle.link_traits.specs.declared.routes.Route.{Route};

use crate::Link;
use crate::routes::Routes;
use std::alloc::Global;
use value_bytes::OutOfMemory;

/// What makes the link of each document, and takes it back at the end. It counts the faults of the
/// links that it took back, and may tell the links that it makes and those that it took back, and
/// so their states and counts.
pub trait Links {
    type Link: Link + Send + Drop;

    /// The link that a make gives, where told: that of the next make at 0, of the one after it at 1, and so
    /// on, by the number of the document and the routes that it is made for.
    ghost opening: { Self → ℕ → ℕ → List Route → Option Self.Link };

    /// The links taken back, each as it came back, in order, and how many more are out, where told.
    ghost lent: { Self → Option (Lendings Self.Link) };

    /// How often the links that it took back had failed.
    ghost faults: { Self → ℕ };

    /// The link for a document, to servers by these routes.
    fn make(
        &mut self,
        alloc: Global,
        document: u32,
        routes: &Routes,
    ) -> Result<Self::Link, OutOfMemory>
        ensures told { IfOk result (λ link. IsForetold (opening self.old 0 document routes.now) link) }
        ensures later { IfOk result (λ _. (k number : ℕ) (by : List Route)
            → opening self.new k number by ≡ opening self.old (k + 1) number by) }
        ensures refused { OnErr result ((k number : ℕ) (by : List Route)
            → opening self.new k number by ≡ opening self.old k number by) }
        ensures lent { IfOk result (λ _. lent self.new ≡ option_map one_out (lent self.old)) }
        ensures kept { OnErr result (lent self.new ≡ lent self.old) }
        ensures faults { faults self.new ≡ faults self.old };

    /// Takes a link back that it made, and counts its faults.
    fn take_back(&mut self, link: Self::Link)
        ensures took { TookBack (lent self.old) (lent self.new) link }
        ensures opening { (k number : ℕ) (by : List Route)
            → opening self.new k number by ≡ opening self.old k number by }
        ensures faults { faults self.new ≡ grown_by (faults self.old) (Self.Link.told link).faults };
}
