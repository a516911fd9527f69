// Who plays a document.
ghost use Rattle.std.specs.Prelude.{◌<◌, ◌^◌, ◌≡◌, ◌≢◌, ◌≤◌, Some, length, slice_get};
ghost use Rattle.play_definitions.specs.Playing.{RunCameTo};
ghost use Rattle.play_definitions.specs.Words.{Document, IsAtEnd, IsValid, Memory, document_client, document_run};
ghost use Rattle.play_definitions.specs.Words.{over_link};
ghost use Rattle.play_definitions.specs.Worlds.{KeepsPass, most_calls, outside};

use book_calls::Share;
use link_traits::Link;
use script_events::Transcript;
use script_scenarios::Scenario;
use std::alloc::Global;

/// What plays a document. Whole scenarios are played with any.
pub trait Driver {
    /// Plays a document's script over a link and a share of the book, from a time in seconds on, which is at most
    /// 2^40. The document is that of the scenario with this number. It makes 129,024 calls of the book at most, which
    /// the pass has left.
    ///
    /// What the transcript shows is the document's run over a tape of what the world answers. At another ending than
    /// `Memory` nothing is to come over the link, where it tells it. At `Memory` what was shown begins such a run, the
    /// calls made are those on the way, an answer may be read in part, and key and clock may be any.
    fn drive<S: Share, L: Link>(
        &self,
        alloc: Global,
        scenario: &Scenario,
        document: u32,
        base: u64,
        share: &S,
        pass: &mut S::Pass,
        link: &mut L,
    ) -> Transcript
        requires scenario { IsValid scenario.now × (document < length scenario.now.documents) }
        requires base { base ≤ 2 ^ 40 }
        requires pass { S.belongs share.now pass.old × (most_calls ≤ (S.account pass.old).left) }
        ensures came { (one : Document) → slice_get scenario.entry.now.documents document ≡ Some one
            → RunCameTo (over_link L.serves) scenario.entry.now.body_limit (S.account pass.old).document
            (document_run scenario.entry.now.cookies base one) (outside S.account L.told pass.old link.old)
            result.events result.ending result.clock (outside S.account L.told pass.new link.new) }
        ensures hung_up { result.ending ≢ Memory → IsAtEnd (L.told link.new).left }
        ensures number { result.document ≡ document }
        ensures key { (one : Document) → slice_get scenario.entry.now.documents document ≡ Some one
            → result.ending ≢ Memory → result.key ≡ (document_client one).key }
        ensures pass { KeepsPass S.account (S.belongs share.now) most_calls pass.old pass.new };
}
