// One document, played.
ghost use Rattle.std.specs.Prelude.{◌^◌, ◌≡◌, ◌≢◌, ◌≤◌, IfOk, OnErr};
ghost use Rattle.play_definitions.specs.Playing.{RunCameTo};
ghost use Rattle.play_documents.specs.Private.Parts as spec;
ghost use Rattle.play_definitions.specs.Standings.{lent_setting};
ghost use Rattle.play_documents.specs.Words.{AreValid, IsAtEnd, IsClient, IsIdle};
ghost use Rattle.play_documents.specs.Words.{IsValidDocument, Memory, beginning, document_client, document_run};
ghost use Rattle.play_documents.specs.Words.{exchange_of, finished, over_link, script_run};
ghost use Rattle.play_definitions.specs.Worlds.{KeepsPass, most_calls, outside};

use crate::commands::script;
use book_calls::Share;
use fetch_wire::Wire;
use link_traits::Link;
use play_definitions::{Driver, Fetcher, Lent, Player};
use policy_csp::Compiled;
use script_events::{Ending, Events, Transcript};
use script_runs::Running;
use script_scenarios::{Document, Scenario};
use std::alloc::Global;
use value_bytes::{Bytes, OutOfMemory};
use value_requests::Client;

// How a run has ended, whose script has played to its end or to a limit, or was refused memory.
fn ended_by(played: Result<Option<Ending>, OutOfMemory>) -> Ending
    ensures { result ≡ spec.ended_by played }
{
    match played {
        Ok(None) => Ending::Finished,
        Ok(Some(ending)) => ending,
        Err(OutOfMemory) => Ending::Memory,
    }
}

// A document's script from the beginning to its ending, over a wire on which nothing is to come.
fn play_script<F: Fetcher, S: Share, L: Link>(
    fetcher: &F,
    lent: &Lent<'_, S>,
    number: u32,
    key: Bytes,
    document: &Document,
    base: u64,
    wire: &mut Wire,
    pass: &mut S::Pass,
    link: &mut L,
) -> Transcript
    requires valid { IsClient lent.now.client.now × AreValid document.now.script }
    requires base { base ≤ 2 ^ 40 }
    requires pass { S.belongs lent.now.share.now pass.old × (most_calls ≤ (S.account pass.old).left) }
    requires idle { IsIdle (exchange_of L.told link.old wire.old) }
    ensures came { RunCameTo (over_link L.serves) lent.now.limit (S.account pass.old).document
        (script_run (lent_setting lent.now) document.now.script finished (beginning base))
        (outside S.account L.told pass.old link.old) result.events result.ending result.clock
        (outside S.account L.told pass.new link.new) }
    ensures rests { result.ending ≢ Memory → IsAtEnd (L.told link.new).left }
    ensures named { (result.document ≡ number) × (result.key ≡ key) }
    ensures pass { KeepsPass S.account (S.belongs lent.now.share.now) most_calls pass.old pass.new }
{
    let mut running = Running::new(*lent.alloc, base);
    let mut player = Player {
        lent,
        pass,
        link,
        wire,
        running: &mut running,
    };
    let ending = ended_by(script(fetcher, &mut player, &document.script));
    let clock = running.now();
    Transcript {
        document: number,
        key,
        events: running.into_events(),
        ending,
        clock,
    }
}

// A document's run, to its ending, where memory was not refused before it began.
fn run_document<F: Fetcher, S: Share, L: Link>(
    fetcher: &F,
    alloc: Global,
    scenario: &Scenario,
    number: u32,
    document: &Document,
    base: u64,
    share: &S,
    pass: &mut S::Pass,
    link: &mut L,
) -> Result<Transcript, OutOfMemory>
    requires valid { IsValidDocument document.now }
    requires base { base ≤ 2 ^ 40 }
    requires pass { S.belongs share.now pass.old × (most_calls ≤ (S.account pass.old).left) }
    ensures came { IfOk result (λ ran. RunCameTo (over_link L.serves) scenario.entry.now.body_limit
        (S.account pass.old).document (document_run scenario.entry.now.cookies base document.now)
        (outside S.account L.told pass.old link.old) ran.events ran.ending ran.clock
        (outside S.account L.told pass.new link.new)) }
    ensures unbegun { OnErr result (outside S.account L.told pass.new link.new
        ≡ outside S.account L.told pass.old link.old) }
    ensures rests { IfOk result (λ ran. ran.ending ≢ Memory → IsAtEnd (L.told link.new).left) }
    ensures named { IfOk result (λ ran. (ran.document ≡ number) × (ran.key ≡ (document_client document.now).key)) }
    ensures pass { KeepsPass S.account (S.belongs share.now) most_calls pass.old pass.new }
{
    let client = Client::of(alloc, &document.url, &document.top, document.policy)?;
    let policies = Compiled::of(alloc, &document.policies)?;
    let key = client.key.copy(alloc)?;
    let mut wire = Wire::new(alloc, link)?;
    let lent = Lent {
        alloc: &alloc,
        share,
        client: &client,
        policies: &policies,
        cookies: &scenario.cookies,
        limit: scenario.body_limit,
    };
    Ok(play_script(
        fetcher, &lent, number, key, document, base, &mut wire, pass, link,
    ))
}

/// Plays documents with what plays their fetches.
#[derive(Clone, Copy, Debug)]
pub struct ByFetches<F> {
    pub fetcher: F,
}

impl<F: Fetcher> Driver for ByFetches<F> {
    fn drive<S: Share, L: Link>(
        &self,
        alloc: Global,
        scenario: &Scenario,
        document: u32,
        base: u64,
        share: &S,
        pass: &mut S::Pass,
        link: &mut L,
    ) -> Transcript {
        let fetcher = &self.fetcher;
        let one = scenario.documents.at(document as usize);
        match run_document(
            fetcher, alloc, scenario, document, one, base, share, pass, link,
        ) {
            Ok(transcript) => transcript,
            Err(OutOfMemory) => Transcript {
                document,
                key: Bytes::new(alloc),
                events: Events::new(alloc),
                ending: Ending::Memory,
                clock: base,
            },
        }
    }
}
