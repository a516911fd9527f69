// A sink that compares.
ghost use Rattle.std.specs.Prelude.{◌≡◌, [], take, Some, IfOk, OnErr};
ghost use Rattle.std.specs.Io.{WritesAtMost};
ghost use Rattle.link_traits.specs.Counts.{HasCause};
ghost use Rattle.link_traits.specs.Sinks.{CountsZero, Took};
ghost use Rattle.link_traits.specs.Sources.{no_source};
ghost use Rattle.audit_replay.specs.Private.Comparing as spec;

use link_traits::{Failed, Sink};
use std::marker::Model;

/// A sink that compares what it takes with a text. It takes bytes up to the first that the text does not have there,
/// and that one; then it fails. It keeps no byte that it takes but that one.
#[derive(Drop)]
pub(crate) struct Comparing<'a> {
    expected: &'a [u8],
    at: usize,
    found: Option<u8>,
    faults: u64,
}

impl<'a> Model for Comparing<'a> {
    ghost use Rattle.audit_replay.specs.Private.Comparing.{Compared, IsComparing};

    ghost Value = { Compared };

    ghost view = { λ sink. record {
      expected = sink.expected.now;
      at = sink.at;
      found = sink.found;
      faults = sink.faults;
    } };

    ghost invariant = { λ sink. IsComparing sink.expected.now sink.at sink.found sink.faults };
}

// How many bytes two texts have in common at their front.
fn same_front(piece: &[u8], rest: &[u8]) -> usize
    ensures { spec.AreSameFront piece.now rest.now result }
{
    let mut count = 0;
    while count < piece.len() && count < rest.len() {
        if piece[count] != rest[count] {
            return count;
        }
        count += 1;
    }
    count
}

impl<'a> Comparing<'a> {
    // Nothing was taken.
    pub(crate) fn with(expected: &'a [u8]) -> Comparing<'a>
        ensures { result ≡ record { expected = expected.now; at = 0; found = None; faults = 0 } }
    {
        Comparing {
            expected,
            at: 0,
            found: None,
            faults: 0,
        }
    }

    // Where the other byte is that was taken, or where what was taken ends before the text does.
    pub(crate) fn difference(&self) -> Option<u64>
        ensures is { spec.IsComparing self.now.expected self.now.at self.now.found self.now.faults }
        ensures at { result ≡ spec.difference_of self.now }
    {
        if self.found.is_none() && self.at == self.expected.len() {
            None
        } else {
            Some(self.at as u64)
        }
    }
}

impl<'a> Sink for Comparing<'a> {
    ghost takes = { λ sink. record { taken = Some (spec.told_of sink); faults = sink.faults; zeros = 0 } };

    ghost beside = { λ _. no_source };

    /// Takes a first part of the piece: what is equal, and the first byte that is not. It fails where such a byte was
    /// taken.
    fn write(&mut self, piece: &[u8]) -> Result<usize, Failed>
        ensures count { WritesAtMost result piece.now }
        ensures took { IfOk result (λ n. Took (Some (spec.told_of self.old)) (Some (spec.told_of self.new))
            (take n piece.now)) }
        ensures failed { OnErr result (Took (Some (spec.told_of self.old)) (Some (spec.told_of self.new)) []) }
        ensures cause { HasCause self.old.faults self.new.faults result }
        ensures zero { CountsZero 0 0 result piece.now }
    {
        if self.found.is_some() {
            self.faults = self.faults.saturating_add(1);
            return Err(Failed);
        }
        let same = same_front(piece, self.expected.split_at(self.at).1);
        self.at += same;
        if same == piece.len() {
            return Ok(same);
        }
        self.found = Some(piece[same]);
        Ok(same + 1)
    }
}
