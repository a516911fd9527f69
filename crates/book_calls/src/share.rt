// What a shared book promises to each document that calls it.
ghost use Rattle.std.specs.Prelude.{◌≡◌, ◌-◌, ◌<◌, OnErr, IfOk};
ghost use Rattle.book_calls.specs.Accounts.{Account};
ghost use Rattle.book_calls.specs.Entries.{Extends, StartsWith, entries_of};
ghost use Rattle.book_calls.specs.Ops.{InRange, is_answer, is_question};

use crate::op::{Op, Reply};
use std::alloc::Global;
use value_bytes::{OutOfMemory, Shared};

/// A book that is shared by passes. Each document has one pass, and does its operations through it.
pub trait Share {
    type Pass;

    // The pass is one of this share's.
    ghost belongs: { Self → Self.Pass → Type 0 };

    // What a pass keeps account of.
    ghost account: { Self.Pass → Account };

    /// Does an operation that is in range. The pass's own entries grow by exactly this one; what it has
    /// seen of the history is legal, begins with what it had seen and ends with that entry. A refused
    /// call leaves its own entries as they were. In each case what it has seen has no other entry of
    /// its document than its own.
    fn call(
        &self,
        alloc: Global,
        pass: &mut Self::Pass,
        op: Shared<Op>,
    ) -> Result<Reply, OutOfMemory>
        requires belongs { belongs self.now pass.old }
        requires left { 0 < (account pass.old).left }
        requires range { InRange op }
        ensures belongs { belongs self.now pass.new }
        ensures same { ((account pass.new).document ≡ (account pass.old).document)
            × ((account pass.new).opening ≡ (account pass.old).opening) }
        ensures left { (account pass.new).left ≡ (account pass.old).left - 1 }
        ensures ok { IfOk result (λ answer. Extends (account pass.old).opening (account pass.old).document op answer
            (account pass.old).own (account pass.new).own (account pass.old).seen (account pass.new).seen) }
        ensures kind { IfOk result (λ answer. is_answer answer ≡ is_question op) }
        ensures err { OnErr result (((account pass.new).own ≡ (account pass.old).own)
            × StartsWith (account pass.new).seen (account pass.old).seen) }
        ensures whole { entries_of (account pass.new).document (account pass.new).seen ≡ (account pass.new).own };
}
