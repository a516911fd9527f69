// The book: the known HSTS hosts and the CORS-preflight cache, and what each operation does to them.
ghost use Rattle.std.specs.Prelude.{◌≡◌, IfOk, OnOk, OnErr};
ghost use Rattle.book_calls.specs.Book.{after, book_of, empty, reply, yes_or_no};
ghost use Rattle.book_calls.specs.Ops.{InRange};

use crate::op::{Op, Reply};
use book_hosts::HstsList;
use book_preflights::Precache;
use std::alloc::Global;
use value_bytes::OutOfMemory;

/// The known HSTS hosts and the CORS-preflight cache.
#[derive(Drop)]
pub struct Book {
    hosts: HstsList,
    cache: Precache,
}

// The reply to a question.
fn answer(yes: bool) -> Reply
    ensures { result ≡ yes_or_no yes }
{
    if yes { Reply::Yes } else { Reply::No }
}

impl Book {
    /// The empty book. It takes no memory.
    pub fn new(alloc: Global) -> Book
        ensures { result ≡ empty }
    {
        Book {
            hosts: HstsList::new(alloc),
            cache: Precache::new(alloc),
        }
    }

    /// The book of these known hosts and this cache.
    pub fn of(hosts: HstsList, cache: Precache) -> Book
        ensures { result ≡ book_of hosts cache }
    {
        Book { hosts, cache }
    }

    /// The known hosts.
    pub fn hosts(&self) -> &HstsList
        ensures { result.now ≡ self.now.hosts }
    {
        &self.hosts
    }

    /// The CORS-preflight cache.
    pub fn cache(&self) -> &Precache
        ensures { result.now ≡ self.now.cache }
    {
        &self.cache
    }

    /// Does an operation that is in range. A refused one leaves the book as it was.
    pub fn apply(&mut self, alloc: Global, op: &Op) -> Result<Reply, OutOfMemory>
        requires { InRange op.now }
        ensures reply { IfOk result (λ answer. answer ≡ reply self.old op.now) }
        ensures ok { OnOk result (self.new ≡ after self.old op.now) }
        ensures err { OnErr result (self.new ≡ self.old) }
    {
        match op {
            Op::Match(host, now) => Ok(answer(self.hosts.is_known(host.as_slice(), *now))),
            Op::Note(host, sts, now) => {
                self.hosts.note(host.copy(alloc)?, *sts, *now)?;
                Ok(Reply::Done)
            }
            Op::Covers(question, now) => Ok(answer(self.cache.covers(question, *now))),
            Op::Learn(lesson, now) => {
                self.cache.learn(lesson, *now)?;
                Ok(Reply::Done)
            }
            Op::Clear(key, origin, url, _) => {
                self.cache
                    .clear(key.as_slice(), origin.as_slice(), url.as_slice());
                Ok(Reply::Done)
            }
        }
    }
}
