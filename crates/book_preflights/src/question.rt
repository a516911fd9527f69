// What a request asks of the preflight cache, and what a CORS-preflight fetch teaches it.
ghost use Rattle.std.specs.Prelude.{◌≡◌, IfOk};

use crate::names::Names;
use std::alloc::Global;
use value_bytes::{Bytes, OutOfMemory, copy_of};

/// What a request would need of the cache: an entry for its method, where one is named, and for each
/// of the header names (Fetch, "HTTP fetch", the check before a CORS-preflight fetch).
#[derive(Drop)]
pub struct Question {
    /// The network partition key.
    pub key: Bytes,
    /// The serialised origin of the request.
    pub origin: Bytes,
    pub url: Bytes,
    /// Whether the request's credentials mode is include.
    pub include: bool,
    pub method: Option<Bytes>,
    pub names: Names,
}

/// What a CORS-preflight fetch taught: the methods and header names that a server allows.
#[derive(Drop)]
pub struct Lesson {
    /// The network partition key.
    pub key: Bytes,
    /// The serialised origin of the request.
    pub origin: Bytes,
    pub url: Bytes,
    /// Whether the request's credentials mode is include.
    pub include: bool,
    /// The max-age, in seconds.
    pub age: u64,
    pub methods: Names,
    pub names: Names,
}

impl Question {
    /// An equal question.
    pub fn copy(&self, alloc: Global) -> Result<Question, OutOfMemory>
        ensures { IfOk result (λ copy. copy ≡ self.now) }
    {
        let key = self.key.copy(alloc)?;
        let origin = self.origin.copy(alloc)?;
        let url = self.url.copy(alloc)?;
        let method = copy_of(alloc, &self.method)?;
        let names = self.names.copy(alloc)?;
        Ok(Question {
            key,
            origin,
            url,
            include: self.include,
            method,
            names,
        })
    }
}

impl Lesson {
    /// An equal lesson.
    pub fn copy(&self, alloc: Global) -> Result<Lesson, OutOfMemory>
        ensures { IfOk result (λ copy. copy ≡ self.now) }
    {
        let key = self.key.copy(alloc)?;
        let origin = self.origin.copy(alloc)?;
        let url = self.url.copy(alloc)?;
        let methods = self.methods.copy(alloc)?;
        let names = self.names.copy(alloc)?;
        Ok(Lesson {
            key,
            origin,
            url,
            include: self.include,
            age: self.age,
            methods,
            names,
        })
    }
}
