// What preflights teach, and the questions about it, that the other measures ask with.
ghost use Rattle.std.specs.Prelude.{◌≡◌, IfOk};

use book_preflights::{Lesson, Names, Question};
use rows_shell::Failed;
use std::alloc::Global;
use value_bytes::{Bytes, BytesList};

/// What a preflight of http://a.test teaches of http://b.test/ under this key.
pub(crate) fn lesson(
    alloc: Global,
    key: Bytes,
    age: u64,
    methods: BytesList,
    names: BytesList,
) -> Result<Lesson, Failed>
    ensures { IfOk result (λ lesson. lesson.age ≡ age) }
{
    let origin = Bytes::of(alloc, b"http://a.test")?;
    let url = Bytes::of(alloc, b"http://b.test/")?;
    Ok(Lesson {
        key,
        origin,
        url,
        include: false,
        age,
        methods: Names::of(alloc, methods.as_slice())?,
        names: Names::of(alloc, names.as_slice())?,
    })
}

/// The question whether a request with this method and the lesson's names is covered.
pub(crate) fn question(lesson: Lesson, method: Option<Bytes>) -> Question {
    Question {
        key: lesson.key,
        origin: lesson.origin,
        url: lesson.url,
        include: false,
        method,
        names: lesson.names,
    }
}
