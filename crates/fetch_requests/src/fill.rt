// The header list that a request is made with: the given headers that its guard lets in, the type of its body, and
// Accept.
ghost use Rattle.std.specs.Prelude.{◌≡◌, IfOk, OnOk};
ghost use Rattle.fetch_requests.specs.Loading as loading;
ghost use Rattle.fetch_requests.specs.Making as spec;

use policy_safelist::{Guard, guarded_append};
use std::alloc::Global;
use value_bytes::{Bytes, OutOfMemory};
use value_headers::HeaderList;
use value_requests::{Destination, Init, Mode, Pair};

// The guard of the headers of a request in this mode.
fn guard_of(mode: Mode) -> Guard
    ensures { result ≡ spec.guard_of mode }
{
    match mode {
        Mode::NoCors => Guard::NoCors,
        Mode::SameOrigin | Mode::Cors | Mode::Navigate => Guard::Request,
    }
}

// "fill": appends each pair under the guard.
fn fill(
    alloc: Global,
    headers: &mut HeaderList,
    guard: Guard,
    pairs: &[Pair],
) -> Result<(), OutOfMemory>
    ensures { OnOk result (headers.new ≡ spec.filled guard pairs.now headers.old) }
{
    for pair in pairs {
        guarded_append(
            alloc,
            headers,
            guard,
            pair.name.as_slice(),
            pair.value.as_slice(),
        )?;
    }
    Ok(())
}

// Appends a header, unless the list has one of its name.
fn append_unless_there(
    headers: &mut HeaderList,
    name: &[u8],
    value: &[u8],
) -> Result<(), OutOfMemory>
    ensures { OnOk result (headers.new ≡ spec.unless_there name.now value.now headers.old) }
{
    if headers.contains(name) {
        Ok(())
    } else {
        headers.append(name, value)
    }
}

// Appends the type of a body that is a text, where no other is given.
fn append_body_type(headers: &mut HeaderList, body: &Option<Bytes>) -> Result<(), OutOfMemory>
    ensures { OnOk result (headers.new ≡ spec.with_body_type body.now headers.old) }
{
    match body {
        None => Ok(()),
        Some(_) => append_unless_there(headers, b"Content-Type", b"text/plain;charset=UTF-8"),
    }
}

// The value of Accept by what a request is for.
fn accept_value(destination: Destination) -> &'static [u8]
    ensures { result.now ≡ spec.accept_value destination }
{
    match destination {
        Destination::Image => b"image/png,image/svg+xml,image/*;q=0.8,*/*;q=0.5",
        Destination::Style => b"text/css,*/*;q=0.1",
        _ => b"*/*",
    }
}

// The header list of a request: the given headers, then the type of its body, then Accept.
pub(crate) fn header_list(alloc: Global, init: &Init) -> Result<HeaderList, OutOfMemory>
    ensures { IfOk result (λ headers. headers ≡ spec.header_list init.now) }
{
    let mut headers = HeaderList::new(alloc);
    fill(
        alloc,
        &mut headers,
        guard_of(init.mode),
        init.headers.as_slice(),
    )?;
    append_body_type(&mut headers, &init.body)?;
    append_unless_there(&mut headers, b"Accept", accept_value(Destination::Fetch))?;
    Ok(headers)
}

// The header list of a load: Accept alone.
pub(crate) fn load_headers(alloc: Global, kind: Destination) -> Result<HeaderList, OutOfMemory>
    ensures { IfOk result (λ headers. headers ≡ loading.load_headers kind) }
{
    let mut headers = HeaderList::new(alloc);
    append_unless_there(&mut headers, b"Accept", accept_value(kind))?;
    Ok(headers)
}
