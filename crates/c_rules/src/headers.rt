// Header lists of given names and values.
ghost use Rattle.std.specs.Prelude.{◌≡◌, ◌≢◌, IfErr, OnErr, OnOk, Ok, Err};
ghost use Rattle.c_rules.specs.Answers.{IsUnlessMemory};
ghost use Rattle.c_rules.specs.Headers as spec;

use crate::refusal::Refusal;
use std::alloc::Global;
use value_bytes::Bytes;
use value_headers::HeaderList;
use value_text::{is_token, is_value};

/// "append": adds a header, its name in the spelling that the list has already (Fetch, section 2.2.2). `NotHeader`
/// where the name is no token or the value no header value. A refused one leaves the list as it was.
pub fn append_header(list: &mut HeaderList, name: &[u8], value: &[u8]) -> Result<(), Refusal>
    ensures ok { OnOk result (spec.appending name.now value.now list.old ≡ Ok list.new) }
    ensures refused { IfErr result (λ refusal. refusal ≢ Refusal.OutOfMemory
        → spec.appending name.now value.now list.old ≡ Err refusal) }
    ensures kept { OnErr result (list.new ≡ list.old) }
{
    if !is_token(name) || !is_value(value) {
        return Err(Refusal::NotHeader);
    }
    list.append(name, value)?;
    Ok(())
}

/// "get": all values of a name joined by a comma and a space, or nothing where the list does not contain it (Fetch,
/// section 2.2.2).
pub fn value_of(alloc: Global, list: &HeaderList, name: &[u8]) -> Result<Option<Bytes>, Refusal>
    ensures { IsUnlessMemory result (spec.value_of name.now list.now) }
{
    Ok(list.get(alloc, name)?)
}
