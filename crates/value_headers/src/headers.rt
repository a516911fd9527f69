// Header lists: "contains", "get", "append", "set" and "delete" (Fetch, section 2.2.2).
ghost use Rattle.std.specs.Prelude.{ℕ, List, [], length, take, vec_len, vec_capacity, IsTrue};
ghost use Rattle.std.specs.Prelude.{◌≤◌, ◌≡◌, ◌≢◌, ◌↔◌, ◌<◌, ◌++◌};
ghost use Rattle.std.specs.Prelude.{IfOk, OnOk, OnErr, MatchOption, Some, slice_get, option_map, codes, if◌then◌else◌};
ghost use Rattle.std.specs.Prelude.{Bool, filter, not};
ghost use Rattle.value_headers.specs.Headers.{all_appended, appended, combined, contains, has_value, is_named};
ghost use Rattle.value_headers.specs.Headers.{spelling, with_only, without};
ghost use Rattle.value_headers.specs.Private.Joining.{behind_value};
ghost use Rattle.value_headers.specs.Private.Places.{first_of};
ghost use Rattle.value_headers.specs.Spelling.{HaveOneSpelling};
ghost use Rattle.value_headers.specs.declared.headers.Header.{Header};

use crate::field::Field;
use std::alloc::Global;
use std::marker::Model;
use value_bytes::{Bytes, OutOfMemory};
use value_text::eq_fold;

/// A header: a name and a value. Contracts speak of it, and see each `Field` as one.
#[derive(Drop)]
pub struct Header {
    pub name: Bytes,
    pub value: Bytes,
}

/// A header list, seen as the list of its headers (Fetch, section 2.2.2).
#[derive(Drop)]
pub struct HeaderList {
    headers: Vec<Field>,
}

impl Model for HeaderList {
    ghost use Rattle.std.specs.Prelude.{List};
    ghost use Rattle.value_headers.specs.declared.headers.Header.{Header};

    ghost Value = { List Header };

    ghost view = { λ list. list.headers.items };

    ghost use Rattle.value_headers.specs.Spelling.{HaveOneSpelling};

    ghost invariant = { λ list. HaveOneSpelling list.headers.items };
}

/// A test of headers.
pub trait HeaderTest {
    /// The headers that pass.
    ghost passing: { Self → Header → Bool };

    /// Whether a header passes.
    fn passes(&self, header: &Field) -> bool
        ensures { result ≡ passing self.now header.now };
}

// The headers of another name than this one pass.
#[derive(Drop)]
struct Others<'a> {
    name: &'a [u8],
}

impl<'a> HeaderTest for Others<'a> {
    ghost passing = { λ others header. not (is_named others.name.now header) };

    fn passes(&self, header: &Field) -> bool {
        !eq_fold(header.name(), self.name)
    }
}

// The spelling of a name that the headers have already.
fn spelling_in<'a>(headers: &'a [Field], name: &'a [u8]) -> &'a [u8]
    ensures { result.now ≡ spelling name.now headers.now }
{
    for header in headers {
        if eq_fold(header.name(), name) {
            return header.name();
        }
    }
    name
}

// Where the first header of that name is, or the number of headers where there is none.
fn first_named(headers: &[Field], name: &[u8]) -> usize
    ensures { result ≡ first_of name.now headers.now }
{
    for (index, header) in headers.iter().enumerate() {
        if eq_fold(header.name(), name) {
            return index;
        }
    }
    headers.len()
}

// Keeps the headers that pass.
fn keep_in<T: HeaderTest>(headers: &mut Vec<Field>, test: &T)
    ensures items { headers.new.items ≡ filter (T.passing test.now) headers.old.items }
    ensures len { vec_len headers.new ≤ vec_len headers.old }
    ensures capacity { vec_capacity headers.new ≡ vec_capacity headers.old }
{
    headers.retain(|header| test.passes(header));
}

// Puts a header in the place of the first of its name and takes out the others of that name.
fn replace(headers: &mut Vec<Field>, at: usize, name: &[u8], field: Field)
    requires first { at ≡ first_of name.now headers.old.items }
    requires within { at < vec_len headers.old }
    requires spelled { option_map (λ header. header.name) (slice_get headers.old.items at) ≡ Some field.name }
    ensures { headers.new.items ≡ with_only name.now field.value headers.old.items }
{
    let _first = headers.remove(at);
    keep_in(headers, &Others { name });
    let Ok(()) = headers.insert(at, field) else {
        // One header was taken out, so there is room.
        unreachable!();
    };
}

// Gives a name this one value, where its first header is or at the end.
fn set_in(
    alloc: Global,
    headers: &mut Vec<Field>,
    name: &[u8],
    value: &[u8],
) -> Result<(), OutOfMemory>
    ensures ok { OnOk result (headers.new.items ≡ with_only name.now value.now headers.old.items) }
    ensures err { OnErr result (headers.new.items ≡ headers.old.items) }
{
    let at = first_named(headers.as_slice(), name);
    if at < headers.len() {
        let field = Field::of(alloc, headers[at].name(), value)?;
        replace(headers, at, name, field);
        Ok(())
    } else {
        headers.push(Field::of(alloc, name, value)?)?;
        Ok(())
    }
}

// A copy of each header.
fn copy_of(alloc: Global, headers: &[Field]) -> Result<Vec<Field>, OutOfMemory>
    ensures { IfOk result (λ copy. copy.items ≡ headers.now) }
{
    let mut copy = Vec::with_capacity(alloc, headers.len())?;
    for header in headers {
        copy.push(header.copy(alloc)?)?;
    }
    Ok(copy)
}

// A copy of each header that passes.
fn copy_of_some<T: HeaderTest>(
    alloc: Global,
    headers: &[Field],
    test: &T,
) -> Result<Vec<Field>, OutOfMemory>
    ensures { IfOk result (λ copy. copy.items ≡ filter (T.passing test.now) headers.now) }
{
    let mut copy = Vec::new(alloc);
    for header in headers {
        if test.passes(header) {
            copy.push(header.copy(alloc)?)?;
        }
    }
    Ok(copy)
}

// Adds a value, with a comma and a space before it where it is not the first.
pub(crate) fn add_value(text: &mut Vec<u8>, found: bool, value: &[u8]) -> Result<(), OutOfMemory>
    ensures { OnOk result (text.new.items
        ≡ (if found then text.old.items ++ (codes ", " ++ value.now) else text.old.items ++ value.now)) }
{
    if found {
        text.extend_from_slice(b", ")?;
    }
    text.extend_from_slice(value)?;
    Ok(())
}

// All values of a name, joined.
fn combined_in(alloc: Global, headers: &[Field], name: &[u8]) -> Result<Option<Bytes>, OutOfMemory>
    ensures { IfOk result (λ text. text ≡ combined name.now headers.now) }
{
    let mut text = Vec::new(alloc);
    let mut found = false;
    for header in headers {
        if eq_fold(header.name(), name) {
            add_value(&mut text, found, header.value())?;
            found = true;
        }
    }
    if found {
        Ok(Some(Bytes::from_vec(text)))
    } else {
        Ok(None)
    }
}

// What follows the prefix at the text's front.
fn after_prefix<'a>(text: &'a [u8], prefix: &[u8]) -> Option<&'a [u8]>
    ensures { MatchOption result ((rest : List ℕ) → text.now ≢ prefix.now ++ rest)
        (λ rest. text.now ≡ prefix.now ++ rest.now) }
{
    text.strip_prefix(prefix)
}

// What follows a value at the text's front, with a comma and a space before it where it is not the first.
fn after_value<'a>(text: &'a [u8], found: bool, value: &[u8]) -> Option<&'a [u8]>
    ensures { MatchOption result ((rest : List ℕ) → text.now ≢ behind_value found value.now rest)
        (λ rest. text.now ≡ behind_value found value.now rest.now) }
{
    if found {
        after_prefix(after_prefix(text, b", ")?, value)
    } else {
        after_prefix(text, value)
    }
}

// Whether the values of a name, joined, are this text.
fn are_joined(headers: &[Field], name: &[u8], text: &[u8]) -> bool
    ensures { result ≡ has_value name.now text.now headers.now }
{
    let mut rest = text;
    let mut found = false;
    for header in headers {
        if eq_fold(header.name(), name) {
            let Some(after) = after_value(rest, found, header.value()) else {
                return false;
            };
            rest = after;
            found = true;
        }
    }
    found && rest.is_empty()
}

impl HeaderList {
    /// The empty list. It takes no memory.
    pub fn new(alloc: Global) -> HeaderList
        ensures { result ≡ [] }
    {
        HeaderList {
            headers: Vec::new(alloc),
        }
    }

    /// The empty list, with room for so many headers.
    pub fn with_room(alloc: Global, count: usize) -> Result<HeaderList, OutOfMemory>
        ensures { IfOk result (λ list. list ≡ []) }
    {
        Ok(HeaderList {
            headers: Vec::with_capacity(alloc, count)?,
        })
    }

    /// The list of these headers, of which equal names have one spelling.
    pub(crate) fn of_fields(headers: Vec<Field>) -> HeaderList
        requires { HaveOneSpelling headers.items }
        ensures { result ≡ headers.items }
    {
        HeaderList { headers }
    }

    /// The headers, in order.
    pub fn as_slice(&self) -> &[Field]
        ensures { result.now ≡ self.now }
    {
        self.headers.as_slice()
    }

    /// How many headers there are.
    pub fn len(&self) -> usize
        ensures { result ≡ length self.now }
    {
        self.headers.len()
    }

    /// The name of the header at an index below the length, as it is spelled.
    pub fn name_at(&self, index: usize) -> &[u8]
        requires { index < length self.now }
        ensures { option_map (λ header. header.name) (slice_get self.now index) ≡ Some result.now }
    {
        self.headers[index].name()
    }

    /// The value of the header at an index below the length.
    pub fn value_at(&self, index: usize) -> &[u8]
        requires { index < length self.now }
        ensures { option_map (λ header. header.value) (slice_get self.now index) ≡ Some result.now }
    {
        self.headers[index].value()
    }

    /// A law for those who call: equal names have one spelling in each list. The call does nothing.
    pub fn law_one_spelling(&self)
        ensures { HaveOneSpelling self.now }
    {
        let _ = &self.headers;
    }

    /// "contains": whether a header has that name (Fetch, section 2.2.2). It takes no memory.
    pub fn contains(&self, name: &[u8]) -> bool
        ensures { result ≡ contains name.now self.now }
    {
        self.headers
            .iter()
            .any(|header| eq_fold(header.name(), name))
    }

    /// "append": adds a header, its name in the spelling that the list has already
    /// (Fetch, section 2.2.2).
    pub fn append(&mut self, name: &[u8], value: &[u8]) -> Result<(), OutOfMemory>
        ensures ok { OnOk result (self.new ≡ appended name.now value.now self.old) }
        ensures err { OnErr result (self.new ≡ self.old) }
    {
        let alloc = *self.headers.allocator();
        let name = spelling_in(self.headers.as_slice(), name);
        let field = Field::of(alloc, name, value)?;
        self.headers.push(field)?;
        Ok(())
    }

    /// "set": gives the first header of the name this value and takes out the others of that name;
    /// where there is none, adds the header at the end (Fetch, section 2.2.2).
    pub fn set(&mut self, name: &[u8], value: &[u8]) -> Result<(), OutOfMemory>
        ensures ok { OnOk result (self.new ≡ with_only name.now value.now self.old) }
        ensures err { OnErr result (self.new ≡ self.old) }
    {
        let alloc = *self.headers.allocator();
        set_in(alloc, &mut self.headers, name, value)
    }

    /// "delete": takes out the headers of that name (Fetch, section 2.2.2). It takes no memory.
    pub fn delete(&mut self, name: &[u8])
        ensures { self.new ≡ without name.now self.old }
    {
        self.retain(&Others { name });
    }

    /// Keeps the headers that pass a test, in order, and takes out the others. It takes no memory.
    pub fn retain<T: HeaderTest>(&mut self, test: &T)
        ensures { self.new ≡ filter (T.passing test.now) self.old }
    {
        keep_in(&mut self.headers, test);
    }

    // Appends each of these headers, in order. Where memory is refused for one, those before it are appended.
    fn append_each(&mut self, more: &[Field]) -> Result<(), OutOfMemory>
        ensures ok { OnOk result (self.new ≡ all_appended more.now self.old) }
        ensures err { OnErr result (take (length self.old) self.new ≡ self.old) }
    {
        for header in more {
            self.append(header.name(), header.value())?;
        }
        Ok(())
    }

    /// Appends each of these headers, in order, or none of them where memory is refused.
    pub fn append_all(&mut self, more: &[Field]) -> Result<(), OutOfMemory>
        ensures ok { OnOk result (self.new ≡ all_appended more.now self.old) }
        ensures err { OnErr result (self.new ≡ self.old) }
    {
        let before = self.headers.len();
        let appended = self.append_each(more);
        if appended.is_err() {
            self.headers.truncate(before);
        }
        appended
    }

    /// An equal list.
    pub fn copy(&self, alloc: Global) -> Result<HeaderList, OutOfMemory>
        ensures { IfOk result (λ list. list ≡ self.now) }
    {
        let headers = copy_of(alloc, self.headers.as_slice())?;
        Ok(HeaderList { headers })
    }

    /// A copy of the list that has only the headers that pass a test, in order.
    pub fn copy_where<T: HeaderTest>(
        &self,
        alloc: Global,
        test: &T,
    ) -> Result<HeaderList, OutOfMemory>
        ensures { IfOk result (λ list. list ≡ filter (T.passing test.now) self.now) }
    {
        let headers = copy_of_some(alloc, self.headers.as_slice(), test)?;
        Ok(HeaderList { headers })
    }

    /// "get": all values of that name joined by a comma and a space, or nothing where the list
    /// does not contain it (Fetch, section 2.2.2).
    pub fn get(&self, alloc: Global, name: &[u8]) -> Result<Option<Bytes>, OutOfMemory>
        ensures { IfOk result (λ text. text ≡ combined name.now self.now) }
    {
        combined_in(alloc, self.headers.as_slice(), name)
    }

    /// Whether "get" gives this text for that name: the values joined by a comma and a space are the
    /// text (Fetch, section 2.2.2). They are not joined, and it takes no memory.
    pub fn has_value(&self, name: &[u8], text: &[u8]) -> bool
        ensures value { result ≡ has_value name.now text.now self.now }
        ensures equal { IsTrue result ↔ (combined name.now self.now ≡ Some text.now) }
    {
        are_joined(self.headers.as_slice(), name, text)
    }
}
