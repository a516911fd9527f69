// Headers that are kept for long, packed one behind the other in one text.
ghost use Rattle.std.specs.Prelude.{◌≡◌, ◌<◌, ◌≤◌, ◌++◌, ◌∷◌, [], length, map, option_map, slice_get, Some};
ghost use Rattle.std.specs.Prelude.{IfOk, OnOk, OnErr, MatchOption};
ghost use Rattle.std.specs.List.{All};
ghost use Rattle.std.specs.Str.{str_eq_ignore_ascii_case};
ghost use Rattle.value_headers.specs.Headers.{all_appended, appended, combined, is_named, spelling};
ghost use Rattle.value_headers.specs.Private.Packs.{IsWithin, header_at};
ghost use Rattle.value_headers.specs.Spelling.{HaveOneSpelling};

use crate::field::Field;
use crate::headers::{HeaderList, add_value};
use std::alloc::Global;
use std::marker::Model;
use value_bytes::{Bytes, OutOfMemory};
use value_text::eq_fold;

// Whether two names are equal. It stands apart, so that a walk over places stays small: most are told by their length.
#[inline(never)]
fn are_equal(a: &[u8], b: &[u8]) -> bool
    ensures { result ≡ str_eq_ignore_ascii_case a.now b.now }
{
    eq_fold(a, b)
}

/// Where a header is: its name from the start on, and its value from the middle on.
#[derive(Clone, Copy)]
pub(crate) struct Place {
    pub(crate) start: u32,
    pub(crate) middle: u32,
    pub(crate) end: u32,
}

// A header is kept with its place, so the size of one matters.
const _: () = prove!(size_of::<Place>() == 12);

impl Place {
    // The place from a start to an end. Places count 2^32 - 1 bytes at most.
    fn of(start: usize, middle: usize, end: usize) -> Result<Place, OutOfMemory>
        requires { (start ≤ middle) × (middle ≤ end) }
        ensures { IfOk result (λ place. place ≡ record { start = start; middle = middle; end = end }) }
    {
        let Ok(end) = u32::try_from(end) else {
            return Err(OutOfMemory);
        };
        Ok(Place {
            start: start as u32,
            middle: middle as u32,
            end,
        })
    }

    // The name that is there.
    fn name_in<'a>(&self, bytes: &'a [u8]) -> &'a [u8]
        requires { IsWithin (length bytes.now) self.now }
        ensures { result.now ≡ (header_at bytes.now self.now).name }
    {
        &bytes[self.start as usize..self.middle as usize]
    }

    // The value that is there.
    fn value_in<'a>(&self, bytes: &'a [u8]) -> &'a [u8]
        requires { IsWithin (length bytes.now) self.now }
        ensures { result.now ≡ (header_at bytes.now self.now).value }
    {
        &bytes[self.middle as usize..self.end as usize]
    }

    // The header that is there, as a field.
    fn field_in(&self, alloc: Global, bytes: &[u8]) -> Result<Field, OutOfMemory>
        requires { IsWithin (length bytes.now) self.now }
        ensures { IfOk result (λ field. field ≡ header_at bytes.now self.now) }
    {
        let both = &bytes[self.start as usize..self.end as usize];
        Field::of_both(alloc, both, (self.middle - self.start) as usize)
    }

    // Whether the header that is there has that name.
    #[inline(always)]
    #[tactic(auto, using(crate::proofs::PackLemmas::other_length))]
    fn is_named(&self, bytes: &[u8], name: &[u8]) -> bool
        requires { IsWithin (length bytes.now) self.now }
        ensures { result ≡ is_named name.now (header_at bytes.now self.now) }
    {
        if (self.middle - self.start) as usize != name.len() {
            return false;
        }
        are_equal(self.name_in(bytes), name)
    }
}

/// Headers that are kept for long and stay as they are, seen as the list of them. A header takes its bytes and twelve
/// more. No headers of over 2^32 - 1 bytes are packed.
#[derive(Drop)]
pub struct PackedHeaders {
    bytes: Vec<u8>,
    places: Vec<Place>,
}

impl Model for PackedHeaders {
    ghost use Rattle.std.specs.Prelude.{List, length, map};
    ghost use Rattle.std.specs.List.{All};
    ghost use Rattle.value_headers.specs.Private.Packs.{IsWithin, header_at};
    ghost use Rattle.value_headers.specs.declared.headers.Header.{Header};

    ghost Value = { List Header };

    ghost view = { λ packed. map (header_at packed.bytes.items) packed.places.items };

    ghost invariant = { λ packed. All (IsWithin (length packed.bytes.items)) packed.places.items };
}

// Adds a header at the end.
#[tactic(auto, using(crate::proofs::PackLemmas::headers_stay, crate::proofs::PackLemmas::headers_stay_twice))]
fn add(
    bytes: &mut Vec<u8>,
    places: &mut Vec<Place>,
    name: &[u8],
    value: &[u8],
) -> Result<(), OutOfMemory>
    requires { All (IsWithin (length bytes.old.items)) places.old.items }
    ensures within { All (IsWithin (length bytes.new.items)) places.new.items }
    ensures headers { OnOk result (map (header_at bytes.new.items) places.new.items
        ≡ map (header_at bytes.old.items) places.old.items ++ record { name = name.now; value = value.now } ∷ []) }
    ensures err { OnErr result (map (header_at bytes.new.items) places.new.items
        ≡ map (header_at bytes.old.items) places.old.items) }
{
    let start = bytes.len();
    bytes.extend_from_slice(name)?;
    let middle = bytes.len();
    bytes.extend_from_slice(value)?;
    places.push(Place::of(start, middle, bytes.len())?)?;
    Ok(())
}

// Adds the header of a field at the end.
#[tactic(auto, using(crate::proofs::PackLemmas::headers_stay))]
fn add_field(bytes: &mut Vec<u8>, places: &mut Vec<Place>, field: &Field) -> Result<(), OutOfMemory>
    requires { All (IsWithin (length bytes.old.items)) places.old.items }
    ensures within { All (IsWithin (length bytes.new.items)) places.new.items }
    ensures headers { OnOk result (map (header_at bytes.new.items) places.new.items
        ≡ map (header_at bytes.old.items) places.old.items ++ field.now ∷ []) }
    ensures err { OnErr result (map (header_at bytes.new.items) places.new.items
        ≡ map (header_at bytes.old.items) places.old.items) }
{
    let start = bytes.len();
    let (both, named) = field.both();
    bytes.extend_from_slice(both)?;
    places.push(Place::of(start, start + named, bytes.len())?)?;
    Ok(())
}

// Adds a header at the end whose name is spelled as the one at a place is, which is rare.
#[tactic(auto, using(crate::proofs::PackLemmas::headers_stay, crate::proofs::PackLemmas::headers_stay_twice))]
#[inline(never)]
fn add_spelled(
    bytes: &mut Vec<u8>,
    places: &mut Vec<Place>,
    spelled: Place,
    value: &[u8],
) -> Result<(), OutOfMemory>
    requires within { All (IsWithin (length bytes.old.items)) places.old.items }
    requires spelled { IsWithin (length bytes.old.items) spelled }
    ensures within { All (IsWithin (length bytes.new.items)) places.new.items }
    ensures headers { OnOk result (map (header_at bytes.new.items) places.new.items
        ≡ map (header_at bytes.old.items) places.old.items
        ++ record { name = (header_at bytes.old.items spelled).name; value = value.now } ∷ []) }
    ensures err { OnErr result (map (header_at bytes.new.items) places.new.items
        ≡ map (header_at bytes.old.items) places.old.items) }
{
    let start = bytes.len();
    bytes.extend_from_within(spelled.start as usize..spelled.middle as usize)?;
    let middle = bytes.len();
    bytes.extend_from_slice(value)?;
    places.push(Place::of(start, middle, bytes.len())?)?;
    Ok(())
}

// Where the first header of that name is.
#[inline(always)]
fn place_of(bytes: &[u8], places: &[Place], name: &[u8]) -> Option<Place>
    requires { All (IsWithin (length bytes.now)) places.now }
    ensures { MatchOption result (spelling name.now (map (header_at bytes.now) places.now) ≡ name.now)
        (λ place. IsWithin (length bytes.now) place
        × (spelling name.now (map (header_at bytes.now) places.now) ≡ (header_at bytes.now place).name)) }
{
    for place in places {
        if place.is_named(bytes, name) {
            return Some(*place);
        }
    }
    None
}

// The values of the headers of that name, joined.
fn values_in(
    alloc: Global,
    bytes: &[u8],
    places: &[Place],
    name: &[u8],
) -> Result<Option<Bytes>, OutOfMemory>
    requires { All (IsWithin (length bytes.now)) places.now }
    ensures { IfOk result (λ text. text ≡ combined name.now (map (header_at bytes.now) places.now)) }
{
    let mut text = Vec::new(alloc);
    let mut found = false;
    for place in places {
        if place.is_named(bytes, name) {
            add_value(&mut text, found, place.value_in(bytes))?;
            found = true;
        }
    }
    if found {
        Ok(Some(Bytes::from_vec(text)))
    } else {
        Ok(None)
    }
}

// For how many bytes room is made. Should they be more than a number can say, no memory has room for them.
fn room_for(headers: &HeaderList) -> usize {
    let mut room: usize = 0;
    for header in headers.as_slice() {
        let (both, _) = header.both();
        room = room.saturating_add(both.len());
    }
    room
}

impl PackedHeaders {
    /// No headers. It takes no memory.
    pub fn new(alloc: Global) -> PackedHeaders
        ensures { result ≡ [] }
    {
        PackedHeaders {
            bytes: Vec::new(alloc),
            places: Vec::new(alloc),
        }
    }

    /// No headers, with room for so many headers of so many bytes together.
    pub fn with_room(
        alloc: Global,
        count: usize,
        bytes: usize,
    ) -> Result<PackedHeaders, OutOfMemory>
        ensures { IfOk result (λ packed. packed ≡ []) }
    {
        Ok(PackedHeaders {
            bytes: Vec::with_capacity(alloc, bytes)?,
            places: Vec::with_capacity(alloc, count)?,
        })
    }

    /// No headers, with room for those of a list and for so many more of so many bytes together.
    pub fn with_room_beside(
        alloc: Global,
        headers: &HeaderList,
        count: usize,
        bytes: usize,
    ) -> Result<PackedHeaders, OutOfMemory>
        ensures { IfOk result (λ packed. packed ≡ []) }
    {
        let count = headers.len().saturating_add(count);
        let bytes = room_for(headers).saturating_add(bytes);
        PackedHeaders::with_room(alloc, count, bytes)
    }

    /// Copies of the headers of a list, with no more room than they need.
    pub fn of(alloc: Global, headers: &HeaderList) -> Result<PackedHeaders, OutOfMemory>
        ensures { IfOk result (λ packed. packed ≡ headers.now) }
    {
        let mut bytes = Vec::with_capacity(alloc, room_for(headers))?;
        let mut places = Vec::with_capacity(alloc, headers.len())?;
        for header in headers.as_slice() {
            add_field(&mut bytes, &mut places, header)?;
        }
        Ok(PackedHeaders { bytes, places })
    }

    /// A list of the headers, of which equal names have one spelling.
    pub fn unpacked(&self, alloc: Global) -> Result<HeaderList, OutOfMemory>
        requires { HaveOneSpelling self.now }
        ensures { IfOk result (λ list. list ≡ self.now) }
    {
        let mut fields = Vec::with_capacity(alloc, self.len())?;
        for place in self.places.as_slice() {
            fields.push(place.field_in(alloc, self.bytes.as_slice())?)?;
        }
        Ok(HeaderList::of_fields(fields))
    }

    /// How many headers there are.
    pub fn len(&self) -> usize
        ensures { result ≡ length self.now }
    {
        self.places.len()
    }

    /// The name, as it is spelled, and the value of the header at an index below the length.
    pub fn at(&self, index: usize) -> (&[u8], &[u8])
        requires { index < length self.now }
        ensures { slice_get self.now index ≡ Some (record { name = result.0.now; value = result.1.now }) }
    {
        let place = self.places[index];
        let bytes = self.bytes.as_slice();
        (place.name_in(bytes), place.value_in(bytes))
    }

    /// The name of the header at an index below the length, as it is spelled.
    pub fn name_at(&self, index: usize) -> &[u8]
        requires { index < length self.now }
        ensures { option_map (λ header. header.name) (slice_get self.now index) ≡ Some result.now }
    {
        self.places[index].name_in(self.bytes.as_slice())
    }

    /// The value of the header at an index below the length.
    pub fn value_at(&self, index: usize) -> &[u8]
        requires { index < length self.now }
        ensures { option_map (λ header. header.value) (slice_get self.now index) ≡ Some result.now }
    {
        self.places[index].value_in(self.bytes.as_slice())
    }

    /// "append": adds a header, its name in the spelling that the list has already
    /// (Fetch, section 2.2.2).
    pub fn append(&mut self, name: &[u8], value: &[u8]) -> Result<(), OutOfMemory>
        ensures ok { OnOk result (self.new ≡ appended name.now value.now self.old) }
        ensures err { OnErr result (self.new ≡ self.old) }
    {
        match place_of(self.bytes.as_slice(), self.places.as_slice(), name) {
            None => add(&mut self.bytes, &mut self.places, name, value),
            Some(place) => add_spelled(&mut self.bytes, &mut self.places, place, value),
        }
    }

    // Appends the header of a field.
    fn append_field(&mut self, field: &Field) -> Result<(), OutOfMemory>
        ensures { OnOk result (self.new ≡ appended field.now.name field.now.value self.old) }
    {
        match place_of(self.bytes.as_slice(), self.places.as_slice(), field.name()) {
            None => add_field(&mut self.bytes, &mut self.places, field),
            Some(place) => { add_spelled(&mut self.bytes, &mut self.places, place, field.value()) }
        }
    }

    /// Appends each of these headers, in order. Where memory is refused for one, those before it are appended.
    pub fn append_all(&mut self, more: &[Field]) -> Result<(), OutOfMemory>
        ensures { OnOk result (self.new ≡ all_appended more.now self.old) }
    {
        for header in more {
            self.append_field(header)?;
        }
        Ok(())
    }

    /// "get": all values of that name joined by a comma and a space, or nothing where the list
    /// does not contain it (Fetch, section 2.2.2).
    pub fn get(&self, alloc: Global, name: &[u8]) -> Result<Option<Bytes>, OutOfMemory>
        ensures { IfOk result (λ text. text ≡ combined name.now self.now) }
    {
        values_in(alloc, self.bytes.as_slice(), self.places.as_slice(), name)
    }
}
