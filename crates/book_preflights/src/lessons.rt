// How the entries of a key learn what a CORS-preflight fetch taught.
ghost use Rattle.std.specs.Prelude.{◌≡◌, ◌≤◌, ◌++◌, ◌∷◌, [], length, map, filter, IfOk, OnOk};
ghost use Rattle.std.specs.List.{fold, list_any};
ghost use Rattle.book_preflights.specs.Entries.{is_alive};
ghost use Rattle.book_preflights.specs.Teaching.{methods_of, names_of, taught};
ghost use Rattle.book_preflights.specs.Private.Marks.{created, is_known, marked, newest, own_place, place_of, renewed};
ghost use Rattle.book_preflights.specs.Private.Marks.{unmarked, with_item};

use crate::entry::{Allowed, CacheEntry, is_younger};
use crate::partition::{MOST, is_of};
use crate::question::Lesson;
use std::alloc::Global;
use std::marker::Model;
use value_bytes::{Bytes, OutOfMemory};

/// The origin and the URL of an entry.
#[derive(Drop)]
pub(crate) struct Place {
    pub(crate) origin: Bytes,
    pub(crate) url: Bytes,
}

/// An entry while a lesson is learnt. Its place is told only where it is not the lesson's, so that a URL is compared
/// and copied once a lesson, however many methods and header names the lesson has.
#[derive(Drop)]
pub(crate) struct Mark {
    pub(crate) place: Option<Place>,
    pub(crate) include: bool,
    pub(crate) made: u64,
    pub(crate) age: u64,
    pub(crate) allowed: Allowed,
}

/// The entries of a key while a lesson is learnt, in the order of their creation.
#[derive(Drop)]
pub(crate) struct Learning {
    marks: Vec<Mark>,
}

impl Model for Learning {
    ghost use Rattle.std.specs.Prelude.{◌≤◌, List, length};
    ghost use Rattle.book_preflights.specs.declared.lessons.Mark.{Mark};

    ghost Value = { List Mark };

    ghost view = { λ learning. learning.marks.items };

    ghost invariant = { λ learning. length learning.marks.items ≤ 64 };
}

// The place of an entry, where it is not the lesson's.
fn place_of(
    alloc: Global,
    entry: &CacheEntry,
    lesson: &Lesson,
) -> Result<Option<Place>, OutOfMemory>
    ensures { IfOk result (λ place. place ≡ place_of lesson.now entry.now) }
{
    if is_of(entry, lesson.origin.as_slice(), lesson.url.as_slice()) {
        return Ok(None);
    }
    let origin = entry.origin.copy(alloc)?;
    let url = entry.url.copy(alloc)?;
    Ok(Some(Place { origin, url }))
}

// A copy of an entry.
fn marked(alloc: Global, entry: &CacheEntry, lesson: &Lesson) -> Result<Mark, OutOfMemory>
    ensures { IfOk result (λ mark. mark ≡ marked lesson.now entry.now) }
{
    let place = place_of(alloc, entry, lesson)?;
    let allowed = entry.allowed.copy(alloc)?;
    Ok(Mark {
        place,
        include: entry.include,
        made: entry.made,
        age: entry.age,
        allowed,
    })
}

// A copy of the entries that are alive.
fn alive_of(
    alloc: Global,
    entries: &[CacheEntry],
    lesson: &Lesson,
    now: u64,
) -> Result<Vec<Mark>, OutOfMemory>
    ensures { IfOk result (λ alive. alive.items ≡ map (marked lesson.now) (filter (is_alive now) entries.now)) }
{
    let mut alive = Vec::new(alloc);
    for entry in entries {
        if entry.is_alive(now) {
            alive.push(marked(alloc, entry, lesson)?)?;
        }
    }
    Ok(alive)
}

// The place that is told, or else the lesson's.
fn own_place(alloc: Global, place: Option<Place>, lesson: &Lesson) -> Result<Place, OutOfMemory>
    ensures { IfOk result (λ own. own ≡ own_place lesson.now place) }
{
    if let Some(place) = place {
        return Ok(place);
    }
    let origin = lesson.origin.copy(alloc)?;
    let url = lesson.url.copy(alloc)?;
    Ok(Place { origin, url })
}

// The entry, with its place.
fn unmarked(alloc: Global, mark: Mark, lesson: &Lesson) -> Result<CacheEntry, OutOfMemory>
    ensures { IfOk result (λ entry. entry ≡ unmarked lesson.now mark) }
{
    let Mark {
        place,
        include,
        made,
        age,
        allowed,
    } = mark;
    let place = own_place(alloc, place, lesson)?;
    Ok(CacheEntry {
        origin: place.origin,
        url: place.url,
        include,
        made,
        age,
        allowed,
    })
}

// The entries, with their places.
fn all_unmarked(
    alloc: Global,
    marks: Vec<Mark>,
    lesson: &Lesson,
) -> Result<Vec<CacheEntry>, OutOfMemory>
    ensures { IfOk result (λ entries. entries.items ≡ map (unmarked lesson.now) marks.items) }
{
    let mut entries = Vec::new(alloc);
    for mark in marks {
        entries.push(unmarked(alloc, mark, lesson)?)?;
    }
    Ok(entries)
}

// Whether the entry is alive and matches the lesson's method or header name.
fn is_known(mark: &Mark, lesson: &Lesson, item: &Allowed, now: u64) -> bool
    ensures { result ≡ is_known lesson.now now item.now mark.now }
{
    is_younger(mark.made, mark.age, now)
        && mark.place.is_none()
        && (!lesson.include || mark.include)
        && mark.allowed.allows(item)
}

// Gives the entry the lesson's age from now on, where it is alive and matches, and says whether it does.
fn renew_one(mark: &mut Mark, lesson: &Lesson, item: &Allowed, now: u64) -> bool
    ensures known { result ≡ is_known lesson.now now item.now mark.old }
    ensures mark { mark.new ≡ renewed lesson.now now item.now mark.old }
{
    let known = is_known(mark, lesson, item, now);
    if known {
        mark.made = now;
        mark.age = lesson.age;
    }
    known
}

// Renews all entries that are alive and match, and says whether there are any.
fn renew_all(marks: &mut [Mark], lesson: &Lesson, item: &Allowed, now: u64) -> bool
    ensures any { result ≡ list_any (is_known lesson.now now item.now) marks.old }
    ensures all { marks.new ≡ map (renewed lesson.now now item.now) marks.old }
{
    let mut found = false;
    for mark in marks.iter_mut() {
        let known = renew_one(mark, lesson, item, now);
        found |= known;
    }
    found
}

// A new entry.
fn create(lesson: &Lesson, item: Allowed, now: u64) -> Mark
    ensures { result ≡ created lesson.now now item }
{
    Mark {
        place: None,
        include: lesson.include,
        made: now,
        age: lesson.age,
        allowed: item,
    }
}

impl Learning {
    // Renews all entries that are alive and match, and says whether there are any.
    fn renew(&mut self, lesson: &Lesson, item: &Allowed, now: u64) -> bool
        ensures any { result ≡ list_any (is_known lesson.now now item.now) self.old }
        ensures all { self.new ≡ map (renewed lesson.now now item.now) self.old }
    {
        renew_all(self.marks.as_mut_slice(), lesson, item, now)
    }

    // Adds an entry. Where there are 65 then, the oldest goes.
    fn add(&mut self, mark: Mark) -> Result<(), OutOfMemory>
        ensures { OnOk result (self.new ≡ newest (self.old ++ mark ∷ [])) }
    {
        self.marks.push(mark)?;
        if self.marks.len() > MOST {
            self.marks.remove(0);
        }
        Ok(())
    }

    // Learns a method or a header name.
    fn teach(&mut self, lesson: &Lesson, item: Allowed, now: u64) -> Result<(), OutOfMemory>
        ensures { OnOk result (self.new ≡ with_item lesson.now now self.old item) }
    {
        if self.renew(lesson, &item, now) {
            return Ok(());
        }
        let mark = create(lesson, item, now);
        self.add(mark)
    }

    // Learns the methods, in order.
    fn teach_methods(&mut self, alloc: Global, lesson: &Lesson, now: u64) -> Result<(), OutOfMemory>
        ensures { OnOk result (self.new ≡ fold (with_item lesson.now now) self.old (methods_of lesson.now)) }
    {
        for index in 0..lesson.methods.len() {
            let method = Bytes::of(alloc, lesson.methods.at(index))?;
            self.teach(lesson, Allowed::Method(method), now)?;
        }
        Ok(())
    }

    // Learns the header names, in order.
    fn teach_names(&mut self, alloc: Global, lesson: &Lesson, now: u64) -> Result<(), OutOfMemory>
        ensures { OnOk result (self.new ≡ fold (with_item lesson.now now) self.old (names_of lesson.now)) }
    {
        for index in 0..lesson.names.len() {
            let name = Bytes::of(alloc, lesson.names.at(index))?;
            self.teach(lesson, Allowed::HeaderName(name), now)?;
        }
        Ok(())
    }
}

// Copies of the entries that are alive, with what the lesson teaches.
pub(crate) fn taught(
    alloc: Global,
    entries: &[CacheEntry],
    lesson: &Lesson,
    now: u64,
) -> Result<Vec<CacheEntry>, OutOfMemory>
    requires { length entries.now ≤ 64 }
    ensures taught { IfOk result (λ all. all.items ≡ taught lesson.now now entries.now) }
    ensures most { IfOk result (λ all. length all.items ≤ 64) }
{
    let marks = alive_of(alloc, entries, lesson, now)?;
    let mut learning = Learning { marks };
    learning.teach_methods(alloc, lesson, now)?;
    learning.teach_names(alloc, lesson, now)?;
    all_unmarked(alloc, learning.marks, lesson)
}
