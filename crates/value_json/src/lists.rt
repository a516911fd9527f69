// The forms of lists and of pairs.
ghost use Rattle.std.specs.Prelude.{◌≡◌, decimal, option_map, option_and_then};
ghost use Rattle.serde_json.specs.Find.{as_array};
ghost use Rattle.value_json.specs.Trees.{data_of, trees_of};
ghost use Rattle.value_json.specs.Reading as spec;
ghost use Rattle.value_json.specs.Gives.{Gives};
ghost use Rattle.value_json.specs.Reading.{under};

use crate::form::{Form, refused_at, refused_here};
use crate::items::Trees;
use crate::refused::Refused;
use crate::tree::Tree;
use std::alloc::Global;
use value_bytes::Items;

/// A list of any number of items of one form. A value that is no list is refused at its own place,
/// and the first item that is not of the form under its number, counted from 0.
#[derive(Drop)]
pub struct ItemsOf<F> {
    pub item: F,
}

impl<F: Form> Form for ItemsOf<F> {
    type Out = Items<F::Out>;

    ghost reads = { λ list. spec.items_of (F.reads list.item) };

    fn read(&self, alloc: Global, tree: &Tree<'_, '_>) -> Result<Items<F::Out>, Refused> {
        match tree.items() {
            Some(items) => each(alloc, items, &self.item),
            None => refused_here(alloc),
        }
    }
}

/// A list of at most `most` items of one form. A value that is no list or a longer one is refused
/// at its own place, before any item is looked at, and the first item that is not of the form under
/// its number, counted from 0.
#[derive(Drop)]
pub struct ListOf<F> {
    pub most: usize,
    pub item: F,
}

impl<F: Form> Form for ListOf<F> {
    type Out = Items<F::Out>;

    ghost reads = { λ list. spec.list_of list.most (F.reads list.item) };

    fn read(&self, alloc: Global, tree: &Tree<'_, '_>) -> Result<Items<F::Out>, Refused> {
        let (Some(counted), Some(items)) = (tree.items(), tree.items()) else {
            return refused_here(alloc);
        };
        if counted.are_more_than(self.most) {
            return refused_here(alloc);
        }
        each(alloc, items, &self.item)
    }
}

// The items, in order.
fn each<F: Form>(alloc: Global, items: Trees<'_, '_>, form: &F) -> Result<Items<F::Out>, Refused>
    ensures { Gives result (spec.each_from (F.reads form.now) 0 (trees_of items.entry)) }
{
    let mut items = items;
    let mut read = Items::new(alloc);
    while let Some(item) = items.next() {
        let next = item_at(alloc, read.len(), &item, form)?;
        read.push(next)?;
    }
    Ok(read)
}

/// An item of a list, at a number counted from 0, read by its form. One that its form refuses is
/// refused under the number. `Memory` tells want of memory alone.
pub fn item_at<F: Form>(
    alloc: Global,
    index: usize,
    item: &Tree<'_, '_>,
    form: &F,
) -> Result<F::Out, Refused>
    ensures { Gives result (under (decimal index) (F.reads form.now (data_of item.now))) }
{
    match form.read(alloc, item) {
        Ok(x) => Ok(x),
        Err(refused) => Err(refused_at(alloc, index, refused)),
    }
}

/// A list of two items, each of its own form. A value that is no such list is refused at its own
/// place, and else the first item that is not of its form under its number, 0 or 1.
#[derive(Drop)]
pub struct PairOf<F, G> {
    pub first: F,
    pub second: G,
}

impl<F: Form, G: Form> Form for PairOf<F, G> {
    type Out = (F::Out, G::Out);

    ghost reads = { λ pair. spec.pair_of (F.reads pair.first) (G.reads pair.second) };

    fn read(&self, alloc: Global, tree: &Tree<'_, '_>) -> Result<(F::Out, G::Out), Refused> {
        let Some((first, second)) = two_of(tree) else {
            return refused_here(alloc);
        };
        let first = item_at(alloc, 0, &first, &self.first)?;
        let second = item_at(alloc, 1, &second, &self.second)?;
        Ok((first, second))
    }
}

// The two items of a list of two.
fn two_of<'t, 'a>(tree: &Tree<'t, 'a>) -> Option<(Tree<'t, 'a>, Tree<'t, 'a>)>
    ensures { option_map (λ two. (data_of two.0, data_of two.1)) result
        ≡ option_and_then spec.two_of (as_array (data_of tree.now)) }
{
    let mut items = tree.items()?;
    let first = items.next()?;
    let second = items.next()?;
    match items.next() {
        Some(_) => None,
        None => Some((first, second)),
    }
}
