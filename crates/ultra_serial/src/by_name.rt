//! The items of a list by the name of a request, found by index where the numbers of a processing
//! element have no gaps.

ghost use Rattle.std.specs.Prelude.{◌≡◌, ℕ, ◌+◌, ◌<◌, List, [], true, false, length, IfOk, IfSome, OnOk, slice_get, Some};
ghost use Rattle.std.specs.Mem.{FitsInMemory};
ghost use Rattle.ultra_serial.specs.{ByPair.{list_of, lists_with}, ByName.{one_at as item_at, place_of, places_with, list_named}};

use crate::by_pair::ListsByPair;
use crate::dense_memory::zeros;
use crate::request_name::RequestName;
use std::alloc::{AllocError, Global};
use std::slice;

/// The number of processing elements whose names can have places.
const ROWS: u32 = 64;

/// Where the items of a list are, by the name of a request. Most names have one item.
///
/// A name can have a place in a row, which holds the index of one item. The items of a name that
/// has several, or no place, are in a map. The methods take the list, which is the same at each
/// call.
#[derive(Drop)]
pub(crate) struct ListsByName<T> {
    /// For each processing element the places of its first numbers: one more than the index of an
    /// item, or 0.
    rows: Vec<Vec<u32>>,
    /// All items of the names that have several items, or no place.
    others: ListsByPair<T>,
}

impl<T: Copy> ListsByName<T> {
    /// No items and no places.
    pub fn new(alloc: Global) -> Result<ListsByName<T>, AllocError>
        ensures { IfOk result (λ named. (whole : List T) (p n : ℕ) →
            list_named named whole p n ≡ []) }
    {
        let mut named = ListsByName {
            rows: Vec::new(alloc),
            others: ListsByPair::new(alloc),
        };
        for _ in 0..ROWS {
            named.add_row(alloc, 0)?;
        }
        Ok(named)
    }

    /// No items, with a place for each name that has one elsewhere.
    pub fn with_places<U: Copy>(
        alloc: Global,
        model: &ListsByName<U>,
    ) -> Result<ListsByName<T>, AllocError>
        ensures { IfOk result (λ named. (whole : List T) (p n : ℕ) →
            list_named named whole p n ≡ []) }
    {
        let mut named = ListsByName {
            rows: Vec::new(alloc),
            others: ListsByPair::new(alloc),
        };
        for row in &model.rows {
            named.add_row(alloc, row.len())?;
        }
        Ok(named)
    }

    /// The items of a name.
    pub fn get<'a>(&'a self, whole: &'a [T], name: RequestName) -> &'a [T]
        requires { FitsInMemory T.row }
        ensures { result.now ≡ list_named self.now whole.now name.pe name.number }
    {
        let kept = self.others.get(name);
        if kept.is_empty() {
            one_at(whole, self.place(name))
        } else {
            kept
        }
    }

    /// Makes a place for a name if its number is the next one of its row. No list changes.
    pub fn make_place(&mut self, name: RequestName) -> Result<(), AllocError>
        ensures { OnOk result ((whole : List T) (p n : ℕ) →
            list_named self.new whole p n ≡ list_named self.old whole p n) }
    {
        let (row, number) = (name.pe as usize, name.number as usize);
        if row < self.rows.len() && number == self.rows[row].len() {
            self.rows[row].push(0)?;
        }
        Ok(())
    }

    /// Puts the item of an index at the end of the list of a name.
    pub fn push(&mut self, whole: &[T], index: usize, name: RequestName) -> Result<(), AllocError>
        requires fits { FitsInMemory T.row }
        requires within { index < length whole.now }
        ensures { OnOk result ((x : T) → slice_get whole.now index ≡ Some x → (p n : ℕ) →
            list_named self.new whole.now p n ≡
            lists_with (list_named self.old whole.now) name.pe name.number x p n) }
    {
        if self.get(whole, name).is_empty() {
            return self.push_first(whole, index, name);
        }
        self.keep_first(whole, name)?;
        self.others.push(name, whole[index])
    }

    /// Makes the item of an index the only one of a name that has none.
    fn push_first(&mut self, whole: &[T], index: usize, name: RequestName) -> Result<(), AllocError>
        requires within { index < length whole.now }
        requires none { list_named self.old whole.now name.pe name.number ≡ [] }
        ensures { OnOk result ((x : T) → slice_get whole.now index ≡ Some x → (p n : ℕ) →
            list_named self.new whole.now p n ≡
            lists_with (list_named self.old whole.now) name.pe name.number x p n) }
    {
        if self.set_place(name, index) {
            return Ok(());
        }
        self.others.push(name, whole[index])
    }

    /// Puts the item that a name has in its place into the map, if the map has none of that name.
    /// No list changes.
    fn keep_first(&mut self, whole: &[T], name: RequestName) -> Result<(), AllocError>
        requires { FitsInMemory T.row }
        ensures same { OnOk result ((p n : ℕ) →
            list_named self.new whole.now p n ≡ list_named self.old whole.now p n) }
        ensures kept { OnOk result (list_of self.new.others.lists name.pe name.number ≡ [] →
            item_at whole.now (place_of self.new.rows.items name.pe name.number) ≡ []) }
    {
        if !self.others.get(name).is_empty() {
            return Ok(());
        }
        match one_at(whole, self.place(name)).first() {
            Some(first) => self.others.push(name, *first),
            None => Ok(()),
        }
    }

    /// The place of a name, or 0.
    fn place(&self, name: RequestName) -> u32
        ensures { result ≡ place_of self.now.rows.items name.pe name.number }
    {
        let (row, number) = (name.pe as usize, name.number as usize);
        if row < self.rows.len() && number < self.rows[row].len() {
            return self.rows[row][number];
        }
        0
    }

    /// Gives the place of a name the item of an index. Returns `false` if the name has no
    /// place, or the index is too large.
    fn set_place(&mut self, name: RequestName, index: usize) -> bool
        ensures set { result ≡ true → (p n : ℕ) → place_of self.new.rows.items p n ≡
            places_with (place_of self.old.rows.items) name.pe name.number (index + 1) p n }
        ensures unchanged { result ≡ false → self.new ≡ self.old }
        ensures others { self.new.others ≡ self.old.others }
    {
        let (row, number) = (name.pe as usize, name.number as usize);
        if index < u32::MAX as usize && row < self.rows.len() && number < self.rows[row].len() {
            self.rows[row][number] = index as u32 + 1;
            return true;
        }
        false
    }

    /// Adds a row of places without items. No list changes.
    fn add_row(&mut self, alloc: Global, places: usize) -> Result<(), AllocError>
        ensures { OnOk result ((whole : List T) (p n : ℕ) →
            list_named self.new whole p n ≡ list_named self.old whole p n) }
    {
        self.rows.push(zeros(alloc, places)?)?;
        Ok(())
    }
}

/// The item of a place, if there is one.
fn one_at<T>(whole: &[T], place: u32) -> &[T]
    requires { FitsInMemory T.row }
    ensures { result.now ≡ item_at whole.now place }
{
    if place == 0 {
        return &[];
    }
    match whole.get(place as usize - 1) {
        Some(item) => slice::from_ref(item),
        None => &[],
    }
}
