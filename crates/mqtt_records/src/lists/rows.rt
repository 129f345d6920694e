//! Lists of rows in the order of their keys.
ghost use Rattle.std.specs.Prelude.{◌≡◌, ◌↔◌, ◌<◌, ◌≤◌, List, [], Option, IfOk, IsSomeAnd, IsTrue, false, option_copied, not};
ghost use Rattle.std.specs.Prelude.{length, filter, map, take, drop, slice_get, insert, option_and_then, bytes_eq, vec_len, vec_capacity};
ghost use Rattle.mqtt_records.specs.lists.Order.{IsAscending, IsFound, front_len, last_row};
ghost use Rattle.mqtt_records.specs.lists.Order.{row_at, has_row, put_row, remove_row, change_row};

use crate::lists::front::{FRONT, behind, close_up, leave, make_place, take_out};
use crate::lists::row::{CloneRow, Editable, Fillable, Named, Parted, Row, Slimmable};
use std::alloc::{AllocError, Global};
use std::marker::Model;

/// How many rows have a lower key.
fn place_in<R: Row>(rows: &[R], key: u64) -> usize
    requires { IsAscending R.key_of rows.now }
    ensures { result ≡ front_len R.key_of key rows.now }
{
    rows.partition_point(|row| row.key() < key)
}

/// The first rows, so many. Takes no memory.
fn first_rows<R>(rows: &[R], len: usize) -> &[R]
    requires { len ≤ length rows.now }
    ensures { result.now ≡ take len rows.now }
{
    &rows[..len]
}

/// How many rows have a lower key. What stands in front is found there.
fn place_of<R: Row>(rows: &[R], key: u64) -> usize
    requires { IsAscending R.key_of rows.now }
    ensures { result ≡ front_len R.key_of key rows.now }
{
    if FRONT < rows.len() && key <= rows[FRONT].key() {
        place_in(first_rows(rows, FRONT), key)
    } else {
        place_in(rows, key)
    }
}

/// Where the row with the key stands, or where it would.
fn search<R: Row>(rows: &[R], key: u64) -> Result<usize, usize>
    requires { IsAscending R.key_of rows.now }
    ensures { IsFound R.key_of key rows.now result }
{
    let place = place_of(rows, key);
    if place < rows.len() && rows[place].key() == key {
        Ok(place)
    } else {
        Err(place)
    }
}

/// Inserts a row for which there is room.
fn insert_in<R: Drop>(rows: &mut Vec<R>, place: usize, row: R)
    requires place { place ≤ vec_len rows.old }
    requires room { vec_len rows.old < vec_capacity rows.old }
    ensures items { rows.new.items ≡ insert rows.old.items place row }
    ensures room { vec_capacity rows.old ≤ vec_capacity rows.new }
{
    let _done = rows.insert(place, row);
}

/// Puts a row by its key behind those that have left; a list with `limit` rows takes no further key.
fn put_in<R: Row>(rows: &mut Vec<R>, gone: usize, limit: usize, row: R)
    requires gone { gone ≤ vec_len rows.old }
    requires order { IsAscending R.key_of (drop gone rows.old.items) }
    requires room { limit ≤ vec_capacity rows.old }
    requires place { length (drop gone rows.old.items) < limit → vec_len rows.old < limit }
    ensures gone { gone ≤ vec_len rows.new }
    ensures items { drop gone rows.new.items ≡ put_row R.key_of limit row (drop gone rows.old.items) }
    ensures room { limit ≤ vec_capacity rows.new }
{
    match search(behind(rows, gone), row.key()) {
        Ok(place) => rows[gone + place] = row,
        Err(place) => {
            if rows.len() - gone < limit {
                insert_in(rows, gone + place, row);
            }
        }
    }
}

/// At most `LIMIT` rows in the order of their keys. All the memory of the list is taken when it is
/// made. Of a long list some rows that have left may still stand in front, slim.
#[derive(Drop)]
pub struct Rows<R: Row, const LIMIT: usize> {
    rows: Vec<R>,
    /// How many in front have left: fewer than `FRONT`.
    gone: usize,
}

impl<R: Row, const LIMIT: usize> Model for Rows<R, LIMIT> {
    ghost use Rattle.std.specs.Prelude.{List, ◌<◌, ◌≤◌, length, drop, vec_len, vec_capacity};
    ghost use Rattle.mqtt_records.specs.lists.Order.{IsAscending};
    ghost use Rattle.mqtt_records.specs.declared.lists.front.TheConstants.{FRONT};

    ghost Value = { List R };

    ghost view = { λ a. drop a.gone a.rows.items };

    ghost invariant = { λ a. IsAscending R.key_of (drop a.gone a.rows.items) × (LIMIT ≤ vec_capacity a.rows)
        × (length (drop a.gone a.rows.items) ≤ LIMIT) × (a.gone ≤ vec_len a.rows) × (a.gone < FRONT) };
}

impl<R: Row, const LIMIT: usize> Rows<R, LIMIT> {
    /// No rows, with room for as many as there may be.
    pub fn new(alloc: Global) -> Result<Self, AllocError>
        ensures { IfOk result (λ rows. rows ≡ []) }
    {
        Ok(Rows {
            rows: Vec::with_capacity(alloc, LIMIT)?,
            gone: 0,
        })
    }

    /// How many rows there are. Takes no memory.
    pub fn len(&self) -> usize
        ensures { result ≡ length self.now }
    {
        self.rows.len() - self.gone
    }

    /// The rows in order. Takes no memory.
    pub fn as_slice(&self) -> &[R]
        ensures order { IsAscending R.key_of self.now }
        ensures few { length self.now ≤ LIMIT }
        ensures rows { result.now ≡ self.now }
    {
        behind(&self.rows, self.gone)
    }

    /// The row with the key. Takes no memory.
    pub fn get(&self, key: u64) -> Option<&R>
        ensures { option_copied result ≡ row_at R.key_of key self.now }
    {
        let rows = self.as_slice();
        match search(rows, key) {
            Ok(place) => Some(&rows[place]),
            Err(_) => None,
        }
    }

    /// Whether there is a row with the key. Takes no memory.
    pub fn has(&self, key: u64) -> bool
        ensures { result ≡ has_row R.key_of key self.now }
    {
        search(self.as_slice(), key).is_ok()
    }

    /// The row at a place from 0. Takes no memory.
    pub fn at(&self, place: usize) -> Option<&R>
        ensures { option_copied result ≡ slice_get self.now place }
    {
        self.as_slice().get(place)
    }

    /// The row with the greatest key. Takes no memory.
    pub fn last(&self) -> Option<&R>
        ensures { option_copied result ≡ last_row R.key_of self.now }
    {
        self.as_slice().last()
    }

    /// Puts a row by its key; a list with `LIMIT` rows takes no further key. Takes no memory.
    pub fn put(&mut self, row: R)
        ensures { self.new ≡ put_row R.key_of LIMIT row self.old }
    {
        self.gone = make_place(&mut self.rows, self.gone, LIMIT);
        put_in(&mut self.rows, self.gone, LIMIT, row);
    }

    /// Removes the row with the key, if there is one. Takes no memory.
    pub fn remove(&mut self, key: u64)
        ensures { self.new ≡ remove_row R.key_of key self.old }
    {
        if let Ok(place) = search(self.as_slice(), key) {
            let _row = take_out(&mut self.rows, self.gone, place);
        }
    }

    /// Takes the row with the key out, if there is one. Takes no memory.
    pub fn take(&mut self, key: u64) -> Option<R>
        ensures row { result ≡ row_at R.key_of key self.old }
        ensures rest { self.new ≡ remove_row R.key_of key self.old }
    {
        match search(self.as_slice(), key) {
            Ok(place) => Some(take_out(&mut self.rows, self.gone, place)),
            Err(_) => None,
        }
    }
}

impl<R: CloneRow, const LIMIT: usize> Clone for Rows<R, LIMIT> {
    ghost is_clone = { λ rows copy. copy ≡ rows };

    fn clone(&self) -> Result<Self, AllocError> {
        let mut rows = Vec::with_capacity(*self.rows.allocator(), LIMIT)?;
        for row in self.as_slice() {
            rows.push(row.clone()?)?;
        }
        Ok(Rows { rows, gone: 0 })
    }
}

impl<R: Editable, const LIMIT: usize> Rows<R, LIMIT> {
    /// Changes a part of the row with the key, if there is one. Takes no memory.
    pub fn edit(&mut self, key: u64, part: R::Part)
        ensures { self.new ≡ change_row R.key_of key (R.edited part) self.old }
    {
        if let Ok(place) = search(self.as_slice(), key) {
            self.rows[self.gone + place].edit(part);
        }
    }
}

impl<R: Parted, const LIMIT: usize> Rows<R, LIMIT> {
    /// Takes out what stands at a place of the row with the key, if both are there. Takes no
    /// memory.
    pub fn take_part(&mut self, key: u64, place: R::Place) -> Option<R::Taken>
        ensures taken { result ≡ option_and_then (R.taken place) (row_at R.key_of key self.old) }
        ensures rest { self.new ≡ change_row R.key_of key (R.left place) self.old }
    {
        match search(self.as_slice(), key) {
            Ok(at) => self.rows[self.gone + at].take_part(place),
            Err(_) => None,
        }
    }
}

impl<R: Fillable, const LIMIT: usize> Rows<R, LIMIT> {
    /// Has the row with the key take in what fits it. Nothing changes if it doesn't fit, or no row has the
    /// key. Takes no memory.
    pub fn fill(&mut self, key: u64, filling: R::Filling) -> bool
        ensures exact { IsTrue result ↔ IsSomeAnd (row_at R.key_of key self.old) (R.fits filling) }
        ensures ok { IsTrue result → self.new ≡ change_row R.key_of key (R.filled filling) self.old }
        ensures err { result ≡ false → self.new ≡ self.old }
    {
        match search(self.as_slice(), key) {
            Ok(place) => self.rows[self.gone + place].fill_in(filling),
            Err(_) => {
                drop(filling);
                false
            }
        }
    }
}

/// Each row leaves out what it can.
fn slim_all<R: Slimmable>(rows: &mut [R])
    ensures { rows.new ≡ map R.slimmed rows.old }
{
    for row in rows.iter_mut() {
        row.leave_out();
    }
}

/// Each row of a list leaves out what it can.
fn slim_list<R: Slimmable>(rows: &mut Vec<R>)
    ensures items { rows.new.items ≡ map R.slimmed rows.old.items }
    ensures len { vec_len rows.new ≡ vec_len rows.old }
    ensures capacity { vec_capacity rows.new ≡ vec_capacity rows.old }
{
    slim_all(rows);
}

impl<R: Slimmable, const LIMIT: usize> Rows<R, LIMIT> {
    /// Each row leaves out of memory what it can. Takes no memory.
    pub fn leave_out(&mut self)
        ensures { self.new ≡ map R.slimmed self.old }
    {
        slim_list(&mut self.rows);
    }

    /// Removes the row with the key, if there is one. In front of a long list it takes the time of the rows before
    /// it alone: the list moves up once many have left. Takes no memory.
    pub fn let_go(&mut self, key: u64)
        ensures { self.new ≡ remove_row R.key_of key self.old }
    {
        if let Ok(place) = search(self.as_slice(), key) {
            self.gone = leave(&mut self.rows, self.gone, place);
        }
    }
}

impl<R: Named, const LIMIT: usize> Rows<R, LIMIT> {
    /// Removes the rows of a name. Takes no memory.
    pub fn remove_named(&mut self, name: &str)
        ensures { self.new ≡ filter (λ row. not (bytes_eq (R.name_of row) name.now)) self.old }
    {
        close_up(&mut self.rows, self.gone);
        self.gone = 0;
        self.rows.retain(|row| row.name() != name);
    }
}
