//! What a row of a list is, and a row in a box of its own.
ghost use Rattle.std.specs.Prelude.{◌≡◌, ◌↔◌, ℕ, List, Option, IfOk, IsTrue, false};

use std::alloc::{AllocError, Global};
use std::marker::Model;

/// A row of a list that is ordered by key.
pub trait Row: Drop {
    ghost key_of: { Self → ℕ };

    /// The key: no two rows of a list have the same. Takes no memory.
    fn key(&self) -> u64
        ensures { result ≡ key_of self.now };
}

/// A row of which there can be clones.
pub trait CloneRow: Row + Clone {
    // A clone is the same row.
    ghost clone_is: { (row copy : Self) → Self.is_clone row copy → copy ≡ row };
}

/// A row of which a part can be changed.
pub trait Editable: Row {
    type Part: Drop;

    ghost edited: { Self.Part → Self → Self };

    /// Changes the part. Takes no memory.
    fn edit(&mut self, part: Self::Part)
        ensures { self.new ≡ edited part self.old };

    // The key stays.
    ghost key_kept: { (part : Self.Part) (row : Self)
        → Self.key_of (edited part row) ≡ Self.key_of row };
}

/// A row that has rows of its own, of which one can be taken out.
pub trait Parted: Row {
    type Place: Drop;

    type Taken: Drop;

    ghost taken: { Self.Place → Self → Option Self.Taken };

    ghost left: { Self.Place → Self → Self };

    /// Takes out what stands at the place, if anything does. Takes no memory.
    fn take_part(&mut self, place: Self::Place) -> Option<Self::Taken>
        ensures taken { result ≡ taken place self.old }
        ensures rest { self.new ≡ left place self.old };

    // The key stays.
    ghost left_key: { (place : Self.Place) (row : Self)
        → Self.key_of (left place row) ≡ Self.key_of row };
}

/// A row that can lack something, and takes it in if it fits.
pub trait Fillable: Row {
    type Filling: Drop;

    // It fits the row.
    ghost fits: { Self.Filling → Self → Type 0 };

    // The row with it.
    ghost filled: { Self.Filling → Self → Self };

    /// Takes in what fits, and else changes nothing. Takes no memory.
    fn fill_in(&mut self, filling: Self::Filling) -> bool
        ensures exact { IsTrue result ↔ fits filling self.old }
        ensures ok { IsTrue result → self.new ≡ filled filling self.old }
        ensures err { result ≡ false → self.new ≡ self.old };

    // The key stays.
    ghost filled_key: { (filling : Self.Filling) (row : Self)
        → Self.key_of (filled filling row) ≡ Self.key_of row };
}

/// A row that can leave something out of memory.
pub trait Slimmable: Row {
    // The row without it.
    ghost slimmed: { Self → Self };

    /// Leaves it out. Takes no memory.
    fn leave_out(&mut self)
        ensures { self.new ≡ slimmed self.old };

    // The key stays.
    ghost slimmed_key: { (row : Self) → Self.key_of (slimmed row) ≡ Self.key_of row };
}

/// A row that says something which stands in memory beside it.
pub trait Shareable: Row {
    /// Has what it says where the other row has it, if both say the same; so it stands in memory once. Changes nothing, and takes
    /// no memory.
    fn share(&mut self, other: &Self)
        ensures { self.new ≡ self.old };
}

/// A row that has a name besides its key.
pub trait Named: Row {
    ghost name_of: { Self → List ℕ };

    /// The name. Takes no memory.
    fn name(&self) -> &str
        ensures { result.now ≡ name_of self.now };
}

impl Row for u16 {
    ghost key_of = { λ number. number };

    fn key(&self) -> u64 {
        u64::from(*self)
    }
}

impl CloneRow for u16 {
    ghost clone_is = { λ number copy same. same };
}

/// A row in a box of its own, so that lists move it without cost.
#[derive(Drop)]
pub struct Boxed<R> {
    row: Box<R>,
}

impl<R> Model for Boxed<R> {
    ghost Value = { R };

    ghost view = { λ b. b.row.value };
}

impl<R: Drop> Boxed<R> {
    /// Gives a row a box.
    pub fn new(alloc: Global, row: R) -> Result<Boxed<R>, AllocError>
        ensures { IfOk result (λ b. b ≡ row) }
    {
        Ok(Boxed {
            row: Box::new(alloc, row)?,
        })
    }

    /// The row. Takes no memory.
    pub fn get(&self) -> &R
        ensures { result.now ≡ self.now }
    {
        &self.row
    }

    /// Takes the row out of its box. Takes no memory.
    pub fn into_row(self) -> R
        ensures { result ≡ self }
    {
        Box::into_inner(self.row)
    }
}

impl<R: Clone> Clone for Boxed<R> {
    ghost is_clone = { λ row copy. R.is_clone row copy };

    fn clone(&self) -> Result<Self, AllocError> {
        Ok(Boxed {
            row: self.row.clone()?,
        })
    }
}

impl<R: Row> Row for Boxed<R> {
    ghost key_of = { λ row. R.key_of row };

    fn key(&self) -> u64 {
        self.row.key()
    }
}

impl<R: CloneRow> CloneRow for Boxed<R> {
    ghost clone_is = { λ row copy same. R.clone_is row copy same };
}

impl<R: Editable> Editable for Boxed<R> {
    type Part = R::Part;

    ghost edited = { λ part row. R.edited part row };

    fn edit(&mut self, part: Self::Part) {
        self.row.edit(part);
    }

    ghost key_kept = { λ part row. R.key_kept part row };
}

impl<R: Parted> Parted for Boxed<R> {
    type Place = R::Place;

    type Taken = R::Taken;

    ghost taken = { λ place row. R.taken place row };

    ghost left = { λ place row. R.left place row };

    fn take_part(&mut self, place: Self::Place) -> Option<Self::Taken> {
        self.row.take_part(place)
    }

    ghost left_key = { λ place row. R.left_key place row };
}

impl<R: Fillable> Fillable for Boxed<R> {
    type Filling = R::Filling;

    ghost fits = { λ filling row. R.fits filling row };

    ghost filled = { λ filling row. R.filled filling row };

    fn fill_in(&mut self, filling: Self::Filling) -> bool {
        self.row.fill_in(filling)
    }

    ghost filled_key = { λ filling row. R.filled_key filling row };
}

impl<R: Slimmable> Slimmable for Boxed<R> {
    ghost slimmed = { λ row. R.slimmed row };

    fn leave_out(&mut self) {
        self.row.leave_out();
    }

    ghost slimmed_key = { λ row. R.slimmed_key row };
}

impl<R: Shareable> Shareable for Boxed<R> {
    fn share(&mut self, other: &Self) {
        self.row.share(&other.row);
    }
}

impl<R: Named> Named for Boxed<R> {
    ghost name_of = { λ row. R.name_of row };

    fn name(&self) -> &str {
        self.row.name()
    }
}
