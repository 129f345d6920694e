//! Whether tables and indexes have the form that a constant says.
ghost use Rattle.std.specs.Prelude.{◌≡◌, ◌≢◌, [], MatchBool};
ghost use Rattle.mqtt_store_tables.specs.forms.Forms.{table_of, index_of, IsBare, HasKey, HasUniques};

use crate::forms::columns::{ColumnForm, Formed, ParentForm, all_have};
use sqlite_schema::code::Terms;
use sqlite_schema::schema::{Index, Stamps, Table};

/// A table. A place is one in a row: the rowid is at 0, the columns behind it.
#[derive(Clone, Copy, Debug)]
pub struct TableForm {
    /// Its name.
    pub name: &'static [u8],
    /// Where its rows are.
    pub tree: u32,
    /// Its columns.
    pub columns: &'static [ColumnForm],
    /// Which column is the rowid, counted from 0; none if the rowid is hidden.
    pub key: Option<usize>,
    /// The places of the primary key.
    pub primary: &'static [usize],
    /// The places of columns that are unique together.
    pub uniques: &'static [&'static [usize]],
    /// Its references.
    pub parents: &'static [ParentForm],
}

/// Whether there are no terms.
fn is_no_terms(terms: &Terms) -> bool
    ensures { MatchBool result (terms.now ≡ []) (terms.now ≢ []) }
{
    terms.roots.is_empty()
}

/// Whether no default reads the time.
fn is_no_stamps(stamps: &Stamps) -> bool
    ensures { MatchBool result (stamps.now ≡ record { places = []; terms = []; formats = [] })
        (stamps.now ≢ record { places = []; terms = []; formats = [] }) }
{
    stamps.places.is_empty() && is_no_terms(&stamps.terms) && stamps.formats.is_empty()
}

/// Whether nothing is computed or counted, and no CHECK is made.
fn is_bare(table: &Table) -> bool
    ensures { MatchBool result (IsBare table.now) (IsBare table.now → ⊥) }
{
    is_no_terms(&table.checks)
        && table.computed.is_empty()
        && is_no_stamps(&table.stamps)
        && !table.is_counted
}

/// Whether the key is that of the form.
fn has_key(table: &Table, form: &TableForm) -> bool
    ensures { MatchBool result (HasKey table.now form.now) (HasKey table.now form.now → ⊥) }
{
    table.key == form.key && table.primary.as_slice() == form.primary
}

/// Whether unique rows are those of the form.
fn has_uniques(table: &Table, form: &TableForm) -> bool
    ensures { MatchBool result (HasUniques table.now form.now) (HasUniques table.now form.now → ⊥) }
{
    all_have(table.uniques.as_slice(), form.uniques)
        && all_have(table.orders.as_slice(), form.uniques)
}

impl Formed for Table {
    type Form = TableForm;

    ghost formed = { table_of };

    fn has(&self, form: &TableForm) -> bool {
        self.name.as_slice() == form.name
            && self.tree == form.tree
            && all_have(self.columns.as_slice(), form.columns)
            && has_key(self, form)
            && has_uniques(self, form)
            && all_have(self.references.as_slice(), form.parents)
            && is_bare(self)
    }
}

/// An index in ascending order.
#[derive(Clone, Copy, Debug)]
pub struct IndexForm {
    /// Its name.
    pub name: &'static [u8],
    /// Where its keys are.
    pub tree: u32,
    /// Where the rows of its table are.
    pub table: u32,
    /// The places of its columns in a row of the table.
    pub places: &'static [usize],
    /// Whether it keeps rows unique.
    pub is_unique: bool,
}

impl Formed for Index {
    type Form = IndexForm;

    ghost formed = { index_of };

    fn has(&self, form: &IndexForm) -> bool {
        self.name.as_slice() == form.name
            && self.tree == form.tree
            && self.table == form.table
            && self.columns.as_slice() == form.places
            && self.order.digits == 0
            && self.is_unique == form.is_unique
    }
}
