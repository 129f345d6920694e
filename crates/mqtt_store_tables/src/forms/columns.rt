//! Whether parts of a schema have the form that a constant says.
ghost use Rattle.std.specs.Prelude.{◌≡◌, ◌≢◌, ◌∷◌, ◌++◌, [], List, map, true, false, MatchBool};
ghost use Rattle.sqlite_value.specs.Keys.{plain};
ghost use Rattle.mqtt_store_tables.specs.forms.Forms.{column_of, reference_of};

use sqlite_items::Items;
use sqlite_schema::code::lend_value;
use sqlite_schema::schema::{Action, Column, Kind, Reference};
use sqlite_value::keys::{Collation, Order};
use sqlite_value::value::{Bytes, ValueRef};

/// What has a form that a constant says.
pub trait Formed {
    type Form;

    ghost formed: { Self.Form → Self };

    /// Whether it has this form.
    fn has(&self, form: &Self::Form) -> bool
        ensures { MatchBool result (self.now ≡ formed form.now) (self.now ≢ formed form.now) };
}

/// Whether each item has the form in its place, and there are no others.
pub fn all_have<P: Formed>(items: &[P], forms: &[P::Form]) -> bool
    ensures { MatchBool result (items.now ≡ map P.formed forms.now) (items.now ≢ map P.formed forms.now) }
{
    match (items, forms) {
        ([], []) => true,
        ([item, items @ ..], [form, forms @ ..]) => item.has(form) && all_have(items, forms),
        _ => false,
    }
}

/// Whether each item has the form in its place, first those of one list and then those of
/// another, and there are no others.
pub fn have_both<P: Formed>(items: &[P], first: &[P::Form], second: &[P::Form]) -> bool
    ensures { MatchBool result (items.now ≡ map P.formed first.now ++ map P.formed second.now)
        (items.now ≢ map P.formed first.now ++ map P.formed second.now) }
{
    match (items, first) {
        (_, []) => all_have(items, second),
        ([item, items @ ..], [form, first @ ..]) => item.has(form)
            && have_both(items, first, second),
        _ => false,
    }
}

/// A column of a STRICT table, with no default: its name and kind.
#[derive(Clone, Copy, Debug)]
pub enum ColumnForm {
    /// It has no NULL.
    Wanted(&'static [u8], Kind),
    /// It may have NULL.
    Optional(&'static [u8], Kind),
}

impl Formed for Column {
    type Form = ColumnForm;

    ghost formed = { column_of };

    fn has(&self, form: &ColumnForm) -> bool {
        let ValueRef::Null = lend_value(&self.default) else {
            return false;
        };
        let Collation::Binary = self.collation else {
            return false;
        };
        let (not_null, name, kind) = match *form {
            ColumnForm::Wanted(name, kind) => (true, name, kind),
            ColumnForm::Optional(name, kind) => (false, name, kind),
        };
        self.is_strict
            && self.not_null == not_null
            && self.kind == kind
            && self.name.as_slice() == name
    }
}

impl Formed for Bytes {
    type Form = &'static [u8];

    ghost formed = { λ name. name.now };

    fn has(&self, form: &&'static [u8]) -> bool {
        self.as_slice() == *form
    }
}

impl Formed for Items<usize> {
    type Form = &'static [usize];

    ghost formed = { λ places. places.now };

    fn has(&self, form: &&'static [usize]) -> bool {
        self.as_slice() == *form
    }
}

/// Each of the columns that are unique together ascends.
impl Formed for Order {
    type Form = &'static [usize];

    ghost formed = { λ _. plain };

    fn has(&self, _form: &&'static [usize]) -> bool {
        self.digits == 0
    }
}

/// A reference of one column to one of another table; nothing becomes of a row whose parent gets
/// another key.
#[derive(Clone, Copy, Debug)]
pub struct ParentForm {
    /// The place of its column in a row.
    pub at: usize,
    /// The name of the other table.
    pub table: &'static [u8],
    /// The name of the column there.
    pub column: &'static [u8],
    /// What becomes of a row whose parent is deleted.
    pub on_delete: Action,
}

impl Formed for Reference {
    type Form = ParentForm;

    ghost formed = { reference_of };

    fn has(&self, form: &ParentForm) -> bool {
        let Action::NoAction = self.on_update else {
            return false;
        };
        !self.is_deferred
            && self.on_delete == form.on_delete
            && self.columns.as_slice() == [form.at].as_slice()
            && self.parent.as_slice() == form.table
            && all_have(self.parent_columns.as_slice(), &[form.column])
    }
}
