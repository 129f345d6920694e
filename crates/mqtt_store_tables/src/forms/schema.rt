//! Schema 1 of the store.
ghost use Rattle.std.specs.Prelude.{◌≡◌, ◌≢◌, map, MatchBool};
ghost use Rattle.mqtt_store_tables.specs.forms.Forms.{table_of, index_of};
ghost use Rattle.mqtt_store_tables.specs.forms.Tables.{keep_schema};

use crate::forms::columns::ColumnForm::{Optional, Wanted};
use crate::forms::columns::{ParentForm, all_have};
use crate::forms::tables::{IndexForm, TableForm};
use sqlite_schema::schema::{Action, Kind, Schema};

/// A table of the store.
#[derive(Clone, Copy, Debug, PartialEq, Eq)]
pub enum StoreTable {
    Meta,
    Session,
    Will,
    Subscription,
    Inbound,
    Copy,
    Retained,
}

/// The birth of a session is the row's key, and the row goes with it.
const KEY_OF_SESSION: ParentForm = ParentForm {
    at: 0,
    table: b"session",
    column: b"birth",
    on_delete: Action::Cascade,
};

/// The birth of a session is the row's first column, and the row goes with it.
pub const FIRST_OF_SESSION: ParentForm = ParentForm {
    at: 1,
    table: b"session",
    column: b"birth",
    on_delete: Action::Cascade,
};

/// The forms of the tables of schema 1.
const TABLES: [TableForm; 7] = [
    TableForm {
        name: b"meta",
        tree: 0,
        columns: &[Wanted(b"name", Kind::Text), Wanted(b"n", Kind::Integer)],
        key: None,
        primary: &[1],
        uniques: &[&[1]],
        parents: &[],
    },
    TableForm {
        name: b"session",
        tree: 2,
        columns: &[
            Optional(b"birth", Kind::Integer),
            Wanted(b"client", Kind::Text),
            Wanted(b"expiry", Kind::Integer),
            Optional(b"closed", Kind::Integer),
        ],
        key: Some(0),
        primary: &[0],
        uniques: &[&[2]],
        parents: &[],
    },
    TableForm {
        name: b"will",
        tree: 4,
        columns: &[
            Optional(b"birth", Kind::Integer),
            Wanted(b"delay", Kind::Integer),
            Wanted(b"topic", Kind::Text),
            Wanted(b"qos", Kind::Integer),
            Wanted(b"retain", Kind::Integer),
            Wanted(b"props", Kind::Blob),
            Wanted(b"payload", Kind::Blob),
        ],
        key: Some(0),
        primary: &[0],
        uniques: &[],
        parents: &[KEY_OF_SESSION],
    },
    TableForm {
        name: b"sub",
        tree: 5,
        columns: &[
            Wanted(b"birth", Kind::Integer),
            Wanted(b"filter", Kind::Text),
            Wanted(b"place", Kind::Integer),
            Wanted(b"qos", Kind::Integer),
            Wanted(b"nolocal", Kind::Integer),
            Wanted(b"rap", Kind::Integer),
            Wanted(b"handling", Kind::Integer),
            Wanted(b"ident", Kind::Integer),
        ],
        key: None,
        primary: &[1, 2],
        uniques: &[&[1, 2]],
        parents: &[FIRST_OF_SESSION],
    },
    TableForm {
        name: b"inbound",
        tree: 7,
        columns: &[
            Wanted(b"birth", Kind::Integer),
            Wanted(b"ident", Kind::Integer),
        ],
        key: None,
        primary: &[1, 2],
        uniques: &[&[1, 2]],
        parents: &[FIRST_OF_SESSION],
    },
    TableForm {
        name: b"copy",
        tree: 9,
        columns: &[
            Wanted(b"birth", Kind::Integer),
            Wanted(b"place", Kind::Integer),
            Wanted(b"pub", Kind::Integer),
            Wanted(b"cause", Kind::Integer),
            Wanted(b"cause_text", Kind::Text),
            Wanted(b"cause_n", Kind::Integer),
            Optional(b"pid", Kind::Integer),
            Wanted(b"phase", Kind::Integer),
            Optional(b"rel", Kind::Integer),
            Wanted(b"topic", Kind::Text),
            Wanted(b"qos", Kind::Integer),
            Wanted(b"retain", Kind::Integer),
            Wanted(b"props", Kind::Blob),
            Wanted(b"payload", Kind::Blob),
            Wanted(b"arrived", Kind::Integer),
        ],
        key: None,
        primary: &[1, 2],
        uniques: &[&[1, 2]],
        parents: &[FIRST_OF_SESSION],
    },
    TableForm {
        name: b"retained",
        tree: 11,
        columns: &[
            Optional(b"place", Kind::Integer),
            Wanted(b"topic", Kind::Text),
            Wanted(b"sender", Kind::Text),
            Wanted(b"pub", Kind::Integer),
            Wanted(b"qos", Kind::Integer),
            Wanted(b"props", Kind::Blob),
            Wanted(b"payload", Kind::Blob),
            Wanted(b"arrived", Kind::Integer),
        ],
        key: Some(0),
        primary: &[0],
        uniques: &[&[2]],
        parents: &[],
    },
];

/// The indexes of schema 1.
const INDEXES: [IndexForm; 6] = [
    IndexForm {
        name: b"sqlite_autoindex_meta_1",
        tree: 1,
        table: 0,
        places: &[1],
        is_unique: true,
    },
    IndexForm {
        name: b"sqlite_autoindex_session_1",
        tree: 3,
        table: 2,
        places: &[2],
        is_unique: true,
    },
    IndexForm {
        name: b"sqlite_autoindex_sub_1",
        tree: 6,
        table: 5,
        places: &[1, 2],
        is_unique: true,
    },
    IndexForm {
        name: b"sqlite_autoindex_inbound_1",
        tree: 8,
        table: 7,
        places: &[1, 2],
        is_unique: true,
    },
    IndexForm {
        name: b"sqlite_autoindex_copy_1",
        tree: 10,
        table: 9,
        places: &[1, 2],
        is_unique: true,
    },
    IndexForm {
        name: b"sqlite_autoindex_retained_1",
        tree: 12,
        table: 11,
        places: &[2],
        is_unique: true,
    },
];

/// The forms of the tables, in the order in which they are made.
pub fn table_forms() -> &'static [TableForm]
    ensures { map table_of result.now ≡ keep_schema.tables }
{
    &TABLES
}

/// The forms of the indexes, in the order in which they are made.
pub fn index_forms() -> &'static [IndexForm]
    ensures { map index_of result.now ≡ keep_schema.indexes }
{
    &INDEXES
}

/// Whether a database has the tables of schema 1, and nothing else.
pub fn is_schema(schema: &Schema) -> bool
    ensures { MatchBool result (schema.now ≡ keep_schema) (schema.now ≢ keep_schema) }
{
    all_have(schema.tables.as_slice(), table_forms())
        && all_have(schema.indexes.as_slice(), index_forms())
        && schema.views.is_empty()
}
