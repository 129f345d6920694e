//! The tables and indexes of schema 2.
ghost use Rattle.std.specs.Prelude.{◌≡◌, ◌≢◌, map, take, MatchBool};
ghost use Rattle.mqtt_store_tables.specs.forms.Forms.{table_of, index_of};
ghost use Rattle.mqtt_store_tables.specs.schema.Tables.{base_of, free_tree, tables_from, indexes_from, second_schema};

use crate::forms::ColumnForm::{Optional, Wanted};
use crate::forms::{
    ColumnForm, FIRST_OF_SESSION, IndexForm, ParentForm, TableForm, have_both, index_forms,
    table_forms,
};
use sqlite_schema::schema::{Action, Kind, Schema};

/// How a database came to schema 2.
#[derive(Clone, Copy, Debug, PartialEq, Eq)]
pub enum Making {
    /// It was made so.
    New,
    /// It had schema 1: `copy` and `retained` still stand.
    TakenOver,
}

/// The columns of `message`.
const MESSAGE: [ColumnForm; 4] = [
    Optional(b"pub", Kind::Integer),
    Wanted(b"topic", Kind::Text),
    Wanted(b"props", Kind::Blob),
    Wanted(b"payload", Kind::Blob),
];

/// The columns of `queued`.
const QUEUED: [ColumnForm; 13] = [
    Wanted(b"birth", Kind::Integer),
    Wanted(b"place", Kind::Integer),
    Wanted(b"pub", Kind::Integer),
    Wanted(b"cause", Kind::Integer),
    Wanted(b"cause_text", Kind::Text),
    Wanted(b"cause_n", Kind::Integer),
    Optional(b"pid", Kind::Integer),
    Wanted(b"phase", Kind::Integer),
    Optional(b"rel", Kind::Integer),
    Wanted(b"qos", Kind::Integer),
    Wanted(b"retain", Kind::Integer),
    Wanted(b"idents", Kind::Blob),
    Wanted(b"arrived", Kind::Integer),
];

/// The columns of `kept`.
const KEPT: [ColumnForm; 6] = [
    Optional(b"place", Kind::Integer),
    Wanted(b"topic", Kind::Text),
    Wanted(b"sender", Kind::Text),
    Wanted(b"pub", Kind::Integer),
    Wanted(b"qos", Kind::Integer),
    Wanted(b"arrived", Kind::Integer),
];

/// The number of a message is the row's third column, and while the row stands, so does the message.
const THIRD_OF_MESSAGE: ParentForm = ParentForm {
    at: 3,
    table: b"message",
    column: b"pub",
    on_delete: Action::NoAction,
};

/// The same of its fourth column.
const FOURTH_OF_MESSAGE: ParentForm = ParentForm {
    at: 4,
    table: b"message",
    column: b"pub",
    on_delete: Action::NoAction,
};

/// The forms of the tables that are added in a new database.
const NEW_TABLES: [TableForm; 3] = [
    TableForm {
        name: b"message",
        tree: 9,
        columns: &MESSAGE,
        key: Some(0),
        primary: &[0],
        uniques: &[],
        parents: &[],
    },
    TableForm {
        name: b"queued",
        tree: 10,
        columns: &QUEUED,
        key: None,
        primary: &[1, 2],
        uniques: &[&[1, 2]],
        parents: &[FIRST_OF_SESSION, THIRD_OF_MESSAGE],
    },
    TableForm {
        name: b"kept",
        tree: 12,
        columns: &KEPT,
        key: Some(0),
        primary: &[0],
        uniques: &[&[2]],
        parents: &[FOURTH_OF_MESSAGE],
    },
];

/// The same if the database had schema 1.
const LATE_TABLES: [TableForm; 3] = [
    TableForm {
        name: b"message",
        tree: 13,
        columns: &MESSAGE,
        key: Some(0),
        primary: &[0],
        uniques: &[],
        parents: &[],
    },
    TableForm {
        name: b"queued",
        tree: 14,
        columns: &QUEUED,
        key: None,
        primary: &[1, 2],
        uniques: &[&[1, 2]],
        parents: &[FIRST_OF_SESSION, THIRD_OF_MESSAGE],
    },
    TableForm {
        name: b"kept",
        tree: 16,
        columns: &KEPT,
        key: Some(0),
        primary: &[0],
        uniques: &[&[2]],
        parents: &[FOURTH_OF_MESSAGE],
    },
];

/// The forms of the indexes that are added in a new database.
const NEW_INDEXES: [IndexForm; 4] = [
    IndexForm {
        name: b"sqlite_autoindex_queued_1",
        tree: 11,
        table: 10,
        places: &[1, 2],
        is_unique: true,
    },
    IndexForm {
        name: b"sqlite_autoindex_kept_1",
        tree: 13,
        table: 12,
        places: &[2],
        is_unique: true,
    },
    IndexForm {
        name: b"queued_pub",
        tree: 14,
        table: 10,
        places: &[3],
        is_unique: false,
    },
    IndexForm {
        name: b"kept_pub",
        tree: 15,
        table: 12,
        places: &[4],
        is_unique: false,
    },
];

/// The same if the database had schema 1.
const LATE_INDEXES: [IndexForm; 4] = [
    IndexForm {
        name: b"sqlite_autoindex_queued_1",
        tree: 15,
        table: 14,
        places: &[1, 2],
        is_unique: true,
    },
    IndexForm {
        name: b"sqlite_autoindex_kept_1",
        tree: 17,
        table: 16,
        places: &[2],
        is_unique: true,
    },
    IndexForm {
        name: b"queued_pub",
        tree: 18,
        table: 14,
        places: &[3],
        is_unique: false,
    },
    IndexForm {
        name: b"kept_pub",
        tree: 19,
        table: 16,
        places: &[4],
        is_unique: false,
    },
];

/// The first of some items, as many as asked for, or all.
fn first_of<T>(items: &[T], count: usize) -> &[T]
    ensures { result.now ≡ take count items.now }
{
    match items.get(..count) {
        Some(first) => first,
        None => items,
    }
}

/// The forms of the tables that stand before.
fn base_tables(making: Making) -> &'static [TableForm]
    ensures { map table_of result.now ≡ (base_of making).tables }
{
    match making {
        Making::New => first_of(table_forms(), 5),
        Making::TakenOver => table_forms(),
    }
}

/// The forms of the indexes that stand before.
fn base_indexes(making: Making) -> &'static [IndexForm]
    ensures { map index_of result.now ≡ (base_of making).indexes }
{
    match making {
        Making::New => first_of(index_forms(), 4),
        Making::TakenOver => index_forms(),
    }
}

/// The forms of the tables that are added.
fn added_tables(making: Making) -> &'static [TableForm]
    ensures { map table_of result.now ≡ tables_from (free_tree making) }
{
    match making {
        Making::New => &NEW_TABLES,
        Making::TakenOver => &LATE_TABLES,
    }
}

/// The forms of the indexes that are added.
fn added_indexes(making: Making) -> &'static [IndexForm]
    ensures { map index_of result.now ≡ indexes_from (free_tree making) }
{
    match making {
        Making::New => &NEW_INDEXES,
        Making::TakenOver => &LATE_INDEXES,
    }
}

/// Whether a database has the tables and indexes of schema 2, made so, and nothing else.
pub fn is_second(schema: &Schema, making: Making) -> bool
    ensures { MatchBool result (schema.now ≡ second_schema making) (schema.now ≢ second_schema making) }
{
    have_both(
        schema.tables.as_slice(),
        base_tables(making),
        added_tables(making),
    ) && have_both(
        schema.indexes.as_slice(),
        base_indexes(making),
        added_indexes(making),
    ) && schema.views.is_empty()
}
