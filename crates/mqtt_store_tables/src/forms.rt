//! The tables of the SQL store (4.1).

mod asking;
mod columns;
mod making;
mod schema;
mod tables;

pub use self::asking::{is_empty, schema_said};
pub use self::columns::{ColumnForm, Formed, ParentForm, all_have, have_both};
pub use self::making::make_tables;
pub use self::schema::{FIRST_OF_SESSION, StoreTable, index_forms, is_schema, table_forms};
pub use self::tables::{IndexForm, TableForm};
