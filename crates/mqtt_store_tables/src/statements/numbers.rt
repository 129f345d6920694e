//! The statement on the store's numbers.
ghost use Rattle.std.specs.Prelude.{◌≡◌, ◌<◌, ◌^◌, ℕ, ℤ, ◌∷◌};
ghost use Rattle.sqlite_value.specs.declared.value.Value.TheVariants.{Int};
ghost use Rattle.sqlite_rules.specs.Lists.{Has};
ghost use Rattle.sqlite.specs.Held.{state};
ghost use Rattle.mqtt_store_tables.specs.forms.Settled.{StaysInside};
ghost use Rattle.mqtt_store_tables.specs.statements.Layout.{Layout, IsLayout};
ghost use Rattle.mqtt_store_tables.specs.statements.Writing.{Writes, StaysWhole};
ghost use Rattle.mqtt_store_tables.specs.statements.Content.{IsWhole};
ghost use Rattle.mqtt_store_tables.specs.statements.Numbers.{number_row, SetsNumber};

use crate::statements::sessions::whole;
use sqlite::{Alter, Error, Transaction, params};

/// Sets the number of that name, which must stand.
pub fn set_number<S: Alter>(
    tx: &mut Transaction<'_, S>,
    name: &str,
    value: u64,
) -> Result<usize, Error>
    requires { value < 2 ^ 63 }
    ensures same_reference { tx.new.conn.ghost_name ≡ tx.old.conn.ghost_name }
    ensures set { (l : Layout) → IsLayout l → (id : ℤ) (n : ℕ)
        → Has ((state S.Store tx.old.conn.now).now.trees 0) (Int id ∷ number_row name.now n)
        → Writes S.Store tx.old.conn.now tx.new.conn.now result (IsWhole l)
        (SetsNumber l name.now value id) }

    // If no row has that name nothing is set.
    ensures whole { (l : Layout) → IsLayout l → StaysWhole l S.Store tx.old.conn.now tx.new.conn.now result }
    ensures inside { StaysInside (state S.Store tx.old.conn.now) (state S.Store tx.new.conn.now) }
{
    let value = whole(value);
    tx.execute(
        "UPDATE meta SET n = ?2 WHERE name = ?1",
        params![name, value],
    )
}
