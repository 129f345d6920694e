//! Messages that go once nothing refers to them.
ghost use Rattle.std.specs.Prelude.{◌≡◌, [], ◌∷◌, ◌++◌, option_to_list};
ghost use Rattle.sqlite.specs.Held.{state};
ghost use Rattle.mqtt_store_tables.specs.forms.Settled.{StaysInside};
ghost use Rattle.mqtt_store_tables.specs.messages.Letting.{SweepsAll};
ghost use Rattle.mqtt_store_tables.specs.messages.Changing.{ChangesBy};

use crate::messages::messages::sweep_message;
use crate::messages::sizes::fits;
use sqlite::{Alter, Error, ErrorCode, Transaction};

/// Removes the message of a publication, if nothing refers to it. `TooBig` if SQL has no such
/// number, which no row can have then.
fn sweep_number<S: Alter>(tx: &mut Transaction<'_, S>, publication: u64) -> Result<(), Error>
    ensures same_reference { tx.new.conn.ghost_name ≡ tx.old.conn.ghost_name }
    ensures swept { ChangesBy S.Store tx.old.conn.now tx.new.conn.now result
        (λ making. SweepsAll making (publication ∷ [])) }
    ensures inside { StaysInside (state S.Store tx.old.conn.now) (state S.Store tx.new.conn.now) }
{
    if !fits(publication) {
        return Err(Error::SqliteFailure(ErrorCode::TooBig));
    }
    match sweep_message(tx, publication) {
        Ok(_) => Ok(()),
        Err(error) => Err(error),
    }
}

/// Removes the message whose number was found, if one was and nothing refers to it.
pub(crate) fn sweep_found<S: Alter>(
    tx: &mut Transaction<'_, S>,
    found: Option<u64>,
) -> Result<(), Error>
    ensures same_reference { tx.new.conn.ghost_name ≡ tx.old.conn.ghost_name }
    ensures swept { ChangesBy S.Store tx.old.conn.now tx.new.conn.now result
        (λ making. SweepsAll making (option_to_list found)) }
    ensures inside { StaysInside (state S.Store tx.old.conn.now) (state S.Store tx.new.conn.now) }
{
    match found {
        Some(publication) => sweep_number(tx, publication),
        None => Ok(()),
    }
}

/// Removes the messages whose numbers were found, if any were and nothing refers to them.
pub(crate) fn sweep_both<S: Alter>(
    tx: &mut Transaction<'_, S>,
    one: Option<u64>,
    other: Option<u64>,
) -> Result<(), Error>
    ensures same_reference { tx.new.conn.ghost_name ≡ tx.old.conn.ghost_name }
    ensures swept { ChangesBy S.Store tx.old.conn.now tx.new.conn.now result
        (λ making. SweepsAll making (option_to_list one ++ option_to_list other)) }
    ensures inside { StaysInside (state S.Store tx.old.conn.now) (state S.Store tx.new.conn.now) }
{
    sweep_found(tx, one)?;
    if other == one {
        return Ok(());
    }
    sweep_found(tx, other)
}

/// Removes the messages of these numbers to which nothing refers.
pub(crate) fn sweep_all<S: Alter>(tx: &mut Transaction<'_, S>, numbers: &[u64]) -> Result<(), Error>
    ensures same_reference { tx.new.conn.ghost_name ≡ tx.old.conn.ghost_name }
    ensures swept { ChangesBy S.Store tx.old.conn.now tx.new.conn.now result
        (λ making. SweepsAll making numbers.now) }
    ensures inside { StaysInside (state S.Store tx.old.conn.now) (state S.Store tx.new.conn.now) }
{
    for publication in numbers {
        sweep_number(tx, *publication)?;
    }
    Ok(())
}
