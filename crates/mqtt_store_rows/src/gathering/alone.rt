//! Whether a session is lawful with its queue, apart from all others (4.1).
ghost use Rattle.std.specs.Prelude.{◌≡◌, ◌↔◌, IfOk, IsTrue};
ghost use Rattle.mqtt_records.specs.state.Contents.{SharesContents};
ghost use Rattle.mqtt_records.specs.state.Session.{with_all_slim};
ghost use Rattle.mqtt_keep.specs.lawful.Lawful.{AreNumbers, IsLawfulSession};
ghost use Rattle.mqtt_store_rows.specs.gathering.Alone.{last_in, alone};

use crate::values::Counters;
use mqtt_base::SESSION_LIMIT;
use mqtt_keep::is_lawful;
use mqtt_records::{Boxed, Records, Rows, Session};
use std::alloc::{AllocError, Global};

/// Records with this session alone.
fn records_alone(alloc: Global, numbers: Counters, session: Session) -> Result<Records, AllocError>
    ensures { IfOk result (λ r. r ≡ alone numbers session) }
{
    let mut sessions = Rows::new(alloc)?;
    sessions.put(Boxed::new(alloc, session)?);
    Ok(Records {
        births: numbers.births,
        publications: numbers.publications,
        subscribes: numbers.subscribes,
        autos: numbers.autos,
        moment: numbers.moment,
        sessions,
        retained: Rows::new(alloc)?,
    })
}

/// Whether a session is lawful, apart from all others, and the session, slim.
pub(crate) fn judged(
    alloc: Global,
    numbers: Counters,
    session: Session,
) -> Result<(bool, Boxed<Session>), AllocError>
    requires numbers { AreNumbers (last_in numbers) }
    requires shared { SharesContents (alone numbers session) }
    ensures exact { IfOk result (λ x. IsTrue x.0 ↔ IsLawfulSession (last_in numbers) session) }
    ensures slim { IfOk result (λ x. x.1 ≡ with_all_slim session) }
{
    let birth = session.birth;
    let mut records = records_alone(alloc, numbers, session)?;
    let lawful = is_lawful(alloc, &records)?;
    records.make_all_slim();
    match records.sessions.take(birth) {
        Some(slim) => Ok((lawful, slim)),
        None => Err(AllocError),
    }
}
