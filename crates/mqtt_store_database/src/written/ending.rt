//! Which changes of a step are written: copies that are removed just before their session is go with it (4.1).
ghost use Rattle.std.specs.Prelude.{◌≡◌, ◌∷◌};
ghost use Rattle.mqtt_store_database.specs.written.Shortened.{KnowsEnd, ends_session, goes_anyway, goes_by};

use mqtt_records::Change;

/// What is known of the changes to come: whether they remove copies of this session, and then the session itself.
#[derive(Clone, Copy)]
pub struct Known {
    birth: u64,
    ends: bool,
}

/// Whether copies of the session are removed, and then the session itself.
fn ends_session(birth: u64, changes: &[Change]) -> bool
    ensures { result ≡ ends_session birth changes.now }
{
    let mut rest = changes;
    while let Some((change, after)) = rest.split_first() {
        match change {
            Change::RemoveCopy { birth: other, .. } => {
                if *other != birth {
                    return false;
                }
            }
            Change::RemoveSession { birth: other } => return *other == birth,
            _ => return false,
        }
        rest = after;
    }
    false
}

/// What is known behind a change, if this was known before it: copies of a session are looked through once.
pub fn known_behind(known: Option<Known>, change: &Change, after: &[Change]) -> Option<Known>
    requires { KnowsEnd known (change.now ∷ after.now) }
    ensures known { KnowsEnd result after.now }
    ensures goes { goes_by result ≡ goes_anyway change.now after.now }
{
    match change {
        Change::RemoveCopy { birth, .. } => {
            let ends = match known {
                Some(known) if known.birth == *birth => known.ends,
                _ => ends_session(*birth, after),
            };
            Some(Known {
                birth: *birth,
                ends,
            })
        }
        _ => None,
    }
}

/// Whether the change in front goes with its session.
pub fn goes_by(known: Option<Known>) -> bool
    ensures { result ≡ goes_by known }
{
    match known {
        Some(known) => known.ends,
        None => false,
    }
}
