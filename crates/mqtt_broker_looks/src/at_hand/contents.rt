//! What copies say, in order, and put beside their places (MQTT 5.0, 3.3).
ghost use Rattle.std.specs.Prelude.{◌≡◌, IfOk, IsTrue};
ghost use Rattle.mqtt_flow.specs.ring.AtHand.{Ascend};
ghost use Rattle.mqtt_broker_looks.specs.at_hand.Hand.{by_place, first_at};

use mqtt_records::CopyContent;
use std::alloc::{AllocError, Global};

/// Whether the places ascend.
pub(crate) fn are_in_order(contents: &[CopyContent]) -> bool
    ensures { IsTrue result → Ascend (by_place contents.now) }
{
    contents.is_sorted_by(|content, next| content.place() < next.place())
}

/// Each beside its place.
pub(crate) fn with_places(
    alloc: Global,
    contents: Vec<CopyContent>,
) -> Result<Vec<(u64, CopyContent)>, AllocError>
    ensures { IfOk result (λ entries. entries.items ≡ by_place contents.items) }
{
    let mut entries = Vec::with_capacity(alloc, contents.len())?;
    for content in contents {
        entries.push((content.place(), content))?;
    }
    Ok(entries)
}

/// What the first one says, if it is of that place.
pub(crate) fn first_at(
    contents: &[CopyContent],
    place: u64,
) -> Result<Option<CopyContent>, AllocError>
    ensures { IfOk result (λ first. first ≡ first_at place contents.now) }
{
    let Some(content) = contents.first() else {
        return Ok(None);
    };
    if content.place() != place {
        return Ok(None);
    }
    Ok(Some(content.clone()?))
}
