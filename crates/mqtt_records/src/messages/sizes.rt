//! How many bytes properties take, and how long a message is kept (2.2.2, 3.3.2.3).
ghost use Rattle.std.specs.Prelude.{◌≡◌, length, map, MatchOption, OnSome};
ghost use Rattle.mqtt_props.specs.declared.table.PropName.TheVariants.{MessageExpiryInterval};
ghost use Rattle.mqtt_props.specs.Properties.{FitsBlock, props};
ghost use Rattle.mqtt_records.specs.messages.PassedOn.{identified, number_at, sent_after};

use crate::messages::properties::number_in;
use mqtt_base::{VARINT_LIMIT, varint_len};
use mqtt_props::{PropName, PropsRef};

/// The Message Expiry Interval of a list, in seconds, if it has one (3.3.2.3.3).
pub(crate) fn expiry_in(list: &PropsRef<'_>) -> Option<u32>
    ensures { result ≡ number_at MessageExpiryInterval list.now }
{
    match list.get(PropName::MessageExpiryInterval) {
        Some(prop) => Some(number_in(prop.value)),
        None => None,
    }
}

/// How many bytes the pairs of a list take.
pub(crate) fn pairs_len(list: &PropsRef<'_>) -> usize
    ensures value { result ≡ length (props list.now) }
    ensures fits { FitsBlock list.now }
{
    let block = list.block_len();
    if block <= 128 {
        block - 1
    } else if block <= 16_385 {
        block - 2
    } else if block <= 2_097_154 {
        block - 3
    } else {
        block - 4
    }
}

/// How many bytes Subscription Identifiers take, if they have a spelling as a block.
fn identifiers_len(identifiers: &[u32]) -> Option<usize>
    ensures value { MatchOption result (¬ FitsBlock (map identified identifiers.now))
        (λ len. len ≡ length (props (map identified identifiers.now))) }
    ensures fits { OnSome result (FitsBlock (map identified identifiers.now)) }
{
    let mut len = 0;
    let mut rest = identifiers;
    while let Some((identifier, after)) = rest.split_first() {
        if *identifier >= VARINT_LIMIT {
            return None;
        }
        len += 1 + varint_len(*identifier);
        if len >= VARINT_LIMIT as usize {
            return None;
        }
        rest = after;
    }
    Some(len)
}

/// How many bytes the properties of a copy take as they are sent, their length left out, if they have a
/// spelling as a block (2.2.2, 3.3.2.3). Takes no memory.
pub fn sent_len(list: &PropsRef<'_>, identifiers: &[u32]) -> Option<usize>
    ensures value { MatchOption result (¬ FitsBlock (sent_after 0 identifiers.now list.now))
        (λ len. len ≡ length (props (sent_after 0 identifiers.now list.now))) }
    ensures fits { OnSome result (FitsBlock (sent_after 0 identifiers.now list.now)) }
{
    let pairs = pairs_len(list);
    let Some(own) = identifiers_len(identifiers) else {
        return None;
    };
    let len = pairs + own;
    if len < VARINT_LIMIT as usize {
        Some(len)
    } else {
        None
    }
}
