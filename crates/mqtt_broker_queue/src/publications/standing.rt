//! What the identifier of a PUBLISH is (MQTT 5.0, 4.3.3, 4.9).
ghost use Rattle.std.specs.Prelude.{◌≡◌};
ghost use Rattle.mqtt_flow.specs.inbound.Inbound.{IsOpenList, answer_to};
ghost use Rattle.mqtt_rules.specs.step.Inbound.{standing};

use mqtt_base::OPEN_LIMIT;
use mqtt_flow::{Published, would_publish};
use mqtt_packet::Delivery;
use mqtt_records::{Rows, Session};

/// The open identifiers, lent.
fn ids(inbound: &Rows<u16, OPEN_LIMIT>) -> &[u16]
    ensures ids { result.now ≡ inbound.now }
    ensures lawful { IsOpenList inbound.now }
{
    inbound.as_slice()
}

/// What a PUBLISH with this identifier is, by those that are open.
fn of_identifier(session: &Session, identifier: u16) -> Published
    ensures { result ≡ answer_to identifier session.now.inbound }
{
    would_publish(ids(&session.inbound), identifier)
}

/// What the identifier of a PUBLISH is; at QoS 0 it has none (4.3).
pub(crate) fn standing(session: &Session, delivery: Delivery) -> Published
    ensures { result ≡ standing delivery session.now.inbound }
{
    match delivery {
        Delivery::AtMostOnce => Published::New,
        Delivery::AtLeastOnce { identifier, .. } => of_identifier(session, identifier),
        Delivery::ExactlyOnce { identifier, .. } => of_identifier(session, identifier),
    }
}
