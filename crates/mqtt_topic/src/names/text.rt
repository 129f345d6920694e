//! Texts of packets out of any texts (MQTT 5.0, 1.5.4, 4.7.3).
ghost use Rattle.std.specs.Prelude.{◌≡◌, IfErr, IfOk};
ghost use Rattle.mqtt_topic.specs.names.Names.{RefusesText};

use crate::names::fault::TopicFault;
use mqtt_base::Text;
use std::alloc::Global;

/// A text that packets can carry.
pub(crate) fn text_of(alloc: Global, text: &str) -> Result<Text, TopicFault>
    ensures read { IfOk result (λ made. made ≡ text.now) }
    ensures refused { IfErr result (RefusesText text.now) }
{
    if !Text::may_hold(text) {
        return Err(TopicFault::NotText);
    }
    Text::new(alloc, text).map_err(|_| TopicFault::Memory)
}
