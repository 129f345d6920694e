//! Retained messages that there may be (3.3.1.3).
use crate::lawful::message::is_message;
use crate::lawful::rows::{Last, Lawful, is_up_to};
use mqtt_base::LAST_NUMBER;
use mqtt_props::Place;
use mqtt_records::RetainedMessage;
use std::alloc::{AllocError, Global};

impl Lawful for RetainedMessage {
    type Within = Last;

    ghost use Rattle.mqtt_keep.specs.lawful.Lawful.{IsLawfulRetained};

    ghost is_lawful_within = { λ last kept. IsLawfulRetained last kept };

    fn is_lawful(&self, _: Global, last: Last) -> Result<bool, AllocError> {
        let is_numbered = is_up_to(LAST_NUMBER, self.place)
            && is_up_to(last.publications, self.publication)
            && self.content.arrived <= last.moment;
        let content = &self.content;
        let properties = content.properties.lend();
        Ok(
            is_numbered
                && is_message(
                    Place::Publish,
                    &content.topic,
                    &properties,
                    &content.payload,
                )?,
        )
    }
}
