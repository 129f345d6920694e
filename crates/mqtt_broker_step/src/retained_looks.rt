//! Looks for retained messages (MQTT 5.0, 3.3.1.3).
ghost use Rattle.std.specs.Prelude.{◌≡◌, ◌<◌, length, map, find, option_map, option_copied, IfOk, IfErr};
ghost use Rattle.mqtt_base.specs.declared.limits.TheConstants.{LAST_NUMBER as last_number};
ghost use Rattle.mqtt_records.specs.state.Records.{kept_place};
ghost use Rattle.mqtt_routes.specs.routing.Intended.{greatest};
ghost use Rattle.mqtt_rules.specs.step.State.{next_of};
ghost use Rattle.mqtt_rules.specs.step.Routing.{is_topic, place_of_kept, retained_of};

use crate::fault::StepFault;
use crate::numbers::next;
use crate::step::Step;
use mqtt_base::RETAINED_LIMIT;
use mqtt_records::{Boxed, RetainedMessage, Rows};

/// Whether a retained message is of a topic.
fn is_topic(kept: &RetainedMessage, topic: &[u8]) -> bool
    ensures { result ≡ is_topic topic.now kept.now }
{
    kept.content.topic.as_str().as_bytes() == topic
}

/// The message that is retained for a topic.
fn retained_of<'a>(
    retained: &'a Rows<Boxed<RetainedMessage>, RETAINED_LIMIT>,
    topic: &[u8],
) -> Option<&'a Boxed<RetainedMessage>>
    ensures { option_copied result ≡ find (is_topic topic.now) retained.now }
{
    let kept = retained.as_slice();
    kept.iter().find(|kept| is_topic(kept.get(), topic))
}

/// The greatest place of a retained message; 0 if none is retained.
fn last_place(retained: &Rows<Boxed<RetainedMessage>, RETAINED_LIMIT>) -> u64
    ensures { result ≡ greatest (map kept_place retained.now) }
{
    retained.as_slice();
    match retained.last() {
        Some(kept) => kept.get().place,
        None => 0,
    }
}

impl Step {
    /// How many messages are retained. Takes no memory.
    pub fn retained_count(&self) -> usize
        ensures { result ≡ length self.now.broker.records.retained }
    {
        self.tables.records().retained.len()
    }

    /// The place of the message that is retained for a topic. Takes no memory.
    pub fn retained_place(&self, topic: &[u8]) -> Option<u64>
        ensures { result ≡ option_map kept_place
            (retained_of topic.now self.now.broker.records) }
    {
        match retained_of(&self.tables.records().retained, topic) {
            Some(kept) => Some(kept.get().place),
            None => None,
        }
    }

    /// The next place of a retained message. `Spent` (3) if it would be above `LAST_NUMBER`. Takes no
    /// memory.
    pub fn next_retained(&self) -> Result<u64, StepFault>
        ensures next { IfOk result (λ place. place
            ≡ next_of kept_place self.now.broker.records.retained) }
        ensures spent { IfErr result (λ fault. (fault ≡ StepFault.Spent)
            × (last_number < next_of kept_place self.now.broker.records.retained)) }
    {
        next(last_place(&self.tables.records().retained))
    }

    /// The place that a message of a topic is retained at: that of the one before it, or else the next
    /// (3.3.1.3). `Spent` (3) if it would be above `LAST_NUMBER`. Takes no memory.
    pub fn place_for(&self, topic: &[u8]) -> Result<u64, StepFault>
        ensures place { IfOk result (λ place. place
            ≡ place_of_kept (retained_of topic.now self.now.broker.records)
            self.now.broker.records.retained) }
        ensures spent { IfErr result (λ fault. (fault ≡ StepFault.Spent)
            × (last_number < place_of_kept (retained_of topic.now self.now.broker.records)
            self.now.broker.records.retained)) }
    {
        match self.retained_place(topic) {
            Some(place) => Ok(place),
            None => self.next_retained(),
        }
    }
}
