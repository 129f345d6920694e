//! What routing asks of the sessions of a step (MQTT 5.0, 3.8.3.1, 4.8.2, 4.9).
use crate::queues::room;
use mqtt_broker_step::Step;
use mqtt_routes::Sessions;
use std::marker::Model;

/// The sessions of a step.
#[derive(Drop)]
pub(crate) struct Look<'a> {
    pub(crate) step: &'a Step,
}

impl<'a> Model for Look<'a> {
    ghost use Rattle.mqtt_broker_step.specs.Stepping.{Stepping};

    ghost Value = { Stepping };

    ghost view = { λ a. a.step.now };
}

impl<'a> Sessions for Look<'a> {
    ghost use Rattle.mqtt_broker_queue.specs.subscribers.Indexing.{answers_in};

    ghost answers = { answers_in };

    fn room(&self, birth: u64) -> u32 {
        match self.step.session(birth) {
            Some(session) => room(self.step, session),
            None => 0,
        }
    }

    fn connected(&self, birth: u64) -> bool {
        match self.step.session(birth) {
            Some(session) => session.closed.is_none(),
            None => false,
        }
    }

    fn is_named(&self, birth: u64, client: &str) -> bool {
        match self.step.session(birth) {
            Some(session) => session.client.as_str() == client,
            None => false,
        }
    }
}
