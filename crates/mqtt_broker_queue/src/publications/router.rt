//! Who gets a copy of a publication (MQTT 5.0, 3.3.4, 4.8).
ghost use Rattle.std.specs.Prelude.{◌≡◌, List, IfOk, IfErr};
ghost use Rattle.mqtt_routes.specs.routing.Subscriptions.{Subscriber};
ghost use Rattle.mqtt_rules.specs.step.Routing.{subscribers};
ghost use Rattle.mqtt_broker_queue.specs.publications.Choosing.{IsLawfulMessage, IsRouted};

use crate::publications::copies::Copies;
use crate::publications::message::Message;
use mqtt_broker_step::{Step, StepFault};
use std::alloc::Global;

/// Where a publication goes.
#[derive(Drop)]
pub enum Routing {
    /// A queue, or the table of retained messages, has no room for it (ours).
    Refused,
    /// It is accepted.
    Accepted {
        /// Its copies, each with the birth of its session in its name.
        copies: Copies,
        /// Whether somebody is there for it.
        wanted: bool,
    },
}

/// An index of the subscriptions of all sessions, by which publications are routed.
pub trait Router: Drop {
    /// It is the index of the subscriptions of these sessions.
    ghost serves: { Self → List Subscriber → Type 0 };

    /// Routes a publication, and chooses a member of each group that gets it (3.3.4, 4.8). `Memory` (1) alone
    /// refuses, and nothing is chosen.
    fn route(&mut self, alloc: Global, step: &Step, message: &Message) -> Result<Routing, StepFault>
        requires serves { serves self.old (subscribers step.now.broker.records) }
        requires lawful { IsLawfulMessage message.now }
        ensures routed { IfOk result (IsRouted message.now step.now) }
        ensures fault { IfErr result (λ fault. fault ≡ StepFault.Memory) }
        ensures serves { (sessions : List Subscriber) → serves self.old sessions
            → serves self.new sessions };

    /// The step under way is taken back, and so are the choices of members that `route` made in it: each group goes on
    /// from where it was before the step. No clause sees that, since any choice is right; it is tested. Takes no memory.
    fn forgo_choices(&mut self)
        ensures serves { (sessions : List Subscriber) → serves self.old sessions
            → serves self.new sessions };
}
