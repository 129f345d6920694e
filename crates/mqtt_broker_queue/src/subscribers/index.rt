//! The index of subscriptions, and how it routes a publication (MQTT 5.0, 3.3.4, 3.8, 4.8).
ghost use Rattle.std.specs.Prelude.{◌≡◌, [], List, true, OnOk, IfOk, IfErr};
ghost use Rattle.mqtt_base.specs.Service.{qos_number};
ghost use Rattle.mqtt_records.specs.state.Session.{birth_of};
ghost use Rattle.mqtt_records.specs.lists.Order.{IsAscending};
ghost use Rattle.mqtt_routes.specs.routing.Subscriptions.{Subscriber, AreInOrder, filters_of, have_room, with_some, without_session};
ghost use Rattle.mqtt_rules.specs.step.State.{MemberChoice};
ghost use Rattle.mqtt_rules.specs.step.Routing.{finds_place, next_publication};
ghost use Rattle.mqtt_broker_step.specs.Stepping.{env_in};
ghost use Rattle.mqtt_broker_step.specs.Undoing.{moment_of};
ghost use Rattle.mqtt_broker_queue.specs.subscribers.Indexing.{IsFound, IsTakenAs, Serves, all_copied};

use crate::publications::{Copies, Message, Router, Routing};
use crate::subscribers::copies::{copies_of, direct_copies};
use crate::subscribers::look::Look;
use mqtt_base::Qos;
use mqtt_broker_step::{Step, StepFault};
use mqtt_routes::{Routed, Routes, RoutesFault, Subscription};
use std::alloc::Global;
use std::hash::RandomState;
use std::marker::Model;

/// An index of the subscriptions of all sessions.
pub struct Index {
    pub(crate) routes: Routes<()>,
    /// The publications of the step under way for which groups took their turns, in order.
    pub(crate) turns: Vec<Routed>,
}

impl Model for Index {
    ghost use Rattle.mqtt_routes.specs.routing.Subscriptions.{HeldSessions};

    ghost Value = { HeldSessions };

    ghost view = { λ a. record { sessions = a.routes.table.sessions; room = a.routes.session_room } };
}

// Written out, so that who lets an index go needs no proof of its own for each type in it.
impl Drop for Index {
    fn drop(self) {
        let Index { routes, turns } = self;
        drop(routes);
        drop(turns);
    }
}

/// The number of a quality of service.
fn number_of(qos: Qos) -> u8
    ensures { result ≡ qos_number qos }
{
    match qos {
        Qos::AtMostOnce => 0,
        Qos::AtLeastOnce => 1,
        Qos::ExactlyOnce => 2,
    }
}

/// The client identifier of who publishes a message.
fn sender_of(message: &Message) -> &str
    ensures { result.now ≡ message.now.sender }
{
    message.sender().as_str()
}

/// Whether a message that is to be retained finds a place (ours).
fn finds_place(step: &Step, message: &Message) -> bool
    ensures { (choice : MemberChoice) → result
        ≡ finds_place (env_in choice step.now) message.now step.now.broker.records }
{
    if !message.retain() || message.payload().is_empty() {
        return true;
    }
    step.retained_place(message.topic().as_str().as_bytes())
        .is_some()
        || step.retained_count() < step.limits().retained as usize
}

impl Index {
    /// The index if no session has a subscription. Filters, which strangers choose, are hashed by
    /// `hasher`.
    pub fn new(alloc: Global, hasher: RandomState) -> Index
        ensures serves { (sessions : List Subscriber) → with_some sessions ≡ []
            → Serves result.sessions sessions }
        ensures empty { result.sessions ≡ [] }
    {
        Index {
            routes: Routes::new(alloc, hasher, mqtt_base::RETAINED_LIMIT),
            turns: Vec::new(alloc),
        }
    }

    /// Makes room for subscriptions of a session, so that none of them takes memory. What is served stays.
    pub fn make_room(&mut self, birth: u64, new: &[Subscription]) -> Result<(), StepFault>
        ensures serves { (sessions : List Subscriber) → Serves self.old.sessions sessions
            → Serves self.new.sessions sessions }
        ensures room { OnOk result (have_room birth (filters_of new.now) self.new.room ≡ true) }
        ensures fault { IfErr result (λ fault. fault ≡ StepFault.Memory) }
    {
        match self.routes.make_room(birth, new) {
            Ok(()) => Ok(()),
            Err(_) => Err(StepFault::Memory),
        }
    }

    /// A session that ended has no subscriptions (3.1.2.11.2). Takes no memory.
    pub fn drop_session(&mut self, birth: u64)
        ensures serves { (sessions : List Subscriber) → AreInOrder sessions
            → Serves self.old.sessions sessions
            → Serves self.new.sessions (without_session birth sessions) }
    {
        self.routes.drop_session(birth);
    }

    /// Where a publication goes; nowhere if a queue that it needs has no room.
    fn find(&self, step: &Step, message: &Message) -> Result<Option<Routed>, StepFault>
        ensures found { IfOk result (IsFound message.now step.now self.now.sessions) }
        ensures fault { IfErr result (λ fault. fault ≡ StepFault.Memory) }
    {
        let sender = sender_of(message);
        let name = message.topic();
        let qos = number_of(message.qos());
        let retain = message.retain();
        match self.routes.route(sender, name, qos, retain, &Look { step }) {
            Ok(routed) => Ok(Some(routed)),
            Err(RoutesFault::Full) => Ok(None),
            Err(RoutesFault::Memory) => Err(StepFault::Memory),
        }
    }

    /// Notes the members that a publication chose, until the step is stored or taken back.
    fn chose(&mut self, routed: Routed) -> Result<(), StepFault>
        ensures same { self.new ≡ self.old }
        ensures fault { IfErr result (λ fault. fault ≡ StepFault.Memory) }
    {
        if routed.served().is_empty() {
            return Ok(());
        }
        self.turns.reserve(1)?;
        self.routes.chose(&routed);
        Ok(self.turns.push(routed)?)
    }

    /// The step is stored: the turns that groups took in it stay (4.8.2). Takes no memory.
    pub fn settle(&mut self)
        ensures { self.new ≡ self.old }
    {
        self.turns.clear();
    }

    /// The step is taken back, and so are the turns that groups took in it. Takes no memory.
    pub fn take_back(&mut self)
        ensures { self.new ≡ self.old }
    {
        for routed in self.turns.iter().rev() {
            self.routes.forgo(routed);
        }
        self.settle();
    }

    /// An index that is made anew in place of another goes on with the turns of its groups. Takes no memory.
    pub fn keep_turns(&mut self, other: &Index)
        ensures { self.new ≡ self.old }
    {
        self.routes.keep_turns(&other.routes);
    }
}

/// The copies of a publication that is accepted as it was routed.
fn accepted(
    alloc: Global,
    step: &Step,
    message: &Message,
    routed: &Routed,
) -> Result<Copies, StepFault>
    ensures copies { IfOk result (λ copies. copies
        ≡ all_copied (next_publication step.now.broker.records) (moment_of step.now.broker)
        message.now routed.now) }
    ensures fault { IfErr result (λ fault. fault ≡ StepFault.Memory) }
    ensures order { IsAscending birth_of step.now.broker.records.sessions }
{
    step.show_order();

    // No publication has a number that fits no `u64`: the step would give none above `LAST_NUMBER`.
    let Some(number) = step.publications().checked_add(1) else {
        return Err(StepFault::Memory);
    };
    copies_of(alloc, number, step.moment(), message, routed)
}

/// A publication is accepted as it was routed, to no group.
fn take_direct(
    alloc: Global,
    step: &Step,
    message: &Message,
    routed: Routed,
) -> Result<Routing, StepFault>
    requires { routed.served ≡ [] }
    ensures taken { IfOk result (IsTakenAs message.now step.now routed) }
    ensures fault { IfErr result (λ fault. fault ≡ StepFault.Memory) }
    ensures order { IsAscending birth_of step.now.broker.records.sessions }
{
    step.show_order();

    // No publication has a number that fits no `u64`: the step would give none above `LAST_NUMBER`.
    let Some(number) = step.publications().checked_add(1) else {
        drop(routed);
        return Err(StepFault::Memory);
    };
    let wanted = routed.has_takers();
    match direct_copies(alloc, number, step.moment(), message, routed) {
        Ok(copies) => Ok(Routing::Accepted { copies, wanted }),
        Err(fault) => Err(fault),
    }
}

impl Index {
    /// A publication is accepted as it was routed, and the members that were chosen are noted.
    fn take(
        &mut self,
        alloc: Global,
        step: &Step,
        message: &Message,
        routed: Routed,
    ) -> Result<Routing, StepFault>
        ensures taken { IfOk result (IsTakenAs message.now step.now routed) }
        ensures fault { IfErr result (λ fault. fault ≡ StepFault.Memory) }
        ensures order { IsAscending birth_of step.now.broker.records.sessions }
        ensures same { self.new ≡ self.old }
    {
        if routed.served().is_empty() {
            return take_direct(alloc, step, message, routed);
        }
        match accepted(alloc, step, message, &routed) {
            Ok(copies) => {
                let wanted = routed.has_takers();
                match self.chose(routed) {
                    Ok(()) => Ok(Routing::Accepted { copies, wanted }),
                    Err(fault) => {
                        drop(copies);
                        Err(fault)
                    }
                }
            }
            Err(fault) => {
                drop(routed);
                Err(fault)
            }
        }
    }
}

impl Router for Index {
    ghost use Rattle.mqtt_broker_queue.specs.subscribers.Indexing.{Serves};

    ghost serves = { λ index sessions. Serves index.sessions sessions };

    fn route(
        &mut self,
        alloc: Global,
        step: &Step,
        message: &Message,
    ) -> Result<Routing, StepFault> {
        if !finds_place(step, message) {
            return Ok(Routing::Refused);
        }
        match self.find(step, message) {
            Ok(Some(routed)) => self.take(alloc, step, message, routed),
            Ok(None) => Ok(Routing::Refused),
            Err(fault) => Err(fault),
        }
    }

    fn forgo_choices(&mut self) {
        self.take_back();
    }
}
