//! What the rows start from: sessions 1 to 6 and a publication to `a/b` (MQTT 5.0, 3.3.4, 4.8.2).
ghost use Rattle.std.specs.Prelude.{cond, ◌&&◌, not, nat_eq, bytes_eq, codes};
ghost use Rattle.std.specs.List.{list_any};

use mqtt_base::{Qos, RETAINED_LIMIT, RetainHandling, SubscriptionOptions};
use mqtt_routes::{Routed, RoutedCopy, Routes, RoutesFault, Sessions, Subscription};
use mqtt_topic::{SubFilter, TopicFault, TopicName};
use std::alloc::Global;
use std::hash::RandomState;
use std::test::Fail;

/// Sessions that have room and are connected, but for some. Session 1 is `one`.
#[derive(Clone, Copy)]
pub(crate) struct World {
    /// The births of those whose queues are full.
    pub(crate) full: [u64; 2],
    /// The births of those that aren't connected.
    pub(crate) away: [u64; 2],
}

/// All have room and are connected.
pub(crate) const ALL: World = World {
    full: [0; 2],
    away: [0; 2],
};

impl Sessions for World {
    ghost answers = { λ w. record {
      room = λ birth. cond (list_any (λ x. nat_eq x birth) w.full) 0 1000;
      is_connected = λ birth. not (list_any (λ x. nat_eq x birth) w.away);
      is_named = λ birth client. nat_eq birth 1 && bytes_eq client (codes "one");
    } };

    fn room(&self, birth: u64) -> u32 {
        if self.full.contains(&birth) { 0 } else { 1000 }
    }

    fn connected(&self, birth: u64) -> bool {
        !self.away.contains(&birth)
    }

    fn is_named(&self, birth: u64, client: &str) -> bool {
        birth == 1 && client == "one"
    }
}

/// A table, and the topic of the publications.
#[derive(Drop)]
pub(crate) struct Bed {
    pub(crate) routes: Routes<u8>,
    topic: TopicName,
}

/// What is seen of a copy: birth, QoS, RETAIN and how many identifiers it has.
pub(crate) type Copied = (u64, Qos, bool, usize);

/// The qualities of service by their numbers.
pub(crate) const ZERO: Qos = Qos::AtMostOnce;
/// 1.
pub(crate) const ONE: Qos = Qos::AtLeastOnce;
/// 2.
pub(crate) const TWO: Qos = Qos::ExactlyOnce;

/// What is seen of a copy that isn't there.
pub(crate) const NONE: Copied = (0, ZERO, false, 0);

/// What is seen of a routing.
#[derive(Clone, Copy, Debug, PartialEq, Eq)]
pub(crate) struct Seen {
    /// The direct copies, if there are one or two; the last is `NONE` if there is one.
    pub(crate) direct: [Copied; 2],
    /// The birth of the member that each of at most two groups chose; 0 if it chose none.
    pub(crate) chosen: [u64; 2],
    /// The QoS of the first group's copy.
    pub(crate) qos: Qos,
    /// Whether somebody was there.
    pub(crate) taken: bool,
}

fn copied(copy: Option<&RoutedCopy>) -> Copied {
    match copy {
        Some(copy) => (
            copy.birth(),
            copy.qos(),
            copy.retain(),
            copy.identifiers().len(),
        ),
        None => NONE,
    }
}

fn outline(routed: &Routed) -> Seen {
    let direct = routed.direct();
    let served = routed.served();
    let first = match served.first() {
        Some(one) => copied(one.copy()),
        None => NONE,
    };
    let second = match served.get(1) {
        Some(one) => copied(one.copy()),
        None => NONE,
    };
    Seen {
        direct: [copied(direct.first()), copied(direct.get(1))],
        chosen: [first.0, second.0],
        qos: first.1,
        taken: routed.has_takers(),
    }
}

impl Bed {
    /// A table without subscriptions and messages.
    pub(crate) fn new(rt: &HostRuntime) -> Result<Bed, Fail> {
        let hasher = RandomState::new(rt)?;
        let topic = TopicName::parse(rt.alloc(), "a/b")?;
        Ok(Bed {
            routes: Routes::new(rt.alloc(), hasher, RETAINED_LIMIT),
            topic,
        })
    }

    /// What a publication with RETAIN of a sender brings, without being accepted.
    pub(crate) fn ask(&self, sender: &str, qos: u8, world: &World) -> Result<Seen, RoutesFault> {
        let routed = self.routes.route(sender, &self.topic, qos, true, world)?;
        let answer = outline(&routed);
        drop(routed);
        Ok(answer)
    }

    /// The QoS and the identifiers of the first direct copy; no identifier if it hasn't three.
    pub(crate) fn identifiers(&self) -> Result<(Qos, [u32; 3]), RoutesFault> {
        let routed = self.routes.route("p", &self.topic, 2, false, &ALL)?;
        let mut seen = (ZERO, [0; 3]);
        if let Some(copy) = routed.direct().first() {
            if let [first, second, third] = copy.identifiers() {
                seen = (copy.qos(), [*first, *second, *third]);
            }
        }
        drop(routed);
        Ok(seen)
    }

    /// The same, with the publication accepted.
    pub(crate) fn accept(&mut self, qos: u8, world: &World) -> Result<Seen, RoutesFault> {
        let routed = self.routes.route("p", &self.topic, qos, true, world)?;
        let answer = outline(&routed);
        self.routes.chose(&routed);
        drop(routed);
        Ok(answer)
    }

    /// The same, with the turns that were noted taken back.
    pub(crate) fn forgo(&mut self, qos: u8, world: &World) -> Result<Seen, RoutesFault> {
        let routed = self.routes.route("p", &self.topic, qos, true, world)?;
        let answer = outline(&routed);
        self.routes.chose(&routed);
        self.routes.forgo(&routed);
        drop(routed);
        Ok(answer)
    }

    /// Goes on with the turns of another table.
    pub(crate) fn keep_turns(&mut self, other: &Bed) {
        self.routes.keep_turns(&other.routes);
    }

    /// Puts a subscription without No Local and Retain As Published.
    pub(crate) fn subscribe(
        &mut self,
        alloc: Global,
        birth: u64,
        filter: &str,
        place: u64,
        qos: Qos,
    ) -> Result<(), Fail> {
        let new = subscription(alloc, filter, place, qos)?;
        Ok(self.routes.subscribe(birth, new)?)
    }
}

/// A subscription without No Local, Retain As Published and identifier.
pub(crate) fn subscription(
    alloc: Global,
    filter: &str,
    place: u64,
    qos: Qos,
) -> Result<Subscription, TopicFault> {
    Ok(Subscription {
        filter: SubFilter::parse(alloc, filter)?,
        place,
        options: SubscriptionOptions {
            qos,
            no_local: false,
            retain_as_published: false,
            retain_handling: RetainHandling::SendAlways,
        },
        identifier: None,
    })
}

/// The same with an identifier.
pub(crate) fn identified(
    alloc: Global,
    filter: &str,
    place: u64,
    qos: Qos,
    identifier: u32,
) -> Result<Subscription, TopicFault> {
    let mut new = subscription(alloc, filter, place, qos)?;
    new.identifier = Some(identifier);
    Ok(new)
}

/// Subscribes sessions 1 to 3, and a second member of the group of 3.
pub(crate) fn subscribe_all(
    alloc: Global,
    bed: &mut Bed,
    fourth: u64,
    qos: Qos,
) -> Result<(), Fail> {
    bed.subscribe(alloc, 3, "$share/g/a/b", 4, Qos::ExactlyOnce)?;
    bed.subscribe(alloc, fourth, "$share/g/a/b", 5, qos)?;
    bed.routes
        .subscribe(1, identified(alloc, "a/#", 1, Qos::AtLeastOnce, 1)?)?;
    bed.routes
        .subscribe(1, identified(alloc, "a/b", 2, Qos::ExactlyOnce, 2)?)?;
    bed.subscribe(alloc, 2, "+/b", 3, Qos::AtMostOnce)
}
