//! The laws of intended copies: who gets one, and which of them enter (3.3.4, 4.3, 4.8.2).
ghost use Rattle.std.specs.Prelude.{◌≡◌, ℕ, List, Some};
ghost use Rattle.mqtt_world_model.specs.model.Laws.{CopiesOnce};
ghost use Rattle.mqtt_world_model.specs.model.Run.{Turn};
ghost use Rattle.mqtt_world_model.specs.model.World.{World, start};
ghost use Rattle.mqtt_routes.specs.routing.Acceptance.{Routed, routed};
ghost use Rattle.mqtt_routes.specs.routing.Intended.{Answers, Publication};
ghost use Rattle.mqtt_routes.specs.routing.Subscriptions.{AreInOrder, Subscriber};
ghost use Rattle.mqtt_rules.specs.declared.step.Capacity.{Capacity};
ghost use Rattle.mqtt_world_laws.specs.acceptance.Fair.{IsCounted, IsNew};
ghost use Rattle.mqtt_world_laws.specs.routing.Groups.{EachGetsOne};
ghost use Rattle.mqtt_world_laws.specs.routing.Intended.{AllEnterAsIntended};
ghost use Rattle.mqtt_world_laws.specs.routing.Members.{AllHaveLines};

/// Whoever is chosen among the members of groups: each session with a subscription of its own that matches gets one
/// direct copy, and no other session gets any; and each group with a matching subscription is served once, one after
/// another: if a member is eligible (its queue has room, or for QoS 0 it is connected) one of those gets a copy,
/// and if none is nobody does (3.3.4, 3.8.3.1, 4.8.2).
pub fn each_session_and_each_group_gets_one_copy()
    ensures { (at : Answers) (p : Publication) (choices : List ℕ) (sessions : List Subscriber) (r : Routed)
        → AreInOrder sessions → routed at p choices sessions ≡ Some r → EachGetsOne at p sessions r }
{}

/// Each publication that is accepted in a run, of a client, a stranger or a Will, goes to each session and each group
/// that is to get a copy. Of its copies exactly those with QoS 1 or 2 enter queues in the run, in their order: each
/// of them once, and no other copy of this publication but those that a later SUBSCRIBE brings of it as a retained
/// message. So for each group one copy enters, or none if no member got one of QoS 1 or 2 (3.3.4, 4.3, 4.8.2).
pub fn each_publication_enters_exactly_its_copies()
    ensures enters { (limits : Capacity) (ts : List Turn) (w : World) → IsNew w → IsCounted limits ts w
        → AllEnterAsIntended limits ts w }

    // From nothing stored: so entered, at most once, and waits or has ended once, in the words of the run.
    ensures every { (limits : Capacity) (ts : List Turn) → IsCounted limits ts start → CopiesOnce limits ts }
{}

/// A member of a group gets a copy of QoS 0 only if its session is connected; and whoever is connected as a
/// publication is accepted stands on a line. So that copy goes out at once, or it is too large for its client. A Will
/// that is published as the broker opens goes to no such member: nobody is connected then (4.1, 4.3.1, 4.8.2).
pub fn copies_of_members_find_a_line()
    ensures { (limits : Capacity) (ts : List Turn) (w : World) → IsNew w → IsCounted limits ts w
        → AllHaveLines limits ts w }
{}
