//! Laws of routing: each member of a group can be chosen, and copies enter if there is room.
ghost use Rattle.std.specs.Prelude.{◌≡◌, ℕ, ◌<◌, ◌≤◌, ◌++◌, List, [], ◌∷◌, filter, length, Some, true};
ghost use Rattle.std.specs.Option.{option_and_then};
ghost use Rattle.mqtt_records.specs.declared.messages.message.MessageCopy.{MessageCopy};
ghost use Rattle.mqtt_records.specs.state.Session.{birth_of};
ghost use Rattle.mqtt_records.specs.declared.state.records.Records.{Records};
ghost use Rattle.mqtt_records.specs.declared.state.session.Session.{Session};
ghost use Rattle.mqtt_routes.specs.routing.Acceptance.{Served, routed, is_eligible, serve, serve_one};
ghost use Rattle.mqtt_routes.specs.routing.Intended.{Answers, Copy, Member, Publication, in_group};
ghost use Rattle.mqtt_records.specs.lists.Order.{IsAscending};
ghost use Rattle.mqtt_rules.specs.step.Deeds.{Message, after_all};
ghost use Rattle.mqtt_rules.specs.step.Laws.{HasEntered, IsAmong, IsOrdered, QueuesWithin, is_entering, served_by};
ghost use Rattle.mqtt_rules.specs.step.Outbound.{enter_deeds, room, room_at};
ghost use Rattle.mqtt_rules.specs.step.Routing.{CopyTo, accepted_copies, answers, publication_of, routing_of, subscribers};
ghost use Rattle.mqtt_rules.specs.step.State.{Broker, Env, session_at};

use mqtt_base::QUEUE_LIMIT;

/// Each member of a group that lacks nothing gets the copy by some choice: any list of choices is free to
/// a step, whatever is chosen for the groups before, and for each such member there is a choice of its
/// group that serves it (4.8.2).
pub fn members_are_reached()
    ensures free { (choices : List ℕ) (env : Env) (m : Message) (r : Records)
        → routing_of (record env { choice = λ number sender. choices }) m r
        ≡ routed (answers env r) (publication_of m) choices (subscribers r) }
    ensures apart { (at : Answers) (p : Publication) (all : List Member) (direct : List Copy)
        (first later : List ℕ) (n : ℕ) (groups rest : List (List ℕ)) (text : List ℕ) (none before : List Served)
        → length first ≡ length groups
        → serve at p all direct first groups none ≡ Some before
        → serve at p all direct (first ++ n ∷ later) (groups ++ text ∷ rest) none
        ≡ option_and_then (λ (s : Served). serve at p all direct later rest (before ++ s ∷ []))
        (serve_one at p direct before n text all) }
    ensures member { (at : Answers) (p : Publication) (all : List Member) (direct : List Copy) (before : List Served)
        (text : List ℕ) (m : Member)
        → IsAmong m (in_group text all)
        → is_eligible at p direct before m ≡ true
        → (n : ℕ) × (serve_one at p direct before n text all ≡ Some (served_by p text m)) }
{}

/// Room is looked at once, before a publication is accepted: its copies for a session are no more than its
/// queue has room for, and as long as there is room a copy's entering leaves the queue within its limit,
/// with room for at most one copy less, whether a full queue refuses or drops (ours, 4.9).
pub fn copies_find_room()
    ensures accepted { (env : Env) (m : Message) (b : Broker) (copies : List CopyTo) (birth : ℕ)
        → accepted_copies env m b ≡ Some copies
        → IsAscending birth_of b.records.sessions
        → length (filter (is_entering birth) copies) ≤ room_at env (session_at birth b.records) }
    ensures entered { (env : Env) (copy : MessageCopy) (s : Session) (b : Broker)
        → env.limits.queue ≤ QUEUE_LIMIT
        → IsOrdered b.records
        → QueuesWithin env.limits.queue b.records
        → session_at s.birth b.records ≡ Some s
        → 0 < room env s
        → HasEntered env s b.records (after_all (enter_deeds env copy s) b).records }
{}
