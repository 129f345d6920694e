//! What sessions without subscriptions count for, and who was there (MQTT 5.0, 3.1.2.11, 3.3.4).
ghost use Rattle.std.specs.Prelude.{◌≡◌, ℕ, List};
ghost use Rattle.mqtt_routes.specs.routing.Subscriptions.{Subscriber, AreInOrder, standing, with_some, without_session};
ghost use Rattle.mqtt_routes.specs.routing.Intended.{Answers, Publication};
ghost use Rattle.mqtt_routes.specs.routing.Acceptance.{RouteAlike, Routed, TellsTakers};

/// Sessions without subscriptions change nothing: if they alone tell two lists apart, a
/// publication goes the same ways.
pub fn empty_sessions_change_nothing()
    ensures { (at : Answers) (p : Publication) (choices : List ℕ) (xs ys : List Subscriber)
        → with_some xs ≡ with_some ys → RouteAlike at p choices xs ys }
{}

/// A session is dropped from those that have subscriptions as it is from all.
pub fn a_session_is_dropped_from_those_with_some()
    ensures { (birth : ℕ) (xs : List Subscriber) → AreInOrder xs
        → with_some (without_session birth xs) ≡ without_session birth (with_some xs) }
{}

/// A session for which room was made, and which has no subscription yet, is none of those that
/// have some.
pub fn a_standing_session_is_nothing_more()
    ensures { (birth : ℕ) (filters : List (List ℕ)) (xs : List Subscriber)
        → with_some (standing birth filters xs) ≡ with_some xs }
{}

/// A routing has a direct copy or a group exactly if somebody is there for the publication.
pub fn takers_are_told()
    ensures { (at : Answers) (p : Publication) (choices : List ℕ) (sessions : List Subscriber) (r : Routed)
        → TellsTakers at p choices sessions r }
{}
