//! Laws of what comes before a new connection: the places for sessions (ours), and births.
ghost use Rattle.std.specs.Prelude.{◌≡◌, ◌≤◌, true, length, is_some};
ghost use Rattle.mqtt_packet.specs.declared.connect.connect.Connect.{Connect};
ghost use Rattle.mqtt_rules.specs.step.Connect.{prepare};
ghost use Rattle.mqtt_rules.specs.step.Deeds.{after_all};
ghost use Rattle.mqtt_rules.specs.step.Numbers.{HasGivenBirths};
ghost use Rattle.mqtt_rules.specs.step.State.{Broker, Env, session_named};
ghost use Rattle.mqtt_broker_acts.specs.connecting.Joining.{has_place};

/// A client whose session stands finds a place for its new connection, if the sessions are within their limit: what
/// comes before the connection leaves its session, or a place for one more.
pub fn known_clients_find_a_place()
    ensures { (env : Env) (c : Connect) (b : Broker)
        → is_some (session_named c.client_identifier b.records) ≡ true
        → length b.records.sessions ≤ env.limits.sessions
        → has_place env.limits.sessions c (after_all (prepare env c b) b).records ≡ true }
{}

/// What comes before a new connection gives no birth: those of the sessions that stand stay below the next.
pub fn preparing_gives_no_birth()
    ensures { (env : Env) (c : Connect) (b : Broker) → HasGivenBirths b.records
        → HasGivenBirths (after_all (prepare env c b) b).records }
{}
