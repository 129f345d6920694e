//! What a publication asks of sessions (MQTT 5.0, 3.8.3.1, 4.8.2, 4.9).
ghost use Rattle.std.specs.Prelude.{◌≡◌};
ghost use Rattle.mqtt_routes.specs.routing.Intended.{Answers};

/// The sessions that subscribe, by their births. No call takes memory.
pub trait Sessions {
    ghost answers: { Self → Answers };

    /// For how many more copies the session's queue has room.
    fn room(&self, birth: u64) -> u32
        ensures { result ≡ (answers self.now).room birth };

    /// Whether the session is connected.
    fn connected(&self, birth: u64) -> bool
        ensures { result ≡ (answers self.now).is_connected birth };

    /// Whether the session has this client identifier.
    fn is_named(&self, birth: u64, client: &str) -> bool
        ensures { result ≡ (answers self.now).is_named birth client.now };
}
