//! What a table of subscriptions promises, whatever it keeps beside the sessions (MQTT 5.0, 3.8, 3.10).
ghost use Rattle.std.specs.Prelude.{◌≡◌, ◌∷◌, ℕ, List, false, true, IfErr, OnErr, OnOk};
ghost use Rattle.mqtt_routes.specs.routing.Subscriptions.{has_filter, takes_filter, subs_of, subscribed, unsubscribed, without_session, standing, filters_of, have_room, AreInOrder, RefusesPut, Subscriber};

use crate::routing::fault::RoutesFault;
use crate::routing::subscription::Subscription;

/// The subscriptions of all sessions.
pub(crate) trait SubscriptionTable {
    // The sessions, each with its subscriptions.
    ghost sessions: { Self → List Subscriber };

    // How many further subscriptions of each session take no memory.
    ghost room: { Self → List (ℕ × ℕ) };

    /// Makes room for subscriptions of a session, which stands in the table from then on.
    fn make_room(&mut self, birth: u64, new: &[Subscription]) -> Result<(), RoutesFault>
        ensures ok { OnOk result (sessions self.new
            ≡ standing birth (filters_of new.now) (sessions self.old)) }
        ensures err { OnErr result (sessions self.new ≡ sessions self.old) }
        ensures room { OnOk result (have_room birth (filters_of new.now) (room self.new) ≡ true) }
        ensures fault { IfErr result (λ fault. fault ≡ RoutesFault.Memory) }
        ensures memory { OnErr result
            (have_room birth (filters_of new.now) (room self.old) ≡ false) };

    /// Puts a subscription of a session.
    fn subscribe(&mut self, birth: u64, subscription: Subscription) -> Result<(), RoutesFault>
        ensures ok { OnOk result (sessions self.new
            ≡ subscribed birth subscription (sessions self.old)) }
        ensures only { OnOk result (takes_filter subscription.filter
            (subs_of birth (sessions self.old)) ≡ true) }
        ensures err { OnErr result (sessions self.new ≡ sessions self.old) }
        ensures refused { IfErr result
            (RefusesPut subscription (subs_of birth (sessions self.old))) }
        ensures memory { (rest : List (List ℕ))
            → have_room birth (subscription.filter ∷ rest) (room self.old) ≡ true
            → IfErr result (λ fault. fault ≡ RoutesFault.Full) }
        ensures room { (rest : List (List ℕ))
            → have_room birth (subscription.filter ∷ rest) (room self.old) ≡ true
            → have_room birth rest (room self.new) ≡ true };

    /// Removes the subscription of a session to a filter, if there is one. Takes no memory.
    fn unsubscribe(&mut self, birth: u64, filter: &str) -> bool
        ensures found { result ≡ has_filter filter.now (subs_of birth (sessions self.old)) }
        ensures after { sessions self.new ≡ unsubscribed birth filter.now (sessions self.old) };

    /// Removes the subscriptions of a session. Takes no memory.
    fn drop_session(&mut self, birth: u64)
        ensures { sessions self.new ≡ without_session birth (sessions self.old) };

    /// Shows that the sessions are in the order of their births. Takes no memory.
    fn show_order(&self)
        ensures { AreInOrder (sessions self.now) };
}
