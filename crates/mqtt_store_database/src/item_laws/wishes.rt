//! The Wills, open identifiers and subscriptions of sessions before and after a change (4.1).
ghost use Rattle.std.specs.Prelude.{◌≡◌, ◌≢◌, ◌⊎◌, ℕ, List, false, bytes_eq};
ghost use Rattle.mqtt_records.specs.declared.messages.message.Will.{Will};
ghost use Rattle.mqtt_records.specs.declared.state.subscription.Subscription.{Subscription};
ghost use Rattle.mqtt_records.specs.declared.state.records.Records.{Records};
ghost use Rattle.mqtt_records.specs.declared.state.change.Change.TheVariants.{PutWill, RemoveWill, PutInbound, RemoveInbound, PutSubscription, RemoveSubscription};
ghost use Rattle.mqtt_records.specs.state.Records.{changed, Fits};
ghost use Rattle.mqtt_records.specs.state.Members.{InPart};
ghost use Rattle.mqtt_store_database.specs.item_laws.Members.{AllOrdered, will_of, inbound_of, subscriptions_of};

/// A Will that is put is its session's, and every other session's stands as before.
pub fn will_is_put()
    ensures new { (birth : ℕ) (will : Will) (r : Records) (b : ℕ) (x : Will)
        → AllOrdered r → InPart will_of (changed (PutWill birth will) r).sessions b x
        → ((b ≡ birth) × (x ≡ will)) ⊎ (InPart will_of r.sessions b x × (b ≡ birth → ⊥)) }
    ensures old { (birth : ℕ) (will : Will) (r : Records) (b : ℕ) (x : Will)
        → AllOrdered r → Fits (PutWill birth will) r
        → ((b ≡ birth) × (x ≡ will)) ⊎ (InPart will_of r.sessions b x × (b ≡ birth → ⊥))
        → InPart will_of (changed (PutWill birth will) r).sessions b x }
{}

/// A Will that is removed is gone, and every other session's stands as before.
pub fn will_is_removed()
    ensures new { (birth : ℕ) (r : Records) (b : ℕ) (x : Will)
        → AllOrdered r → InPart will_of (changed (RemoveWill birth) r).sessions b x
        → InPart will_of r.sessions b x × (b ≡ birth → ⊥) }
    ensures old { (birth : ℕ) (r : Records) (b : ℕ) (x : Will)
        → AllOrdered r → InPart will_of r.sessions b x × (b ≡ birth → ⊥)
        → InPart will_of (changed (RemoveWill birth) r).sessions b x }
{}

/// An identifier that is put is open, and every other as before.
pub fn identifier_is_put()
    ensures new { (birth n : ℕ) (r : Records) (b x : ℕ)
        → AllOrdered r → Fits (PutInbound birth n) r
        → InPart inbound_of (changed (PutInbound birth n) r).sessions b x
        → ((b ≡ birth) × (x ≡ n)) ⊎ (InPart inbound_of r.sessions b x × (b ≡ birth → x ≢ n)) }
    ensures old { (birth n : ℕ) (r : Records) (b x : ℕ)
        → AllOrdered r → Fits (PutInbound birth n) r
        → ((b ≡ birth) × (x ≡ n)) ⊎ (InPart inbound_of r.sessions b x × (b ≡ birth → x ≢ n))
        → InPart inbound_of (changed (PutInbound birth n) r).sessions b x }
{}

/// An identifier that is removed is not open, and every other as before.
pub fn identifier_is_removed()
    ensures new { (birth n : ℕ) (r : Records) (b x : ℕ)
        → AllOrdered r → InPart inbound_of (changed (RemoveInbound birth n) r).sessions b x
        → InPart inbound_of r.sessions b x × (b ≡ birth → x ≢ n) }
    ensures old { (birth n : ℕ) (r : Records) (b x : ℕ)
        → AllOrdered r → InPart inbound_of r.sessions b x × (b ≡ birth → x ≢ n)
        → InPart inbound_of (changed (RemoveInbound birth n) r).sessions b x }
{}

/// A subscription that is put is its session's to its filter, and every other stands as before.
pub fn subscription_is_put()
    ensures new { (birth : ℕ) (put : Subscription) (r : Records) (b : ℕ) (x : Subscription)
        → AllOrdered r → Fits (PutSubscription birth put) r
        → InPart subscriptions_of (changed (PutSubscription birth put) r).sessions b x
        → ((b ≡ birth) × (x ≡ put)) ⊎ (InPart subscriptions_of r.sessions b x
        × (b ≡ birth → bytes_eq x.filter put.filter ≡ false)) }
    ensures old { (birth : ℕ) (put : Subscription) (r : Records) (b : ℕ) (x : Subscription)
        → AllOrdered r → Fits (PutSubscription birth put) r
        → ((b ≡ birth) × (x ≡ put)) ⊎ (InPart subscriptions_of r.sessions b x
        × (b ≡ birth → bytes_eq x.filter put.filter ≡ false))
        → InPart subscriptions_of (changed (PutSubscription birth put) r).sessions b x }
{}

/// A subscription that is removed is gone, and every other stands as before.
pub fn subscription_is_removed()
    ensures new { (birth : ℕ) (text : List ℕ) (r : Records) (b : ℕ) (x : Subscription)
        → AllOrdered r
        → InPart subscriptions_of (changed (RemoveSubscription birth text) r).sessions b x
        → InPart subscriptions_of r.sessions b x × (b ≡ birth → bytes_eq x.filter text ≡ false) }
    ensures old { (birth : ℕ) (text : List ℕ) (r : Records) (b : ℕ) (x : Subscription)
        → AllOrdered r
        → InPart subscriptions_of r.sessions b x × (b ≡ birth → bytes_eq x.filter text ≡ false)
        → InPart subscriptions_of (changed (RemoveSubscription birth text) r).sessions b x }
{}
