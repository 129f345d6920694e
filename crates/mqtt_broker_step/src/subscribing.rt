//! Subscriptions come and go (MQTT 5.0, 3.8.4, 3.10.4).
ghost use Rattle.std.specs.Prelude.{◌≡◌, ℕ, List, find, option_copied, Some, IfOk, IfErr, OnOk};
ghost use Rattle.mqtt_records.specs.declared.state.change.Change.{Change as TheChange};
ghost use Rattle.mqtt_records.specs.declared.state.change.Change.TheVariants as change;
ghost use Rattle.mqtt_records.specs.declared.state.records.Records.{Records};
ghost use Rattle.mqtt_records.specs.declared.state.session.Session.{Session as TheSession};
ghost use Rattle.mqtt_records.specs.state.Records.{changed_all, nothing};
ghost use Rattle.mqtt_rules.specs.step.Deeds.{Subscribe, Unsubscribe};
ghost use Rattle.mqtt_rules.specs.step.State.{session_at};
ghost use Rattle.mqtt_rules.specs.step.Subscribe.{Wish, is_to, subscription};
ghost use Rattle.mqtt_broker_step.specs.Backs.{TakesBack};
ghost use Rattle.mqtt_broker_step.specs.Stepping.{Did, IsLeft, to_session};
ghost use Rattle.mqtt_broker_step.specs.Subscribing.{HasEachFilterOnce, HaveFiltersOnce, MaySubscribe};

use crate::fault::StepFault;
use crate::handshakes::has_tables;
use crate::step::Step;
use mqtt_base::Text;
use mqtt_records::{Boxed, Change, RetainedMessage, Session, Subscription};
use std::alloc::{AllocError, Global};

/// Each session has each filter once, whatever changes are made of records if it is so. A wish for a filter
/// may then be subscribed: one that the session has keeps its place (3.8.4).
pub fn filters_stay_apart()
    ensures changed { (changes : List TheChange) (r : Records)
        → HaveFiltersOnce r → HaveFiltersOnce (changed_all changes r) }
    ensures nothing { HaveFiltersOnce nothing }
    ensures wish { (number : ℕ) (s : TheSession) (w : Wish)
        → HasEachFilterOnce s → MaySubscribe (subscription number s w) s }
{}

/// Whether a subscription is to that filter.
fn is_to(subscription: &Subscription, text: &str) -> bool
    ensures { result ≡ is_to text.now subscription.now }
{
    subscription.filter.as_str() == text
}

/// A session's subscription to a filter (3.8.4). Takes no memory.
pub fn subscription_to<'a>(session: &'a Session, text: &str) -> Option<&'a Subscription>
    ensures { option_copied result ≡ find (is_to text.now) session.now.subscriptions }
{
    let mut rest = session.subscriptions.as_slice();
    while let Some((subscription, after)) = rest.split_first() {
        if is_to(subscription.get(), text) {
            return Some(subscription.get());
        }
        rest = after;
    }
    None
}

/// A subscription is put.
fn put(alloc: Global, birth: u64, subscription: &Subscription) -> Result<Change, AllocError>
    ensures { IfOk result (λ made. made ≡ change.PutSubscription birth subscription.now) }
{
    let subscription = subscription.clone()?;
    Ok(Change::PutSubscription {
        birth,
        subscription: Boxed::new(alloc, subscription)?,
    })
}

/// The subscription to a filter is removed.
fn removal(birth: u64, filter: &Text) -> Result<Change, AllocError>
    ensures { IfOk result (λ made. made ≡ change.RemoveSubscription birth filter.now) }
{
    Ok(Change::RemoveSubscription {
        birth,
        filter: filter.clone()?,
    })
}

/// What takes back that a subscription is put: the one to the same filter, or the one at its place, is put;
/// if neither stood, it is removed.
fn subscribed_back(
    alloc: Global,
    session: &Session,
    subscription: &Subscription,
) -> Result<Change, AllocError>
    requires { MaySubscribe subscription.now session.now }
    ensures { IfOk result (λ undo. TakesBack
        (change.PutSubscription session.now.birth subscription.now) undo session.now) }
{
    has_tables(session);
    if let Some(before) = subscription_to(session, subscription.filter.as_str()) {
        return put(alloc, session.birth, before);
    }
    match session.subscriptions.get(subscription.place) {
        Some(other) => put(alloc, session.birth, other.get()),
        None => removal(session.birth, &subscription.filter),
    }
}

/// What takes back that the subscription to a filter is removed.
fn unsubscribed_back(alloc: Global, session: &Session, filter: &Text) -> Result<Change, AllocError>
    requires { HasEachFilterOnce session.now }
    ensures { IfOk result (λ undo. TakesBack
        (change.RemoveSubscription session.now.birth filter.now) undo session.now) }
{
    has_tables(session);
    match subscription_to(session, filter.as_str()) {
        Some(before) => put(alloc, session.birth, before),
        None => removal(session.birth, filter),
    }
}

impl Step {
    /// A session has a subscription, instead of one to the same filter (3.8.4).
    pub fn subscribe(&mut self, birth: u64, subscription: Subscription) -> Result<(), StepFault>
        requires { (s : TheSession) → session_at birth self.old.broker.records ≡ Some s
            → MaySubscribe subscription s }
        ensures ok { OnOk result (Did (to_session birth (Subscribe subscription))
            self.old self.new) }
        ensures left { IfErr result (λ fault.
            IsLeft (to_session birth (Subscribe subscription)) fault self.old self.new) }
    {
        let alloc = self.alloc;
        let Some(session) = self.session(birth) else {
            drop(subscription);
            return Ok(());
        };
        let birth = session.birth;
        let undo = match subscribed_back(alloc, session, &subscription) {
            Ok(undo) => undo,
            Err(_) => {
                drop(subscription);
                return Err(StepFault::Memory);
            }
        };
        match Boxed::new(alloc, subscription) {
            Ok(subscription) => self.make(
                Change::PutSubscription {
                    birth,
                    subscription,
                },
                undo,
            ),
            Err(_) => {
                drop(undo);
                Err(StepFault::Memory)
            }
        }
    }

    /// A session's subscription to a filter is removed (3.10.4).
    pub fn unsubscribe(&mut self, birth: u64, filter: Text) -> Result<(), StepFault>
        requires { (s : TheSession) → session_at birth self.old.broker.records ≡ Some s
            → HasEachFilterOnce s }
        ensures ok { OnOk result (Did (to_session birth (Unsubscribe filter)) self.old self.new) }
        ensures left { IfErr result (λ fault.
            IsLeft (to_session birth (Unsubscribe filter)) fault self.old self.new) }
    {
        let alloc = self.alloc;
        let Some(session) = self.session(birth) else {
            drop(filter);
            return Ok(());
        };
        let birth = session.birth;
        match unsubscribed_back(alloc, session, &filter) {
            Ok(undo) => self.make(Change::RemoveSubscription { birth, filter }, undo),
            Err(_) => {
                drop(filter);
                Err(StepFault::Memory)
            }
        }
    }

    /// The retained messages, by place. Takes no memory.
    pub fn retained(&self) -> &[Boxed<RetainedMessage>]
        ensures { result.now ≡ self.now.broker.records.retained }
    {
        self.tables.records().retained.as_slice()
    }
}
