//! The index goes along with the rows of a step, and is built anew from all sessions (MQTT 5.0, 3.1.2.11.2, 3.8.4,
//! 3.10.4).
ghost use Rattle.std.specs.Prelude.{◌≡◌, IsTrue, OnOk, OnErr, IfOk, IfErr};
ghost use Rattle.mqtt_topic.specs.names.Filters.{is_filter};
ghost use Rattle.mqtt_records.specs.state.Records.{changed_all};
ghost use Rattle.mqtt_records.specs.declared.state.records.Records.{Records};
ghost use Rattle.mqtt_routes.specs.routing.Subscriptions.{subscribed};
ghost use Rattle.mqtt_rules.specs.step.Routing.{routed_subscription, subscribers};
ghost use Rattle.mqtt_broker_queue.specs.subscribers.Indexing.{Serves};
ghost use Rattle.mqtt_broker_queue.specs.subscribers.Following.{CanAllBeFollowed, CanAllBeGiven, CanBeGiven, CanBeIndexed, CanBePut, CanGoAlong, CanGoAlongAll, followed, followed_all, given, given_all};

use crate::subscribers::index::Index;
use mqtt_broker_step::{Step, StepFault};
use mqtt_records::{Boxed, Change, Session, Subscription};
use mqtt_routes::{RoutesFault, Subscription as RoutedSubscription};
use mqtt_topic::SubFilter;
use std::alloc::Global;
use std::hash::RandomState;

/// A subscription as routing has it. The bytes of its filter are shared.
fn routed(subscription: &Subscription) -> Result<RoutedSubscription, StepFault>
    requires { IsTrue (is_filter subscription.now.filter) }
    ensures routed { IfOk result (λ made. made ≡ routed_subscription subscription.now) }
    ensures fault { IfErr result (λ fault. fault ≡ StepFault.Memory) }
{
    let text = subscription.filter.clone()?;
    match SubFilter::from_text(text) {
        Ok(filter) => Ok(RoutedSubscription {
            filter,
            place: subscription.place,
            options: subscription.options,
            identifier: subscription.identifier,
        }),
        Err(_) => unreachable!(),
    }
}

impl Index {
    /// A session gets a subscription (3.8.4).
    fn put(&mut self, birth: u64, subscription: &Subscription) -> Result<(), StepFault>
        requires { CanBePut birth subscription.now self.old.sessions }
        ensures put { OnOk result (self.new.sessions
            ≡ subscribed birth (routed_subscription subscription.now) self.old.sessions) }
        ensures same { OnErr result (self.new.sessions ≡ self.old.sessions) }
        ensures fault { IfErr result (λ fault. fault ≡ StepFault.Memory) }
    {
        let subscription = routed(subscription)?;
        match self.routes.subscribe(birth, subscription) {
            Ok(()) => Ok(()),
            Err(RoutesFault::Memory) => Err(StepFault::Memory),
            Err(RoutesFault::Full) => unreachable!(),
        }
    }

    /// What a row says of subscriptions.
    fn go_along(&mut self, change: &Change) -> Result<(), StepFault>
        requires { CanGoAlong change.now self.old.sessions }
        ensures followed { OnOk result (self.new.sessions ≡ followed change.now self.old.sessions) }
        ensures same { OnErr result (self.new.sessions ≡ self.old.sessions) }
        ensures fault { IfErr result (λ fault. fault ≡ StepFault.Memory) }
    {
        match change {
            Change::PutSubscription {
                birth,
                subscription,
            } => self.put(*birth, subscription.get()),
            Change::RemoveSubscription { birth, filter } => {
                self.routes.unsubscribe(*birth, filter.as_str());
                Ok(())
            }
            Change::RemoveSession { birth } => {
                self.routes.drop_session(*birth);
                Ok(())
            }
            Change::SetCounter { .. }
            | Change::PutSession { .. }
            | Change::SetSession { .. }
            | Change::PutWill { .. }
            | Change::RemoveWill { .. }
            | Change::PutInbound { .. }
            | Change::RemoveInbound { .. }
            | Change::PutCopy { .. }
            | Change::SetCopy { .. }
            | Change::RemoveCopy { .. }
            | Change::PutRetained { .. }
            | Change::RemoveRetained { .. } => Ok(()),
        }
    }

    /// What rows say of subscriptions, in order.
    fn go_along_all(&mut self, changes: &[Change]) -> Result<(), StepFault>
        requires { CanGoAlongAll changes.now self.old.sessions }
        ensures followed { OnOk result
            (self.new.sessions ≡ followed_all changes.now self.old.sessions) }
        ensures fault { IfErr result (λ fault. fault ≡ StepFault.Memory) }
    {
        let mut rest = changes;
        while let Some((change, after)) = rest.split_first() {
            self.go_along(change)?;
            rest = after;
        }
        Ok(())
    }

    /// The index goes along with all rows of a step, in order: one that served what was stored before them serves
    /// what is stored after them. A subscription that is put has to be such as a grant makes it. `Memory` (1) alone
    /// refuses: the index has then gone along with some of them, and is to be thrown away and built anew by `over`.
    pub fn follow_all(&mut self, changes: &[Change]) -> Result<(), StepFault>
        requires { CanGoAlongAll changes.now self.old.sessions }
        ensures serves { (r : Records) → CanBeIndexed r → CanAllBeFollowed changes.now r
            → Serves self.old.sessions (subscribers r)
            → OnOk result (Serves self.new.sessions (subscribers (changed_all changes.now r))) }
        ensures fault { IfErr result (λ fault. fault ≡ StepFault.Memory) }
    {
        self.go_along_all(changes)
    }

    /// A session gets subscriptions, one after another.
    fn put_all(&mut self, birth: u64, all: &[Boxed<Subscription>]) -> Result<(), StepFault>
        requires { CanBeGiven birth all.now self.old.sessions }
        ensures given { OnOk result (self.new.sessions ≡ given birth all.now self.old.sessions) }
        ensures fault { IfErr result (λ fault. fault ≡ StepFault.Memory) }
    {
        let mut rest = all;
        while let Some((subscription, after)) = rest.split_first() {
            self.put(birth, subscription.get())?;
            rest = after;
        }
        Ok(())
    }

    /// Sessions get their subscriptions, one after another.
    fn put_sessions(&mut self, all: &[Boxed<Session>]) -> Result<(), StepFault>
        requires { CanAllBeGiven all.now self.old.sessions }
        ensures given { OnOk result (self.new.sessions ≡ given_all all.now self.old.sessions) }
        ensures fault { IfErr result (λ fault. fault ≡ StepFault.Memory) }
    {
        let mut rest = all;
        while let Some((session, after)) = rest.split_first() {
            let session = session.get();
            self.put_all(session.birth, session.subscriptions.as_slice())?;
            rest = after;
        }
        Ok(())
    }

    /// The index of the subscriptions of all sessions of a step. Filters, which strangers choose, are hashed by
    /// `hasher`. `Memory` (1) alone refuses.
    pub fn over(alloc: Global, hasher: RandomState, step: &Step) -> Result<Index, StepFault>
        requires { CanBeIndexed step.now.broker.records }
        ensures serves { IfOk result (λ index. Serves index.sessions
            (subscribers step.now.broker.records)) }
        ensures fault { IfErr result (λ fault. fault ≡ StepFault.Memory) }
    {
        let mut index = Index::new(alloc, hasher);
        match index.put_sessions(step.all_sessions()) {
            Ok(()) => Ok(index),
            Err(fault) => {
                drop(index);
                Err(fault)
            }
        }
    }
}
