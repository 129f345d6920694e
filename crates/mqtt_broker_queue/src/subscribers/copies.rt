//! The copies of a publication that was routed (MQTT 5.0, 3.3.4, 4.8).
ghost use Rattle.std.specs.Prelude.{◌≡◌, ◌++◌, ◌∷◌, [], map, flat_map, OnOk, IfOk, IfErr};
ghost use Rattle.mqtt_base.specs.declared.session.Cause.TheVariants.{Direct};
ghost use Rattle.mqtt_broker_queue.specs.publications.Copies.{addressee};
ghost use Rattle.mqtt_broker_queue.specs.subscribers.Indexing.{served_addressees, addressees, all_copied};

use crate::publications::{Addressee, Copies, Message};
use mqtt_base::Cause;
use mqtt_broker_step::StepFault;
use mqtt_records::SubscriptionIdentifiers;
use mqtt_routes::{Routed, RoutedCopy, Served};
use std::alloc::{AllocError, Global};

/// Who gets a copy, as it was routed.
fn addressee(alloc: Global, cause: Cause, copy: &RoutedCopy) -> Result<Addressee, AllocError>
    ensures { IfOk result (λ to. to ≡ addressee cause copy.now) }
{
    match SubscriptionIdentifiers::from_slice(alloc, copy.identifiers()) {
        Ok(identifiers) => Ok(Addressee {
            birth: copy.birth(),
            cause,
            qos: copy.qos(),
            retain: copy.retain(),
            identifiers,
        }),
        Err(error) => {
            drop(cause);
            Err(error)
        }
    }
}

/// Adds who gets a copy.
fn add(
    alloc: Global,
    cause: Cause,
    copy: &RoutedCopy,
    out: &mut Vec<Addressee>,
) -> Result<(), StepFault>
    ensures ok { OnOk result (out.new.items ≡ out.old.items ++ addressee cause copy.now ∷ []) }
    ensures fault { IfErr result (λ fault. fault ≡ StepFault.Memory) }
{
    match addressee(alloc, cause, copy) {
        Ok(to) => {
            out.push(to)?;
            Ok(())
        }
        Err(_) => Err(StepFault::Memory),
    }
}

/// Adds who gets the direct copies, for which room is made at once.
fn add_direct(
    alloc: Global,
    copies: &[RoutedCopy],
    out: &mut Vec<Addressee>,
) -> Result<(), StepFault>
    ensures ok { OnOk result (out.new.items
        ≡ out.old.items ++ map (addressee Direct) copies.now) }
    ensures fault { IfErr result (λ fault. fault ≡ StepFault.Memory) }
{
    out.reserve(copies.len())?;
    for copy in copies {
        add(alloc, Cause::Direct, copy, out)?;
    }
    Ok(())
}

/// Adds who gets the copy of a group, if it has one.
fn add_one(alloc: Global, served: &Served, out: &mut Vec<Addressee>) -> Result<(), StepFault>
    ensures ok { OnOk result (out.new.items ≡ out.old.items ++ served_addressees served.now) }
    ensures fault { IfErr result (λ fault. fault ≡ StepFault.Memory) }
{
    match served.copy() {
        Some(copy) => {
            let cause = Cause::Share {
                group: served.group().clone()?,
            };
            add(alloc, cause, copy, out)
        }
        None => Ok(()),
    }
}

/// Adds who gets the copies of the groups.
fn add_served(alloc: Global, all: &[Served], out: &mut Vec<Addressee>) -> Result<(), StepFault>
    ensures ok { OnOk result (out.new.items
        ≡ out.old.items ++ flat_map served_addressees all.now) }
    ensures fault { IfErr result (λ fault. fault ≡ StepFault.Memory) }
{
    for served in all {
        add_one(alloc, served, out)?;
    }
    Ok(())
}

/// Adds all who get copies.
fn add_all(alloc: Global, routed: &Routed, out: &mut Vec<Addressee>) -> Result<(), StepFault>
    requires { out.old.items ≡ [] }
    ensures ok { OnOk result (out.new.items ≡ addressees routed.now) }
    ensures fault { IfErr result (λ fault. fault ≡ StepFault.Memory) }
{
    add_direct(alloc, routed.direct(), out)?;
    add_served(alloc, routed.served(), out)
}

/// All who get copies of a publication, as it was routed.
fn all_of(alloc: Global, routed: &Routed) -> Result<Vec<Addressee>, StepFault>
    ensures ok { IfOk result (λ all. all.items ≡ addressees routed.now) }
    ensures fault { IfErr result (λ fault. fault ≡ StepFault.Memory) }
{
    let mut out = Vec::new(alloc);
    match add_all(alloc, routed, &mut out) {
        Ok(()) => Ok(out),
        Err(fault) => {
            drop(out);
            Err(fault)
        }
    }
}

/// The copies of a publication, which was accepted at a moment under a number, as it was routed.
#[tactic(auto, using(crate::proofs::subscribers_lemmas::Addressed::copied_are))]
pub(crate) fn copies_of(
    alloc: Global,
    number: u64,
    moment: u64,
    message: &Message,
    routed: &Routed,
) -> Result<Copies, StepFault>
    ensures ok { IfOk result (λ copies. copies
        ≡ all_copied number moment message.now routed.now) }
    ensures fault { IfErr result (λ fault. fault ≡ StepFault.Memory) }
{
    let all = all_of(alloc, routed)?;
    match message.content(moment) {
        Ok(content) => Ok(Copies::new(number, content, all)),
        Err(_) => {
            drop(all);
            Err(StepFault::Memory)
        }
    }
}

/// The copies of a publication, which was accepted at a moment under a number, as it was routed, to no group.
#[tactic(auto, using(crate::proofs::subscribers_lemmas::Addressed::direct_are))]
pub(crate) fn direct_copies(
    alloc: Global,
    number: u64,
    moment: u64,
    message: &Message,
    routed: Routed,
) -> Result<Copies, StepFault>
    requires { routed.served ≡ [] }
    ensures ok { IfOk result (λ copies. copies
        ≡ all_copied number moment message.now routed) }
    ensures fault { IfErr result (λ fault. fault ≡ StepFault.Memory) }
{
    match message.content(moment) {
        Ok(content) => Ok(Copies::routed(alloc, number, content, routed)),
        Err(_) => {
            drop(routed);
            Err(StepFault::Memory)
        }
    }
}
