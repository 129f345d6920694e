//! Reason codes of what a client sent (2.4, 3.3.4, 3.9.3, 3.11.3, 4.13).
ghost use Rattle.std.specs.Prelude.{◌≡◌, ℕ, List};
ghost use Rattle.mqtt_rules.specs.step.State.{Broker, Env};
ghost use Rattle.mqtt_rules.specs.step.Inbound.{code_again, code_accepted, topic_code};
ghost use Rattle.mqtt_rules.specs.step.Routing.{CopyTo};
ghost use Rattle.mqtt_rules.specs.step.Subscribe.{Wish, answer_by, drop_code};
ghost use Rattle.mqtt_rules.specs.step.Step.{late_code};
ghost use Rattle.mqtt_records.specs.declared.state.session.Session.{Session};

use mqtt_base::{Qos, Reason};
use mqtt_packet::Delivery;
use mqtt_topic::TopicFault;

/// Of a PUBLISH that is accepted, by whether somebody is there for it (3.4.2.1). Takes no memory.
pub fn accepted_code(is_wanted: bool) -> Reason
    ensures { result.0 ≡ code_accepted is_wanted }
{
    if is_wanted {
        Reason::SUCCESS
    } else {
        Reason::NO_MATCHING_SUBSCRIBERS
    }
}

/// Of a PUBLISH whose identifier is open: QoS 2 is answered as before, QoS 1 isn't taken (4.3.3).
/// Takes no memory.
pub fn again_code(delivery: Delivery) -> Reason
    ensures { result.0 ≡ code_again delivery }
{
    match delivery {
        Delivery::AtMostOnce | Delivery::ExactlyOnce { .. } => Reason::SUCCESS,
        Delivery::AtLeastOnce { .. } => Reason::PACKET_IDENTIFIER_IN_USE,
    }
}

/// Of a PUBLISH whose topic is none (3.3.2.1, 3.3.2.3.4). Takes no memory.
pub fn topic_code(fault: TopicFault) -> Reason
    ensures { result.0 ≡ topic_code fault }
{
    match fault {
        TopicFault::Empty | TopicFault::AliasUnknown => Reason::PROTOCOL_ERROR,
        TopicFault::WildcardInName
        | TopicFault::WildcardPlace
        | TopicFault::Share
        | TopicFault::NotText => Reason::TOPIC_NAME_INVALID,
        TopicFault::AliasRange => Reason::TOPIC_ALIAS_INVALID,
        TopicFault::Memory => Reason::UNSPECIFIED_ERROR,
    }
}

/// Of a filter of a SUBSCRIBE, by whether it is valid and there is room for it and its copies: the
/// QoS that is granted, or why none is (3.9.3). Takes no memory.
pub fn filter_code(is_valid: bool, has_room: bool, qos: Qos) -> Reason
    ensures { (env : Env) (number : ℕ) (s : Session) (w : Wish) (copies : List CopyTo) (b : Broker)
        → w.options.qos ≡ qos → result.0 ≡ (answer_by is_valid has_room env number s w copies b).code }
{
    if !is_valid {
        Reason::TOPIC_FILTER_INVALID
    } else if !has_room {
        Reason::QUOTA_EXCEEDED
    } else {
        match qos {
            Qos::AtMostOnce => Reason::GRANTED_QOS_0,
            Qos::AtLeastOnce => Reason::GRANTED_QOS_1,
            Qos::ExactlyOnce => Reason::GRANTED_QOS_2,
        }
    }
}

/// Of a filter of an UNSUBSCRIBE, by whether it is valid and was there (3.11.3). Takes no memory.
pub fn drop_code(is_valid: bool, was_there: bool) -> Reason
    ensures { result.0 ≡ drop_code is_valid was_there }
{
    if !is_valid {
        Reason::TOPIC_FILTER_INVALID
    } else if was_there {
        Reason::SUCCESS
    } else {
        Reason::NO_SUBSCRIPTION_EXISTED
    }
}

/// Of a fault in a packet of a connected client, where another version is a protocol error (4.13).
/// Takes no memory.
pub fn fault_code(code: Reason) -> Reason
    ensures { result.0 ≡ late_code code.0 }
{
    if code.0 == Reason::UNSUPPORTED_PROTOCOL_VERSION.0 {
        Reason::PROTOCOL_ERROR
    } else {
        code
    }
}
