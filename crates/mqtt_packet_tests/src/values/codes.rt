//! The numbers of faults, packet types, services and reason codes (2.1.2, 2.4, 3.8.3.1, 4.3).

use mqtt_base::{Kind, Qos, ReadFault, Reason, RetainHandling};
use std::alloc::Global;
use std::test::Fail;

/// Whether a fault has this text.
fn is_shown(alloc: Global, fault: ReadFault, text: &str) -> Result<bool, Fail> {
    let shown = format!(in alloc; "{fault}")?;
    let is = shown.as_str() == text;
    drop(shown);
    Ok(is)
}

#[test]
fn faults_say_what_they_mean(rt: HostRuntime) -> Result<(), Fail> {
    let texts = [
        (ReadFault::Short, 1, "the input ends inside the value"),
        (
            ReadFault::Overlong,
            2,
            "the variable byte integer is too long",
        ),
        (
            ReadFault::BadText,
            3,
            "the text is not UTF-8, or holds U+0000",
        ),
    ];
    for (fault, number, text) in texts {
        assert!(rt; fault as u8 == number, "{fault:?}");
        assert!(rt; is_shown(rt.alloc(), fault, text)?, "{fault:?}");
    }
    Ok(())
}

/// The sets of 3.2 to 3.15 that this project chose, packet by packet.
fn codes_of_kinds() -> &'static [(Kind, &'static [u8])] {
    &[
        (Kind::Connect, &[]),
        (
            Kind::Connack,
            &[
                0x00, 0x80, 0x81, 0x82, 0x83, 0x84, 0x85, 0x86, 0x87, 0x88, 0x89, 0x8a, 0x8c, 0x90,
                0x95, 0x97, 0x99, 0x9a, 0x9b, 0x9c, 0x9d, 0x9f,
            ],
        ),
        (Kind::Publish, &[]),
        (
            Kind::Puback,
            &[0x00, 0x10, 0x80, 0x83, 0x87, 0x90, 0x91, 0x97, 0x99],
        ),
        (
            Kind::Pubrec,
            &[0x00, 0x10, 0x80, 0x83, 0x87, 0x90, 0x91, 0x97, 0x99],
        ),
        (Kind::Pubrel, &[0x00, 0x92]),
        (Kind::Pubcomp, &[0x00, 0x92]),
        (Kind::Subscribe, &[]),
        (
            Kind::Suback,
            &[
                0x00, 0x01, 0x02, 0x80, 0x83, 0x87, 0x8f, 0x91, 0x97, 0x9e, 0xa1, 0xa2,
            ],
        ),
        (Kind::Unsubscribe, &[]),
        (Kind::Unsuback, &[0x00, 0x11, 0x80, 0x83, 0x87, 0x8f, 0x91]),
        (Kind::Pingreq, &[]),
        (Kind::Pingresp, &[]),
        (
            Kind::Disconnect,
            &[
                0x00, 0x04, 0x80, 0x81, 0x82, 0x83, 0x87, 0x89, 0x8b, 0x8d, 0x8e, 0x8f, 0x90, 0x93,
                0x94, 0x95, 0x96, 0x97, 0x98, 0x99, 0x9a, 0x9b, 0x9c, 0x9d, 0x9e, 0x9f, 0xa0, 0xa1,
                0xa2,
            ],
        ),
        (Kind::Auth, &[0x00, 0x18, 0x19]),
    ]
}

#[test]
fn reason_codes_stand_in_the_packets_of_the_table(rt: HostRuntime) {
    for (kind, codes) in codes_of_kinds() {
        for code in 0..=255 {
            assert!(rt;
                Reason(code).allowed(*kind) == codes.contains(&code),
                "{kind:?} {code}"
            );
        }
    }
}

/// The reason codes of Table 2-6 that tell of a success.
fn successes() -> &'static [(Reason, u8)] {
    &[
        (Reason::SUCCESS, 0x00),
        (Reason::NORMAL_DISCONNECTION, 0x00),
        (Reason::GRANTED_QOS_0, 0x00),
        (Reason::GRANTED_QOS_1, 0x01),
        (Reason::GRANTED_QOS_2, 0x02),
        (Reason::DISCONNECT_WITH_WILL_MESSAGE, 0x04),
        (Reason::NO_MATCHING_SUBSCRIBERS, 0x10),
        (Reason::NO_SUBSCRIPTION_EXISTED, 0x11),
        (Reason::CONTINUE_AUTHENTICATION, 0x18),
        (Reason::RE_AUTHENTICATE, 0x19),
    ]
}

/// The reason codes of Table 2-6 that tell of a failure.
fn failures() -> &'static [(Reason, u8)] {
    &[
        (Reason::UNSPECIFIED_ERROR, 0x80),
        (Reason::MALFORMED_PACKET, 0x81),
        (Reason::PROTOCOL_ERROR, 0x82),
        (Reason::IMPLEMENTATION_SPECIFIC_ERROR, 0x83),
        (Reason::UNSUPPORTED_PROTOCOL_VERSION, 0x84),
        (Reason::CLIENT_IDENTIFIER_NOT_VALID, 0x85),
        (Reason::BAD_USER_NAME_OR_PASSWORD, 0x86),
        (Reason::NOT_AUTHORIZED, 0x87),
        (Reason::SERVER_UNAVAILABLE, 0x88),
        (Reason::SERVER_BUSY, 0x89),
        (Reason::BANNED, 0x8a),
        (Reason::SERVER_SHUTTING_DOWN, 0x8b),
        (Reason::BAD_AUTHENTICATION_METHOD, 0x8c),
        (Reason::KEEP_ALIVE_TIMEOUT, 0x8d),
        (Reason::SESSION_TAKEN_OVER, 0x8e),
        (Reason::TOPIC_FILTER_INVALID, 0x8f),
        (Reason::TOPIC_NAME_INVALID, 0x90),
        (Reason::PACKET_IDENTIFIER_IN_USE, 0x91),
        (Reason::PACKET_IDENTIFIER_NOT_FOUND, 0x92),
        (Reason::RECEIVE_MAXIMUM_EXCEEDED, 0x93),
        (Reason::TOPIC_ALIAS_INVALID, 0x94),
        (Reason::PACKET_TOO_LARGE, 0x95),
        (Reason::MESSAGE_RATE_TOO_HIGH, 0x96),
        (Reason::QUOTA_EXCEEDED, 0x97),
        (Reason::ADMINISTRATIVE_ACTION, 0x98),
        (Reason::PAYLOAD_FORMAT_INVALID, 0x99),
        (Reason::RETAIN_NOT_SUPPORTED, 0x9a),
        (Reason::QOS_NOT_SUPPORTED, 0x9b),
        (Reason::USE_ANOTHER_SERVER, 0x9c),
        (Reason::SERVER_MOVED, 0x9d),
        (Reason::SHARED_SUBSCRIPTIONS_NOT_SUPPORTED, 0x9e),
        (Reason::CONNECTION_RATE_EXCEEDED, 0x9f),
        (Reason::MAXIMUM_CONNECT_TIME, 0xa0),
        (Reason::SUBSCRIPTION_IDENTIFIERS_NOT_SUPPORTED, 0xa1),
        (Reason::WILDCARD_SUBSCRIPTIONS_NOT_SUPPORTED, 0xa2),
    ]
}

#[test]
fn reason_codes_have_the_names_of_table_2_6(rt: HostRuntime) {
    for (reason, code) in successes() {
        assert!(rt; *reason == Reason(*code));
        assert!(rt; !reason.is_error(), "{reason:?}");
    }
    for (reason, code) in failures() {
        assert!(rt; *reason == Reason(*code));
        assert!(rt; reason.is_error(), "{reason:?}");
    }
}

/// The control packet types of Table 2-1.
fn kinds() -> &'static [(Kind, u8)] {
    &[
        (Kind::Connect, 1),
        (Kind::Connack, 2),
        (Kind::Publish, 3),
        (Kind::Puback, 4),
        (Kind::Pubrec, 5),
        (Kind::Pubrel, 6),
        (Kind::Pubcomp, 7),
        (Kind::Subscribe, 8),
        (Kind::Suback, 9),
        (Kind::Unsubscribe, 10),
        (Kind::Unsuback, 11),
        (Kind::Pingreq, 12),
        (Kind::Pingresp, 13),
        (Kind::Disconnect, 14),
        (Kind::Auth, 15),
    ]
}

#[test]
fn packet_types_have_the_numbers_of_table_2_1(rt: HostRuntime) {
    for (kind, number) in kinds() {
        assert!(rt; *kind as u8 == *number, "{kind:?}");
    }
}

#[test]
fn services_have_the_numbers_of_the_options_byte(rt: HostRuntime) {
    // Bits 0 and 1, and bits 4 and 5 (3.8.3.1).
    assert!(rt; Qos::AtMostOnce as u8 == 0);
    assert!(rt; Qos::AtLeastOnce as u8 == 1);
    assert!(rt; Qos::ExactlyOnce as u8 == 2);
    assert!(rt; RetainHandling::SendAlways as u8 == 0);
    assert!(rt; RetainHandling::SendIfNew as u8 == 1);
    assert!(rt; RetainHandling::DoNotSend as u8 == 2);
}
