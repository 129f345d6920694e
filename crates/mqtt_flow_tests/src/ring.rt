//! Tests of `mqtt_flow::ring` over its public calls (MQTT 5.0, 4.1, 4.6).

mod at_hand;
