//! Tests of `mqtt_broker_looks::at_hand` over its public calls (MQTT 5.0, 4.1, 4.6).

mod hand;
