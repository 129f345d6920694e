//! The ends of a world over a broker: a message goes from one to the other (MQTT 5.0, 4.3).

mod playing;
