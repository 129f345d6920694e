//! Strangers without a broker: what is cut of their bytes (MQTT 5.0, 2.1, 4.13).

mod pieces;
