//! Power cuts under turns of the server, over a database in files (MQTT 5.0, 4.1, 4.3.3).

mod files;
mod judging;
mod peers;
mod runs;
mod sweeps;
