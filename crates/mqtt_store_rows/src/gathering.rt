//! What a load makes of the rows of schema 2 of the SQL store as they come, without what waiting copies say (MQTT 5.0, 3.3, 4.1). Private.

mod alone;
mod gather;
mod messages;
mod queues;
mod reading;

pub use self::gather::Gather;
pub use self::messages::GatheredMessages;
pub use self::queues::GatheredQueues;
