//! The statements on the five tables that both schemas have, with what each makes of the rows (MQTT 5.0, 4.1).

mod identifiers;
mod laws;
mod numbers;
mod sessions;
mod subscriptions;
mod wills;

pub use self::identifiers::{put_open, remove_open};
pub use self::laws::{number_is_free, row_is_put, row_is_removed, schemas_are_laid_out};
pub use self::numbers::set_number;
pub use self::sessions::{SessionColumns, put_session};
pub use self::subscriptions::{SubscriptionColumns, put_subscription, remove_subscription};
pub use self::wills::{WillColumns, put_will, remove_will};
