//! What is asked of a broker and what it tells, by subject. A script begins with what happens, over a store that has nothing
//! yet; an empty line ends it.

mod closes;
mod connects;
mod publishes;
mod receives;
mod refusals;
mod reopened;
mod subscribes;
mod turns;

pub use closes::closing;
pub use connects::clients;
pub use publishes::publishing;
pub use receives::receiving;
pub use refusals::refusing;
pub use reopened::reopening;
pub use subscribes::filters;
pub use turns::turning;
