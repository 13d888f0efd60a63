//! Stations: shapes of states at which a run may stand again and again, with other numbers and at other depths.
#![tactic(auto)]

mod awaiting;
mod finding;
mod laying;
mod making;
mod station;
mod unfolding;

pub use awaiting::{copy_awaited, same_awaited};
pub use finding::found_at;
pub use making::station_of;
pub use station::{Run, Standing, Station, Values};
pub use unfolding::unfold;
