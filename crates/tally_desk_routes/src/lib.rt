//! What a message asks for: its route, the code in its target, and the command in its body.
#![tactic(auto)]

mod asks;
mod fields;
mod routes;
mod target;

pub use asks::{ask_on_con, ask_on_station};
pub use routes::{ConCommand, Route, StationCommand, desk_router, route_of, takes, takes_get};
pub use target::{con_of_target, station_of_target};
