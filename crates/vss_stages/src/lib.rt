//! A call as stages in a row: each ends with a value or with a stop, and the next begins with that value.
#![tactic(auto)]

mod input;
mod reading;
mod stop;

pub use input::Input;
pub use reading::read_input;
pub use stop::Stop;
