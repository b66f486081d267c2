//! Timetables: the trains of a network with their stops, read from documents up to the first fault.
#![tactic(auto)]

mod document;
mod entries;
mod laws;
mod parts;
mod places;
mod reader;
mod refusal;
mod rules;

pub use laws::timetable_readings_are_one;
pub use parts::{StopPart, Timetable, TrainPart};
pub use reader::read_timetable;
pub use refusal::{TimeFault, TimeMember, TimeRefusal};
