//! The rules that the parts of an instance keep, each as a test of one item at its place.

mod borders;
mod candidates;
mod cells;
mod joins;
mod kept;
mod rising;
mod sections;
mod stations;
mod trains;

pub(crate) use borders::{first_not_rising, first_out_of_range};
pub(crate) use candidates::first_bad_candidate;
pub(crate) use cells::first_bad_cell;
pub(crate) use joins::first_bad_join;
pub(crate) use kept::first_bad_kept;
pub(crate) use sections::first_bad_section;
pub(crate) use stations::first_bad_station;
pub(crate) use trains::first_bad_train;
