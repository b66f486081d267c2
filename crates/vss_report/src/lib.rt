//! Reports: what they are, how they are written, and how designs and refutations are read back.
#![tactic(auto)]

mod cell_finder;
mod cells;
mod design_parts;
mod design_reader;
mod design_writer;
mod fault;
mod gathered;
mod kind;
mod laws;
mod line_reader;
mod names;
mod next_line;
mod outcome;
mod parts;
mod place;
mod place_finder;
mod read_line;
mod refutation;
mod report_writer;
mod sweep_reader;

pub use design_reader::read_design;
pub use fault::ReportFault;
pub use laws::{
    design_readings_are_one, refutation_readings_are_one, written_designs_are_read_back,
    written_refutations_are_read_back,
};
pub use names::{name_of_track, name_of_train};
pub use outcome::{Design, Outcome, Smaller};
pub use refutation::read_refutation;
pub use report_writer::{write_outcome, write_report};
