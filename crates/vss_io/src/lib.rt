//! The two devices of the program, files to read and a place to write, and the printing of lines without memory.
#![tactic(auto)]

mod calls;
mod files;
mod line_buf;
mod mem_shelf;
mod mem_sink;
mod reading;
mod sure;
#[cfg(test)]
mod tests;
mod writing;

pub use line_buf::{LineBuf, PIECE, print_line};
pub use mem_shelf::MemShelf;
pub use mem_sink::MemSink;
pub use reading::{Shelf, ShelfFault};
pub use sure::{SureShelf, SureSink};
pub use writing::{Sink, SinkFault};
