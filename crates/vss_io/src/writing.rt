//! A place to write, and why bytes are not written.

ghost use Rattle.vss_io.specs.Shown.{Output};
ghost use Rattle.vss_io.specs.Written.{Prints};

use thiserror::Error;

/// Why bytes were not written.
#[derive(Clone, Copy, Debug, PartialEq, Eq, Error)]
pub enum SinkFault {
    /// The device refused a piece, or the rest of one.
    #[error("the output could not be written")]
    Failed,
}

/// A place where bytes are written, piece after piece.
pub trait Sink {
    // what contracts see of the sink
    ghost shown: { Self → Output };

    /// Writes the piece, without memory. On a failure a front of it may be written.
    fn put(&mut self, piece: &[u8]) -> Result<(), SinkFault>
        ensures { Prints (shown self.old) (shown self.new) piece.now result };
}
