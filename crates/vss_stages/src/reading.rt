//! The stage that reads a file.

ghost use Rattle.std.specs.Prelude.{[], ◌∷◌};
ghost use Rattle.vss_io.specs.Reading.{Keeps};
ghost use Rattle.vss_stages.specs.Stages.{Ends};
ghost use Rattle.vss_stages.specs.Inputs.{IsRead};

use crate::input::Input;
use crate::stop::Stop;
use vss_io::{Shelf, ShelfFault};

/// Reads one of the files, whole. Linear in its bytes, of which it takes no more than the file's limit.
pub fn read_input<H: Shelf, R>(shelf: &mut H, input: Input, name: &str) -> Result<Vec<u8>, Stop<R>>
    ensures kept { Keeps (H.shown shelf.old) (H.shown shelf.new) (name.now ∷ []) }
    ensures read { Ends (IsRead (H.shown shelf.old) (H.shown shelf.new) input name.now) (λ bytes. bytes.items) result }
{
    match shelf.read_file(name, input.limit()) {
        Ok(bytes) => Ok(bytes),
        Err(ShelfFault::Failed) => Err(Stop::ReadFault(input)),
        Err(ShelfFault::TooLong) => Err(Stop::TooLong(input)),
        Err(ShelfFault::Memory) => Err(Stop::Memory),
    }
}
