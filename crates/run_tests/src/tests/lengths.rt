//! Files that are too long.

ghost use Rattle.std.specs.Prelude.{None, false};

use super::asking::{JUDGE, expect_run, files_of};
use crate::texts::{BORDERED, LINE, XY};
use std::test::Fail;
use vss_io::{Shelf, ShelfFault, SureShelf};

/// Files of which one is said to have more bytes than its text. The readings are counted.
#[derive(Drop)]
pub struct LongShelf {
    pub files: SureShelf,
    pub long: &'static str,
    pub length: u64,
    pub readings: u32,
}

impl Shelf for LongShelf {
    ghost shown = { λ _. record { tells = false; file = λ _. None; faults = λ _. 0 } };

    fn read_file(&mut self, name: &str, max: u64) -> Result<Vec<u8>, ShelfFault> {
        self.readings = self.readings.saturating_add(1);
        if name == self.long && self.length > max {
            return Err(ShelfFault::TooLong);
        }
        self.files.read_file(name, max)
    }
}

// The file and its bytes, and how the call ends: the most bytes are read, and no more.
static LENGTHS: [(&str, u64, &str, u8); 6] = [
    ("net", 16_777_216, "lawful 1", 0),
    (
        "net",
        16_777_217,
        "refused network FileTooLong document 0",
        3,
    ),
    ("times", 16_777_216, "lawful 1", 0),
    (
        "times",
        16_777_217,
        "refused timetable FileTooLong document 0",
        3,
    ),
    ("plan", 1_073_741_824, "lawful 1", 0),
    (
        "plan",
        1_073_741_825,
        "refused report FileTooLong document 0",
        3,
    ),
];

#[test]
fn a_file_that_is_too_long_is_refused(rt: HostRuntime) -> Result<(), Fail> {
    for (long, length, line, status) in &LENGTHS {
        let mut shelf = LongShelf {
            files: SureShelf::new(rt.alloc(), files_of(rt.alloc(), LINE, XY, BORDERED)?),
            long,
            length: *length,
            readings: 0,
        };
        expect_run(&rt, rt.alloc(), JUDGE, &mut shelf, line, *status)?;
    }
    Ok(())
}
