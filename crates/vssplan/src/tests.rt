//! The real devices at work.

use crate::edge::{FileShelf, StdSink};
use std::fs;
use std::test::Fail;
use vss_io::{Shelf, ShelfFault, Sink};

#[test]
fn a_file_of_the_system_is_read(rt: HostRuntime) -> Result<(), Fail> {
    let name = "vssplan_test_of_files.txt";
    fs::write(&rt, name, "abc\n")?;
    let mut shelf = FileShelf::new(&rt, rt.alloc());
    let whole = shelf.read_file(name, 4);
    let longer = shelf.read_file(name, 3);
    fs::remove_file(&rt, name)?;
    assert_eq!(rt; whole, Ok(Vec::from_slice(rt.alloc(), b"abc\n")?));
    assert_eq!(rt; longer, Err(ShelfFault::TooLong));
    assert_eq!(rt; shelf.read_file(name, 4), Err(ShelfFault::Failed));
    Ok(())
}

#[test]
fn a_line_is_put_on_standard_output(rt: HostRuntime) -> Result<(), Fail> {
    let mut out = StdSink::new(&rt);
    assert_eq!(rt; out.put(b"vssplan's standard output\n"), Ok(()));
    Ok(())
}
