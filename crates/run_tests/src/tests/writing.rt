//! Puts that fail, and what is written then.

use super::asking::{JUDGE, files_of, shelf_of, words_of};
use crate::texts::{BORDERED, FOLLOWING, LINE, XY};
use plain_solver::PlainSolver;
use std::test::Fail;
use vss_io::{MemSink, SureShelf, SureSink};
use vss_run::run;

// The words, the report, and what is written: of a put that is to fail the sink takes half, rounded down.
static FAILING: [(&str, &str, &str); 4] = [
    (JUDGE, BORDERED, "lawf"),
    (JUDGE, FOLLOWING, "breach apart X"),
    (JUDGE, "", "refused report "),
    ("judge net", "", "usage: vssplan TASK NET TIMETABLE ["),
];

#[test]
fn a_put_that_fails_leaves_a_front_of_the_line(rt: HostRuntime) -> Result<(), Fail> {
    for (words, report, written) in &FAILING {
        let mut shelf = shelf_of(rt.alloc(), LINE, XY, report)?;
        let words = words_of(rt.alloc(), words)?;
        let mut out = MemSink::new(rt.alloc(), 1000, vec![in rt.alloc(); 0]?)?;
        let status = run::<PlainSolver, _, _>(rt.alloc(), words.as_slice(), &mut shelf, &mut out);
        assert_eq!(rt; status.number(), 5, "at {written}");
        assert_eq!(rt; out.written(), written.as_bytes());
    }
    Ok(())
}

// The room of the sink, what is written, and the status: of a put past its room the sink takes what fits.
static ROOMS: [(usize, &str, u8); 4] = [
    (0, "", 5),
    (3, "law", 5),
    (8, "lawful 1", 5),
    (9, "lawful 1\n", 0),
];

#[test]
fn a_line_that_does_not_fit_is_a_write_fault(rt: HostRuntime) -> Result<(), Fail> {
    for (room, written, wanted) in &ROOMS {
        let mut shelf = shelf_of(rt.alloc(), LINE, XY, BORDERED)?;
        let words = words_of(rt.alloc(), JUDGE)?;
        let mut out = MemSink::new(rt.alloc(), *room, Vec::new(rt.alloc()))?;
        let status = run::<PlainSolver, _, _>(rt.alloc(), words.as_slice(), &mut shelf, &mut out);
        assert_eq!(rt; status.number(), *wanted, "at {written}");
        assert_eq!(rt; out.written(), written.as_bytes());
    }
    Ok(())
}

#[test]
fn devices_that_never_fail_get_an_answer(rt: HostRuntime) -> Result<(), Fail> {
    let words = words_of(rt.alloc(), JUDGE)?;
    for (report, wanted) in [(BORDERED, 0), (FOLLOWING, 8), ("", 3)] {
        let files = files_of(rt.alloc(), LINE, XY, report)?;
        let mut shelf = SureShelf::new(rt.alloc(), files);
        let mut out = SureSink::new();
        let status = run::<PlainSolver, _, _>(rt.alloc(), words.as_slice(), &mut shelf, &mut out);
        assert_eq!(rt; status.number(), wanted);
    }
    Ok(())
}
