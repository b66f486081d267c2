//! Lines of steps, read and written.
use crate::{LineFault, Step, is_front_of_step, read_step, write_step};
use sat_core::{ClauseId, Lit, Var};
use std::test::Fail;
use vss_io::MemSink;
use vss_lists::Items;

#[test]
fn writes_back_each_line_that_it_reads(rt: HostRuntime) -> Result<(), Fail> {
    let lines = [
        "a 28 0 7 0",
        "a 28 5 -5 0 0",
        "a 1 0 0",
        "a 30 -3 -21 0 23 28 0",
        "a 999999999 -999999999 10 0 999999999 100 0",
        "d 0",
        "d 7 7 0",
    ];
    for line in lines {
        let step = read_step(rt.alloc(), line.as_bytes())?;
        let mut out = MemSink::new(rt.alloc(), 100, Vec::new(rt.alloc()))?;
        write_step(&step, &mut out)?;
        let mut expected = line.as_bytes().to_vec(rt.alloc())?;
        expected.push(b'\n')?;
        assert_eq!(rt; out.written(), expected.as_slice(), "{line}");
    }
    Ok(())
}

#[test]
fn reads_the_numbers_and_signs_of_a_line(rt: HostRuntime) -> Result<(), Fail> {
    match read_step(rt.alloc(), b"a 30 -3 21 0 23 28 0")? {
        Step::Add { id, lits, hints } => {
            assert_eq!(rt; id, ClauseId(30));
            let negative = Lit {
                var: Var(3),
                positive: false,
            };
            let positive = Lit {
                var: Var(21),
                positive: true,
            };
            assert_eq!(rt; lits.as_slice(), [negative, positive].as_slice());
            assert_eq!(rt; hints.as_slice(), [ClauseId(23), ClauseId(28)].as_slice());
        }
        Step::Drop { ids } => assert!(rt; false, "{ids:?}"),
    }
    match read_step(rt.alloc(), b"d 9 8 0")? {
        Step::Drop { ids } => assert_eq!(rt; ids.as_slice(), [ClauseId(9), ClauseId(8)].as_slice()),
        Step::Add { id, .. } => assert!(rt; false, "{id:?}"),
    }
    Ok(())
}

/// Lines that are no step's, and whether each is a front of one.
static OTHER_LINES: [(&str, bool); 36] = [
    ("", true),
    ("a", true),
    ("a ", true),
    ("a 2", true),
    ("a 28 0", true),
    ("a 28 0 ", true),
    ("a 28 0 7", true),
    ("a 28 -", true),
    ("a 28 5 -6 0 7 8 ", true),
    ("d", true),
    ("d ", true),
    ("d 7", true),
    ("a28 0 7 0", false),
    ("A 28 0 7 0", false),
    ("b 7 0", false),
    (" a 28 0 7 0", false),
    ("a  28 0 7 0", false),
    ("a 0 0 7 0", false),
    ("a 028 0 7 0", false),
    ("a 1000000000 0 7 0", false),
    ("a -28 0 7 0", false),
    ("a 28 -0 0 7 0", false),
    ("a 28 00 7 0", false),
    ("a 28 +5 0 7 0", false),
    ("a 28 --5 0 7 0", false),
    ("a 28 5- 0 7 0", false),
    ("a 28 5  6 0 7 0", false),
    ("a 28 0 -7 0", false),
    ("a 28 0 7 0 ", false),
    ("a 28 0 7 0 0", false),
    ("a 28 0 7 0\r", false),
    ("d -7 0", false),
    ("d 07 0", false),
    ("d 7 0 ", false),
    ("d 7 0 0", false),
    ("e 7 0", false),
];

#[test]
fn refuses_other_lines_and_tells_fronts(rt: HostRuntime) -> Result<(), Fail> {
    for (line, is_front) in &OTHER_LINES {
        match read_step(rt.alloc(), line.as_bytes()) {
            Err(fault) => assert_eq!(rt; fault, LineFault::BadLine, "{line}"),
            Ok(step) => assert!(rt; false, "{line} is read as {step:?}"),
        }
        assert_eq!(rt; is_front_of_step(line.as_bytes()), *is_front, "{line}");
    }
    assert!(rt; is_front_of_step(b"a 28 0 7 0"));
    Ok(())
}

#[test]
fn puts_a_long_step_in_pieces_and_reads_it_back(rt: HostRuntime) -> Result<(), Fail> {
    let mut lits = Items::new(rt.alloc());
    let mut expected = b"a 1 ".to_vec(rt.alloc())?;
    for variable in 100_000..102_000 {
        lits.push(Lit {
            var: Var(variable),
            positive: true,
        })?;
        expected.extend_from_slice(format!(in rt.alloc(); "{variable} ")?.as_bytes())?;
    }
    expected.extend_from_slice(b"0 0\n")?;
    let step = Step::Add {
        id: ClauseId(1),
        lits,
        hints: Items::new(rt.alloc()),
    };
    // the put that fails, and how many bytes are written then
    for (failing, size) in [(0, 2048), (1, 6144), (2, 10_240), (3, 13_148), (4, 14_008)] {
        let mut out = MemSink::new(rt.alloc(), 20_000, vec![in rt.alloc(); failing]?)?;
        assert_eq!(rt;
            write_step(&step, &mut out).is_ok(),
            failing == 4,
            "{failing}"
        );
        assert!(rt; size <= expected.len());
        assert_eq!(rt; out.written(), &expected[..size], "{failing}");
    }
    let line = expected.len() - 1;
    match read_step(rt.alloc(), &expected[..line])? {
        Step::Add { id, lits, hints } => {
            assert_eq!(rt; id, ClauseId(1));
            assert_eq!(rt; lits.len(), 2000);
            for (place, lit) in lits.as_slice().iter().enumerate() {
                assert_eq!(rt; lit.var.0 as usize, 100_000 + place);
                assert!(rt; lit.positive);
            }
            assert!(rt; hints.is_empty());
        }
        Step::Drop { ids } => assert!(rt; false, "{ids:?}"),
    }
    Ok(())
}
