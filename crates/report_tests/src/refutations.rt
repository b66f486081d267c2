//! Reports of refutations: what is read of them, and the line at which each of them goes wrong.
use derivation_log::{Bound, Step};
use sat_core::ClauseId;
use std::test::Fail;
use vss_report::{ReportFault, read_refutation};

/// A report of an impossible question, and of the bound that it refutes.
static IMPOSSIBLE: &str = "vssplan report 1\nverdict impossible\nrefutes 3\na 28 0 7 0\nend\n";

#[test]
fn reads_bound_steps_and_line_of_a_refutation(rt: HostRuntime) -> Result<(), Fail> {
    let (refutation, line) = read_refutation(rt.alloc(), IMPOSSIBLE.as_bytes())?;
    assert_eq!(rt; refutation.bound, Bound::AtMost(3));
    assert_eq!(rt; line, 3);
    assert_eq!(rt; refutation.log.steps.len(), 1);
    match refutation.log.steps.get(0) {
        Some(Step::Add { id, lits, hints }) => {
            assert_eq!(rt; *id, ClauseId(28));
            assert!(rt; lits.is_empty());
            assert_eq!(rt; hints.as_slice(), [ClauseId(7)].as_slice());
        }
        other => assert!(rt; false, "{other:?}"),
    }
    Ok(())
}

#[test]
fn reads_a_refutation_behind_a_design(rt: HostRuntime) -> Result<(), Fail> {
    let text =
        "vssplan report 1\nverdict done\ndesign 1\nborder cut t1 500\nrun X 0\nsweep t1:0+ t1:1+\nsweep t1:1+\nrefutes given\nd 7 0\na 29 -5 5 0 0\nend\n";
    let (refutation, line) = read_refutation(rt.alloc(), text.as_bytes())?;
    assert_eq!(rt; refutation.bound, Bound::Given);
    assert_eq!(rt; line, 8);
    assert_eq!(rt; refutation.log.steps.len(), 2);
    Ok(())
}

/// Texts, and the fault that each has.
static FAULTS: [(&str, ReportFault); 45] = [
    ("", ReportFault::BadLine(1)),
    ("\n", ReportFault::BadLine(1)),
    ("vssplan report 1", ReportFault::BadLine(2)),
    ("vssplan report 1\n", ReportFault::BadLine(2)),
    ("vssplan report 1\r\n", ReportFault::BadLine(1)),
    ("vssplan report 1\nverdict ", ReportFault::BadLine(3)),
    ("vssplan report 1\nverdict x", ReportFault::BadLine(2)),
    (
        "vssplan report 1\nverdict impossible\nrefutes 3\na 28 0 7 0\n",
        ReportFault::BadLine(5),
    ),
    (
        "vssplan report 1\nverdict impossible\nrefutes 3\na 28 0 7 0\nen",
        ReportFault::BadLine(6),
    ),
    (
        "vssplan report 1\nverdict impossible\nrefutes 3\na 28 0 7 0\nend",
        ReportFault::BadLine(6),
    ),
    (
        "vssplan report 1\nverdict impossible\nrefutes 3\na 28 0 7 0\nend\n\n",
        ReportFault::BadLine(6),
    ),
    (
        "vssplan report 1\nverdict impossible\nrefutes 3\na 28 0 7 0\nend\nend\n",
        ReportFault::BadLine(6),
    ),
    (
        "vssplan report 1\nverdict impossible\nrefutes 03\nend\n",
        ReportFault::BadLine(3),
    ),
    (
        "vssplan report 1\nverdict impossible\nrefutes 1000000000\nend\n",
        ReportFault::BadLine(3),
    ),
    (
        "vssplan report 1\nverdict impossible\nrefutes  3\nend\n",
        ReportFault::BadLine(3),
    ),
    (
        "vssplan report 1\nverdict impossible\nrefutes given \nend\n",
        ReportFault::BadLine(3),
    ),
    (
        "vssplan report 1\nverdict impossible\nend\n",
        ReportFault::BadLine(3),
    ),
    (
        "vssplan report 1\nverdict impossible\nrefutes 3\na 0 0 7 0\nend\n",
        ReportFault::BadLine(4),
    ),
    (
        "vssplan report 1\nverdict impossible\nrefutes 3\na 28 -0 0 7 0\nend\n",
        ReportFault::BadLine(4),
    ),
    (
        "vssplan report 1\nverdict impossible\nrefutes 3\na 1000000000 0 7 0\nend\n",
        ReportFault::BadLine(4),
    ),
    (
        "vssplan report 1\nverdict impossible\nrefutes 3\na  28 0 7 0\nend\n",
        ReportFault::BadLine(4),
    ),
    (
        "vssplan report 1\nverdict impossible\nrefutes 3\na 28 0 7 0 \nend\n",
        ReportFault::BadLine(4),
    ),
    (
        "vssplan report 1\nverdict spent\nconflicts 1000000000\nbest none\nend\n",
        ReportFault::NoPart,
    ),
    (
        "vssplan report 1\nverdict spent\nconflicts 1000000001\nbest none\nend\n",
        ReportFault::BadLine(3),
    ),
    (
        "vssplan report 1\nverdict spent\nconflicts 100000000",
        ReportFault::BadLine(4),
    ),
    (
        "vssplan report 1\nverdict spent\nconflicts 1000000000",
        ReportFault::BadLine(4),
    ),
    (
        "vssplan report 1\nverdict spent\nconflicts 1000000001",
        ReportFault::BadLine(3),
    ),
    (
        "vssplan report 1\nverdict spent\nconflicts 0\nbest none\nrefutes 3\nend\n",
        ReportFault::BadLine(5),
    ),
    (
        "vssplan report 1\nverdict spent\nconflicts 9\ndesign 0\nsmaller none\nend\n",
        ReportFault::BadLine(5),
    ),
    (
        "vssplan report 1\nverdict spent\nconflicts 9\ndesign 0\nend\n",
        ReportFault::NoPart,
    ),
    (
        "vssplan report 1\nverdict done\ndesign 0\nsmaller none\nend\n",
        ReportFault::NoPart,
    ),
    (
        "vssplan report 1\nverdict done\ndesign 2\nborder cut t1 500\nrun X 0\n",
        ReportFault::BadLine(5),
    ),
    (
        "vssplan report 1\nverdict done\ndesign 1\nborder cut t1 0500\n",
        ReportFault::BadLine(4),
    ),
    (
        "vssplan report 1\nverdict done\ndesign 1\nborder joint J\nend\n",
        ReportFault::NoPart,
    ),
    (
        "vssplan report 1\nverdict done\ndesign 1\nborder joint J K\nend\n",
        ReportFault::BadLine(4),
    ),
    (
        "vssplan report 1\nverdict done\ndesign 0\nrun X 0\nend\n",
        ReportFault::BadLine(5),
    ),
    (
        "vssplan report 1\nverdict done\ndesign 0\nrun X 00\n",
        ReportFault::BadLine(4),
    ),
    (
        "vssplan report 1\nverdict done\ndesign 0\nrun X 0\nsweep\n",
        ReportFault::BadLine(5),
    ),
    (
        "vssplan report 1\nverdict done\ndesign 0\nrun X 0\nsweep t1:01+\n",
        ReportFault::BadLine(5),
    ),
    (
        "vssplan report 1\nverdict done\ndesign 0\nrun X 0\nsweep t1:1\n",
        ReportFault::BadLine(5),
    ),
    (
        "vssplan report 1\nverdict done\ndesign 0\nrun X 0\nsweep  t1:1+\n",
        ReportFault::BadLine(5),
    ),
    (
        "vssplan report 1\nverdict done\ndesign 0\nrun X 0\nsweep t1:1+ t",
        ReportFault::BadLine(6),
    ),
    (
        "vssplan report 1\nverdict done\ndesign 0\nrun X 0\nsweep t1:1+ :",
        ReportFault::BadLine(5),
    ),
    (
        "vssplan report 1\nverdict done\ndesign 0\nrun X 0\nsweep t1:1+\nend\n",
        ReportFault::NoPart,
    ),
    (
        "vssplan report 1\nverdict done\ndesign 999999999\n",
        ReportFault::BadLine(4),
    ),
];

#[test]
fn names_the_first_line_at_which_a_text_goes_wrong(rt: HostRuntime) -> Result<(), Fail> {
    for (text, fault) in &FAULTS {
        let bytes = text.as_bytes();
        assert!(rt; bytes.len() <= 1000);
        match read_refutation(rt.alloc(), bytes) {
            Err(found) => assert_eq!(rt; found, *fault, "{text}"),
            Ok((refutation, _)) => assert!(rt; false, "{text} gives {refutation:?}"),
        }
    }
    Ok(())
}
