//! Reports that are written: the text of each form, and the pieces that a long line is put in.

use crate::scenes::following;
use cell_net::{Layout, Plan};
use derivation_log::{Bound, Log, Refutation, Step};
use sat_core::{ClauseId, Lit, Var};
use std::alloc::Global;
use std::process::Abort;
use std::test::Fail;
use vss_io::MemSink;
use vss_lists::Items;
use vss_report::{Design, Outcome, Smaller, read_design, read_refutation, write_report};

/// The lines of a layout with one border, and of a plan for both trains.
const DESIGN: &str =
    "design 1\nborder cut t1 500\nrun X 0\nsweep t1:0+ t1:1+\nsweep t1:1+ t1:2+\nsweep t1:2+ t1:3+\nrun Y 2\nsweep t1:0+\nsweep t1:0+ t1:1+\nsweep t1:1+ t1:2+\nsweep t1:2+ t1:3+\n";

/// The layout and the plan of these lines.
fn design(alloc: Global) -> Result<(Layout, Plan), Fail> {
    let text = format!(in alloc; "vssplan report 1\nverdict done\n{DESIGN}end\n")?;
    let bytes = text.as_bytes();
    if bytes.len() > 1000 {
        return Err(Fail::from("too long"));
    }
    let scene = following(alloc)?;
    Ok(read_design(alloc, bytes, &scene)?)
}

/// A log of one step, which claims the empty clause.
fn refutation(alloc: Global, bound: Bound) -> Result<Refutation, Fail> {
    let mut hints = Items::new(alloc);
    hints.push(ClauseId(7))?;
    let mut steps = Items::new(alloc);
    steps.push(Step::Add {
        id: ClauseId(28),
        lits: Items::new(alloc),
        hints,
    })?;
    let log = Log { steps };
    Ok(Refutation { bound, log })
}

/// Writes the report of the outcome, and compares its text.
fn expect_text(
    rt: &impl Abort,
    alloc: Global,
    outcome: &Outcome,
    wanted: &str,
) -> Result<(), Fail> {
    let scene = following(alloc)?;
    let mut out = MemSink::new(alloc, 1000, Vec::new(alloc))?;
    write_report(&scene, outcome, &mut out)?;
    assert_eq!(rt; out.written(), wanted.as_bytes(), "{wanted}");
    Ok(())
}

/// The same of a design, with what is said of smaller layouts and its lines.
fn expect_done(rt: &impl Abort, alloc: Global, smaller: Smaller, behind: &str) -> Result<(), Fail> {
    let wanted = format!(in alloc; "vssplan report 1\nverdict done\n{DESIGN}{behind}end\n")?;
    let (layout, plan) = design(alloc)?;
    let outcome = Outcome::Done(Design {
        layout,
        plan,
        smaller,
    });
    expect_text(rt, alloc, &outcome, wanted.as_str())
}

#[test]
fn a_design_has_its_text(rt: HostRuntime) -> Result<(), Fail> {
    expect_done(&rt, rt.alloc(), Smaller::NotAsked, "")?;
    expect_done(&rt, rt.alloc(), Smaller::Nothing, "smaller none\n")
}

#[test]
fn a_design_with_a_refutation_has_its_text(rt: HostRuntime) -> Result<(), Fail> {
    let refutation = refutation(rt.alloc(), Bound::AtMost(0))?;
    let smaller = Smaller::Refuted(refutation);
    expect_done(&rt, rt.alloc(), smaller, "refutes 0\na 28 0 7 0\n")
}

#[test]
fn a_spent_budget_has_its_text(rt: HostRuntime) -> Result<(), Fail> {
    let outcome = Outcome::Spent {
        conflicts: 1_000_000_000,
        best: None,
    };
    let text = "vssplan report 1\nverdict spent\nconflicts 1000000000\nbest none\nend\n";
    expect_text(&rt, rt.alloc(), &outcome, text)
}

#[test]
fn a_spent_budget_with_a_design_has_its_text(rt: HostRuntime) -> Result<(), Fail> {
    let wanted = format!(in rt.alloc();
        "vssplan report 1\nverdict spent\nconflicts 0\n{DESIGN}end\n"
    )?;
    let best = design(rt.alloc())?;
    let outcome = Outcome::Spent {
        conflicts: 0,
        best: Some(best),
    };
    expect_text(&rt, rt.alloc(), &outcome, wanted.as_str())
}

#[test]
fn an_impossible_question_has_its_text(rt: HostRuntime) -> Result<(), Fail> {
    let refutation = refutation(rt.alloc(), Bound::Given)?;
    let outcome = Outcome::Impossible(refutation);
    let text = "vssplan report 1\nverdict impossible\nrefutes given\na 28 0 7 0\nend\n";
    expect_text(&rt, rt.alloc(), &outcome, text)
}

/// An outcome that is refuted by a step of 2,000 literals, and the text of its report.
fn long(alloc: Global) -> Result<(Outcome, Vec<u8>), Fail> {
    let mut lits = Items::new(alloc);
    let mut text = b"vssplan report 1\nverdict impossible\nrefutes 3\na 1 ".to_vec(alloc)?;
    for variable in 100_000..102_000 {
        lits.push(Lit {
            var: Var(variable),
            positive: true,
        })?;
        text.extend_from_slice(format!(in alloc; "{variable} ")?.as_bytes())?;
    }
    text.extend_from_slice(b"0 0\nend\n")?;
    let mut steps = Items::new(alloc);
    steps.push(Step::Add {
        id: ClauseId(1),
        lits,
        hints: Items::new(alloc),
    })?;
    let bound = Bound::AtMost(3);
    let log = Log { steps };
    Ok((Outcome::Impossible(Refutation { bound, log }), text))
}

/// Writes the report where one put fails, and compares how much of its text is written.
fn expect_front(
    rt: &impl Abort,
    alloc: Global,
    outcome: &Outcome,
    text: &[u8],
    (failing, size): (u32, usize),
) -> Result<(), Fail> {
    let scene = following(alloc)?;
    let mut out = MemSink::new(alloc, 20_000, vec![in alloc; failing]?)?;
    let is_whole = write_report(&scene, outcome, &mut out).is_ok();
    assert_eq!(rt; is_whole, failing > 7, "{failing}");
    assert!(rt; size <= text.len());
    assert_eq!(rt; out.written(), &text[..size], "{failing}");
    Ok(())
}

/// The put that fails, and how many bytes are written then: the lines before the step have 46 bytes, and the step goes
/// out in three pieces of 4,096 bytes and a rest of 1,720.
static PUTS: [(u32, usize); 8] = [
    (2, 41),
    (3, 2094),
    (4, 6190),
    (5, 10_286),
    (6, 13_194),
    (7, 14_056),
    (8, 14_058),
    (9, 14_058),
];

#[test]
fn a_long_step_is_put_in_pieces(rt: HostRuntime) -> Result<(), Fail> {
    let (outcome, text) = long(rt.alloc())?;
    assert_eq!(rt; text.len(), 14_058);
    for put in &PUTS {
        expect_front(&rt, rt.alloc(), &outcome, text.as_slice(), *put)?;
    }
    Ok(())
}

#[test]
fn a_long_step_is_read_back(rt: HostRuntime) -> Result<(), Fail> {
    let (_, text) = long(rt.alloc())?;
    assert!(rt; text.len() <= 20_000);
    let (refutation, line) = read_refutation(rt.alloc(), text.as_slice())?;
    assert_eq!(rt; line, 3);
    match refutation.log.steps.get(0) {
        Some(Step::Add { lits, .. }) => assert_eq!(rt; lits.len(), 2000),
        other => assert!(rt; false, "{other:?}"),
    }
    Ok(())
}
