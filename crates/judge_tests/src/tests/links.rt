//! Which cells are linked, and which follow each other.

ghost use Rattle.std.specs.Prelude.{◌≡◌, ◌<◌, length};

use super::nets::{Net, down, instance_of, layout_of, no_traffic, up};
use cell_net::{CellId, DirCell, Instance};
use layout_rules::{Classes, classes_of};
use std::alloc::Global;
use std::process::Abort;
use std::test::Fail;

/// Wants two cells linked exactly where the two numbers at their places are the same.
fn check_links(
    rt: &impl Abort,
    alloc: Global,
    net: Net,
    borders: &[u32],
    groups: &[u32],
) -> Result<(), Fail> {
    let inst = instance_of(rt, alloc, net, no_traffic(alloc))?;
    let layout = layout_of(rt, alloc, &inst, borders)?;
    let classes = classes_of(alloc, &inst, &layout)?;
    let count = inst.cell_count();
    assert_eq!(rt; groups.len(), count as usize);
    for one in 0..count {
        check_links_of(rt, &classes, count, groups, one);
    }
    Ok(())
}

fn check_links_of(rt: &impl Abort, classes: &Classes, count: u32, groups: &[u32], one: u32)
    requires classes { length classes.now ≡ count }
    requires groups { length groups.now ≡ count }
    requires one { one < count }
{
    for other in 0..count {
        assert_eq!(rt;
            classes.linked(CellId(one), CellId(other)),
            groups[one as usize] == groups[other as usize],
            "cells {one} and {other}"
        );
    }
}

/// A tip, cell 0; a leg of cells 1 and 2, with the candidate 0 between them; and a leg of cells 3 and 4,
/// with the candidate 1 between them.
fn point() -> Net<'static> {
    Net {
        cells: &[(0, 1, 0), (1, 2, 0), (2, 4, 0), (1, 3, 0), (3, 5, 0)],
        joins: &[(0, 1), (1, 2), (0, 3), (3, 4)],
        candidates: &[2, 3],
        kept: &[],
    }
}

#[test]
fn the_legs_of_a_point_are_linked_up_to_their_first_borders(rt: HostRuntime) -> Result<(), Fail> {
    let alloc = rt.alloc();
    check_links(&rt, alloc, point(), &[], &[0, 0, 0, 0, 0])?;
    check_links(&rt, alloc, point(), &[0], &[0, 0, 2, 0, 0])?;
    check_links(&rt, alloc, point(), &[1], &[0, 0, 0, 0, 4])?;
    check_links(&rt, alloc, point(), &[0, 1], &[0, 0, 2, 0, 4])
}

/// The ways from cell 0 to cell 1 and from cell 2 to cell 3 cross at node 4.
fn crossing() -> Net<'static> {
    Net {
        cells: &[(0, 4, 0), (4, 1, 0), (2, 4, 0), (4, 3, 0)],
        joins: &[(0, 1), (2, 3)],
        candidates: &[],
        kept: &[],
    }
}

fn check_follows(rt: &impl Abort, inst: &Instance, before: DirCell, after: DirCell, want: bool) {
    assert!(rt; before.cell.0 < inst.cell_count());
    assert_eq!(rt; inst.follows(before, after), want, "{before:?}, {after:?}");
}

#[test]
fn ways_that_cross_are_linked_and_lead_straight_on(rt: HostRuntime) -> Result<(), Fail> {
    let alloc = rt.alloc();
    check_links(&rt, alloc, crossing(), &[], &[0, 0, 0, 0])?;
    let inst = instance_of(&rt, alloc, crossing(), no_traffic(alloc))?;
    check_follows(&rt, &inst, up(0), up(1), true);
    check_follows(&rt, &inst, up(2), up(3), true);
    check_follows(&rt, &inst, down(1), down(0), true);
    // into the other way, back along the same one, and against the heading
    check_follows(&rt, &inst, up(0), up(3), false);
    check_follows(&rt, &inst, up(0), down(2), false);
    check_follows(&rt, &inst, up(0), down(0), false);
    check_follows(&rt, &inst, down(0), up(1), false);
    Ok(())
}

#[test]
fn cells_of_two_sections_are_never_linked(rt: HostRuntime) -> Result<(), Fail> {
    let joint = Net {
        cells: &[(0, 1, 0), (1, 2, 1)],
        joins: &[(0, 1)],
        candidates: &[],
        kept: &[],
    };
    check_links(&rt, rt.alloc(), joint, &[], &[0, 1])
}
