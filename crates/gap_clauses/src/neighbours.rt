//! For each cell, the other cells of its section at each of its nodes.
ghost use Rattle.std.specs.Prelude.{◌≡◌, ◌+◌, ◌↔◌, IfOk, IsTrue, OnOk};
ghost use Rattle.cell_net.specs.Borders.{IsAtEnd};
ghost use Rattle.cell_net.specs.Space.{IsCell};
ghost use Rattle.gap_clauses.specs.Walks.{SharesNode};
ghost use Rattle.gap_clauses.specs.Fans.{AreBehind, AreBehindBelow, AreRows, AreRowsBelow};

use cell_net::{CellId, CellSpec, Instance, NodeId};
use std::alloc::{AllocError, Global};
use vss_rows::Rows;

/// Two rows for each cell: the other cells of its section at its low node, and those at its high node,
/// rising; quadratic in the cells.
pub(crate) fn neighbours_of(alloc: Global, inst: &Instance) -> Result<Rows<CellId>, AllocError>
    ensures { IfOk result (AreRows inst.now) }
{
    let mut rows = Rows::new(alloc);
    for cell in 0..inst.cell_count() {
        push_both(alloc, inst, CellId(cell), &mut rows)?;
    }
    Ok(rows)
}

/// Appends the two rows of the cell.
fn push_both(
    alloc: Global,
    inst: &Instance,
    cell: CellId,
    rows: &mut Rows<CellId>,
) -> Result<(), AllocError>
    requires cell { IsCell inst.now cell }
    requires so_far { AreRowsBelow inst.now cell.0 rows.old }
    ensures { OnOk result (AreRowsBelow inst.now (cell.0 + 1) rows.new) }
{
    let spec = inst.cell(cell);
    let low = behind(alloc, inst, cell, spec.low)?;
    let high = behind(alloc, inst, cell, spec.high)?;
    rows.push(&low)?;
    rows.push(&high)?;
    Ok(())
}

/// The other cells of the cell's section at the node, rising.
fn behind(
    alloc: Global,
    inst: &Instance,
    cell: CellId,
    node: NodeId,
) -> Result<Vec<CellId>, AllocError>
    requires { IsCell inst.now cell }
    ensures { IfOk result (λ found. AreBehind inst.now cell node found.items) }
{
    let mut found = Vec::new(alloc);
    for number in 0..inst.cell_count() {
        push_if_behind(inst, cell, node, CellId(number), &mut found)?;
    }
    Ok(found)
}

/// Appends the other cell, if it is one of them.
fn push_if_behind(
    inst: &Instance,
    cell: CellId,
    node: NodeId,
    other: CellId,
    found: &mut Vec<CellId>,
) -> Result<(), AllocError>
    requires cell { IsCell inst.now cell }
    requires other { IsCell inst.now other }
    requires so_far { AreBehindBelow inst.now cell node other.0 found.old.items }
    ensures { OnOk result (AreBehindBelow inst.now cell node (other.0 + 1) found.new.items) }
{
    if other.0 == cell.0 {
        return Ok(());
    }
    if shares(inst, cell, node, other) {
        found.push(other)?;
    }
    Ok(())
}

/// Whether both cells are of one section and have the node at an end.
fn shares(inst: &Instance, cell: CellId, node: NodeId, other: CellId) -> bool
    requires cell { IsCell inst.now cell }
    requires other { IsCell inst.now other }
    ensures { IsTrue result ↔ SharesNode inst.now cell node other }
{
    share(inst.cell(cell), node, inst.cell(other))
}

/// The same of what the cells are.
fn share(one: CellSpec, node: NodeId, other: CellSpec) -> bool
    ensures { IsTrue result ↔ ((one.section ≡ other.section) × IsAtEnd one node × IsAtEnd other node) }
{
    one.section == other.section && is_at_end(one, node) && is_at_end(other, node)
}

/// Whether the node is at an end of the cell.
fn is_at_end(cell: CellSpec, node: NodeId) -> bool
    ensures { IsTrue result ↔ IsAtEnd cell node }
{
    cell.low == node || cell.high == node
}
