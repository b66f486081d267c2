//! The search for all walks from one cell, in their order: first the walks over the same nodes, which
//! stand side by side, then those that go on over one more node, from the lowest such node on.
ghost use Rattle.std.specs.Prelude.{◌≡◌, ◌<◌, ◌≤◌, ◌++◌, true, false, All, IfErr, IfOk, OnOk, length, slice_range, take};
ghost use Rattle.std.specs.List.{flat_map};
ghost use Rattle.cell_net.specs.Rules.{IsInstance};
ghost use Rattle.cell_net.specs.Space.{IsCell};
ghost use Rattle.cell_net.specs.declared.ids.NodeId.{NodeId};
ghost use Rattle.gap_clauses.specs.Fans.{AreListed, AreRows, GoesOverNext, IsDone, IsFanOf, IsNewIn, IsNotBelow, IsSearchState, IsSearchStop, IsSkipped, IsStop, LeadToCells, all_over, behind, ends_over, has_node, longer, nodes_at, over, walk_at};
ghost use Rattle.gap_clauses.specs.Walks.{IsWalkFrom, end_of};

use crate::fan::{Fan, Stop};
use cell_net::{CellId, Instance, NodeId};
use std::alloc::Global;
use vss_rows::Rows;

/// What walks are searched in: the instance, and the cells behind each cell's nodes.
#[derive(Drop)]
pub(crate) struct Search<'a> {
    pub inst: &'a Instance,
    pub neighbours: &'a Rows<CellId>,
}

/// All walks from the cell, in order, unless some cell has more than 64 of them. Linear in the walks,
/// and in the steps of those that come to a node where three cells of the section meet.
pub(crate) fn fan_of(alloc: Global, search: &Search, cell: CellId) -> Result<Fan, Stop>
    requires rules { IsInstance search.now.inst.now }
    requires rows { AreRows search.now.inst.now search.now.neighbours.now }
    requires cell { IsCell search.now.inst.now cell }
    ensures ok { IfOk result (IsFanOf search.now.inst.now cell) }
    ensures err { IfErr result (IsSearchStop search.now.inst.now cell) }
{
    let mut fan = match Fan::new(alloc, cell, search.inst.cell_count()) {
        Ok(fan) => fan,
        Err(_) => return Err(Stop::Memory),
    };
    match visit(search, 0, &mut fan) {
        Ok(()) => {
            fan.is_few();
            Ok(fan)
        }
        Err(stop) => Err(stop),
    }
}

/// Appends, in order, all walks that go on from the group of walks over the same nodes that stand from
/// that place on.
fn visit(search: &Search, from: usize, fan: &mut Fan) -> Result<(), Stop>
    requires { IsSearchState search.now.inst.now search.now.neighbours.now fan.old from }
    ensures first { fan.new.first ≡ fan.old.first }
    ensures cells { fan.new.cells ≡ fan.old.cells }
    ensures keeps { OnOk result (take (length fan.old.walks) fan.new.walks ≡ fan.old.walks) }
    ensures ok { OnOk result (AreListed search.now.inst.now fan.old.first (IsDone (nodes_at fan.old.walks from) search.now.inst.now.nodes) fan.new.walks) }
    ensures err { IfErr result (IsSearchStop search.now.inst.now fan.old.first) }
{
    let end = fan.len();
    let mut below = 0;
    while let Some(node) = next_node(search, fan, from, end, below) {
        let begin = fan.len();
        match lengthen_all(search, node, from, end, fan) {
            Ok(()) => {}
            Err(stop) => return Err(stop),
        }
        if begin < fan.len() {
            match visit(search, begin, fan) {
                Ok(()) => {}
                Err(stop) => return Err(stop),
            }
        }
        below = u64::from(node.0) + 1;
    }
    Ok(())
}

/// The lowest node, from that number on, at the last cell of a walk of the group.
fn next_node(search: &Search, fan: &Fan, from: usize, end: usize, below: u64) -> Option<NodeId>
    requires within { end ≤ length fan.now.walks }
    requires last { LeadToCells search.now.inst.now fan.now.first fan.now.walks }
    ensures not_below { IsNotBelow below result }
    ensures next { All (GoesOverNext search.now.inst.now fan.now.first below result) (slice_range fan.now.walks from end) }
{
    let mut next = None;
    for place in from..end {
        let spec = search.inst.cell(fan.last_cell(place));
        next = lower(lower(next, below, spec.low), below, spec.high);
    }
    next
}

/// The lower of the two nodes, if this one has at least that number.
fn lower(next: Option<NodeId>, below: u64, node: NodeId) -> Option<NodeId>
    requires { IsNotBelow below next }
    ensures not_below { IsNotBelow below result }
    ensures node { IsSkipped below result node }
    ensures others { (m : NodeId) → IsSkipped below next m → IsSkipped below result m }
{
    if u64::from(node.0) < below {
        return next;
    }
    match next {
        Some(lowest) => {
            if lowest.0 <= node.0 {
                Some(lowest)
            } else {
                Some(node)
            }
        }
        None => Some(node),
    }
}

/// Appends the walks of the group one step longer over the node, in order.
fn lengthen_all(
    search: &Search,
    node: NodeId,
    from: usize,
    end: usize,
    fan: &mut Fan,
) -> Result<(), Stop>
    requires rows { AreRows search.now.inst.now search.now.neighbours.now }
    requires cells { fan.old.cells ≡ length search.now.inst.now.cells }
    requires first { IsCell search.now.inst.now fan.old.first }
    requires within { end ≤ length fan.old.walks }
    requires walks { All (IsWalkFrom search.now.inst.now fan.old.first) fan.old.walks }
    ensures first { fan.new.first ≡ fan.old.first }
    ensures cells { fan.new.cells ≡ fan.old.cells }
    ensures ok { OnOk result (fan.new.walks ≡ fan.old.walks ++ all_over search.now.inst.now search.now.neighbours.now fan.old.first node (slice_range fan.old.walks from end)) }
    ensures err { IfErr result (IsStop fan.old.first (fan.old.walks ++ all_over search.now.inst.now search.now.neighbours.now fan.old.first node (slice_range fan.old.walks from end))) }
{
    for place in from..end {
        match lengthen_over(search, node, place, fan) {
            Ok(()) => {}
            Err(stop) => return Err(stop),
        }
    }
    Ok(())
}

/// Appends the walk at that place one step longer over the node, into each cell that it can.
fn lengthen_over(search: &Search, node: NodeId, place: usize, fan: &mut Fan) -> Result<(), Stop>
    requires rows { AreRows search.now.inst.now search.now.neighbours.now }
    requires cells { fan.old.cells ≡ length search.now.inst.now.cells }
    requires first { IsCell search.now.inst.now fan.old.first }
    requires within { place < length fan.old.walks }
    requires walk { IsWalkFrom search.now.inst.now fan.old.first (walk_at fan.old.walks place) }
    ensures first { fan.new.first ≡ fan.old.first }
    ensures cells { fan.new.cells ≡ fan.old.cells }
    ensures ok { OnOk result (fan.new.walks ≡ fan.old.walks ++ over search.now.inst.now search.now.neighbours.now fan.old.first node (walk_at fan.old.walks place)) }
    ensures err { IfErr result (IsStop fan.old.first (fan.old.walks ++ over search.now.inst.now search.now.neighbours.now fan.old.first node (walk_at fan.old.walks place))) }
{
    let cells = behind_last(search, fan, node, place);
    if cells.is_empty() {
        return Ok(());
    }
    if goes_over(fan, node, place, cells.len() == 1) {
        return Ok(());
    }
    lengthen_into(node, place, cells, fan)
}

/// The other cells of the section at the node, rising, where the last cell of the walk at that place is
/// at it, and else none.
fn behind_last<'a>(search: &Search<'a>, fan: &Fan, node: NodeId, place: usize) -> &'a [CellId]
    requires rows { AreRows search.now.inst.now search.now.neighbours.now }
    requires within { place < length fan.now.walks }
    requires last { IsCell search.now.inst.now (end_of fan.now.first (walk_at fan.now.walks place)) }
    ensures { result.now ≡ behind search.now.inst.now search.now.neighbours.now (end_of fan.now.first (walk_at fan.now.walks place)) node }
{
    behind(search, fan.last_cell(place), node)
}

/// Whether the walk at that place goes over the node; in constant time where only its last step can,
/// else linear in its steps.
fn goes_over(fan: &Fan, node: NodeId, place: usize, at_last: bool) -> bool
    requires within { place < length fan.now.walks }
    requires at_last { at_last ≡ true → ends_over node (walk_at fan.now.walks place) ≡ false → has_node node (walk_at fan.now.walks place) ≡ false }
    ensures { result ≡ has_node node (walk_at fan.now.walks place) }
{
    if at_last {
        fan.ends_over(place, node)
    } else {
        fan.has_node(place, node)
    }
}

/// The other cells of the cell's section at the node, rising.
fn behind<'a>(search: &Search<'a>, cell: CellId, node: NodeId) -> &'a [CellId]
    requires rows { AreRows search.now.inst.now search.now.neighbours.now }
    requires cell { IsCell search.now.inst.now cell }
    ensures { result.now ≡ behind search.now.inst.now search.now.neighbours.now cell node }
{
    let spec = search.inst.cell(cell);
    let at = 2 * cell.0 as usize;
    if spec.low.0 == node.0 {
        search.neighbours.row(at)
    } else if spec.high.0 == node.0 {
        search.neighbours.row(at + 1)
    } else {
        &[]
    }
}

/// Appends the walk at that place one step longer over the node, into each of the cells that it doesn't
/// have. It has none but the first one.
fn lengthen_into(node: NodeId, place: usize, cells: &[CellId], fan: &mut Fan) -> Result<(), Stop>
    requires within { place < length fan.old.walks }
    requires cells { All (λ c. c.0 < fan.old.cells) cells.now }
    requires new { All (IsNewIn (walk_at fan.old.walks place)) cells.now }
    ensures first { fan.new.first ≡ fan.old.first }
    ensures cells { fan.new.cells ≡ fan.old.cells }
    ensures ok { OnOk result (fan.new.walks ≡ fan.old.walks ++ flat_map (longer fan.old.first node (walk_at fan.old.walks place)) cells.now) }
    ensures err { IfErr result (IsStop fan.old.first (fan.old.walks ++ flat_map (longer fan.old.first node (walk_at fan.old.walks place)) cells.now)) }
{
    for at in 0..cells.len() {
        match lengthen_by(node, place, cells[at], fan) {
            Ok(()) => {}
            Err(stop) => return Err(stop),
        }
    }
    Ok(())
}

/// Appends the walk at that place one step longer into the cell, unless the walk begins with it.
fn lengthen_by(node: NodeId, place: usize, cell: CellId, fan: &mut Fan) -> Result<(), Stop>
    requires within { place < length fan.old.walks }
    requires cell { cell.0 < fan.old.cells }
    requires new { IsNewIn (walk_at fan.old.walks place) cell }
    ensures first { fan.new.first ≡ fan.old.first }
    ensures cells { fan.new.cells ≡ fan.old.cells }
    ensures ok { OnOk result (fan.new.walks ≡ fan.old.walks ++ longer fan.old.first node (walk_at fan.old.walks place) cell) }
    ensures err { IfErr result (IsStop fan.old.first (fan.old.walks ++ longer fan.old.first node (walk_at fan.old.walks place) cell)) }
{
    if fan.begins_with(cell) {
        return Ok(());
    }
    fan.push(place, node, cell)
}
