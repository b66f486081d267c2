//! The end of a clause: both nodes leave their chains, and watch a variable above all others.
ghost use Rattle.std.specs.Prelude.{◌≡◌, ◌≢◌, ◌+◌, ◌-◌, ◌*◌, ◌^◌, ◌<◌, ◌≤◌, length, slice_set, slice_index, slice_index_or};
ghost use Rattle.sat_core.specs.declared.literal.Lit.{Lit};
ghost use Rattle.sat_core.specs.Marks.{mark_place};
ghost use Rattle.watch_store.specs.Chains.{AreChained};
ghost use Rattle.watch_store.specs.Fits.{IsKeeping, IsEndable, IsEnded};
ghost use Rattle.watch_store.specs.Places.{IsLiveAt, without_clause};
ghost use Rattle.watch_store.specs.Watching.{watches_of, nexts_of, homes_of};

use crate::choosing::idle;
use crate::finding::find;
use crate::node::Node;
use crate::relink::relink;
use crate::table::ClauseTable;
use sat_core::Lit;

/// The clause at that place is live no longer, and watches nothing.
pub(crate) fn end(table: &mut ClauseTable, heads: &mut [u32], nodes: &mut [Node], place: usize)
    requires keeping { IsKeeping table.old heads.old nodes.old }
    requires live { IsLiveAt table.old place }
    ensures keeping { IsKeeping table.new heads.new nodes.new }
    ensures table { table.new ≡ without_clause table.old place }
    ensures watches { IsEnded table.old.vars (2 * place) (watches_of nodes.old) (watches_of nodes.new) }
{
    let vars = table.vars();
    quiet(heads, nodes, vars, 2 * place);
    table.end(place);
}

/// Both nodes of a clause are idle from now on, unless they were before.
fn quiet(heads: &mut [u32], nodes: &mut [Node], vars: u32, node: usize)
    requires within { node + 1 < length nodes.old }
    requires vars { vars < 2 ^ 32 - 1 }
    requires room { 2 * vars + 2 ≤ length heads.old }
    requires pair { IsEndable vars node (watches_of nodes.old) }
    requires chained { AreChained heads.old (nexts_of nodes.old) (homes_of (watches_of nodes.old)) }
    ensures watches { IsEnded vars node (watches_of nodes.old) (watches_of nodes.new) }
    ensures chained { AreChained heads.new (nexts_of nodes.new) (homes_of (watches_of nodes.new)) }
{
    if nodes[node].watch.var.0 > vars {
        return;
    }
    let (first, second) = idle(vars);
    rest(heads, nodes, node, first);
    rest(heads, nodes, node + 1, second);
}

/// The node watches a literal of a home of its own from now on.
fn rest(heads: &mut [u32], nodes: &mut [Node], node: usize, watch: Lit)
    requires node { node < length nodes.old }
    requires named { (d : Lit) → 1 ≤ (slice_index_or (watches_of nodes.old) node d).var.0 }
    requires variable { 1 ≤ watch.var.0 }
    requires to { mark_place watch < length heads.old }
    requires elsewhere { slice_index (homes_of (watches_of nodes.old)) node ≢ mark_place watch }
    requires chained { AreChained heads.old (nexts_of nodes.old) (homes_of (watches_of nodes.old)) }
    ensures watches { watches_of nodes.new ≡ slice_set (watches_of nodes.old) node watch }
    ensures chained { AreChained heads.new (nexts_of nodes.new) (homes_of (watches_of nodes.new)) }
{
    let home = nodes[node].watch.place();
    let before = find(heads, nodes, home, node as u32);
    relink(heads, nodes, home, before, node as u32, watch);
}
