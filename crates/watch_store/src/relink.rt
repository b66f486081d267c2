//! A node leaves its chain and goes to the front of another.
ghost use Rattle.std.specs.Prelude.{◌≡◌, ◌≢◌, ℕ, ◌<◌, ◌≤◌, List, ◌∷◌, length, Some, None, slice_set, slice_index, slice_index_or};
ghost use Rattle.sat_core.specs.Marks.{mark_place};
ghost use Rattle.watch_store.specs.declared.node.Node.{Node};
ghost use Rattle.watch_store.specs.Chains.{IsChainWalk};
ghost use Rattle.watch_store.specs.Watching.{watches_of, nexts_of, homes_of};

use crate::node::Node;
use sat_core::Lit;

/// Moves a node of a home's chain, behind `before`, to the front of the chain of another literal.
pub(crate) fn relink(
    heads: &mut [u32],
    nodes: &mut [Node],
    home: usize,
    before: Option<u32>,
    node: u32,
    watch: Lit,
)
    requires home { home < length heads.old }
    requires node { node < length nodes.old }
    requires before { (b : ℕ) → before ≡ Some b → b < length nodes.old }
    requires variable { 1 ≤ watch.var.0 }
    requires to { mark_place watch < length heads.old }
    ensures watches { watches_of nodes.new ≡ slice_set (watches_of nodes.old) node watch }
    ensures walk { (kept rest : List ℕ) (at : ℕ) → mark_place watch ≢ home → IsChainWalk heads.old (nexts_of nodes.old) (homes_of (watches_of nodes.old)) home kept (node ∷ rest) before at → IsChainWalk heads.new (nexts_of nodes.new) (homes_of (watches_of nodes.new)) home kept rest before (slice_index (nexts_of nodes.old) node) }
{
    let after = nodes[node as usize].next;
    unlink(heads, nodes, home, before, after);
    link(heads, nodes, node, watch);
}

/// Cuts out the node behind `before`, or the first one.
fn unlink(heads: &mut [u32], nodes: &mut [Node], home: usize, before: Option<u32>, after: u32)
    requires home { home < length heads.old }
    requires before { (b : ℕ) → before ≡ Some b → b < length nodes.old }
    ensures first_heads { before ≡ None → heads.new ≡ slice_set heads.old home after }
    ensures first_nodes { before ≡ None → nodes.new ≡ nodes.old }
    ensures later_heads { (b : ℕ) → before ≡ Some b → heads.new ≡ heads.old }
    ensures later_nodes { (b : ℕ) (d : Node) → before ≡ Some b → nodes.new ≡ slice_set nodes.old b (record { watch = (slice_index_or nodes.old b d).watch; next = after }) }
{
    match before {
        None => heads[home] = after,
        Some(last) => nodes[last as usize].next = after,
    }
}

/// Puts the node in front of the chain of a literal, which it watches from then on.
fn link(heads: &mut [u32], nodes: &mut [Node], node: u32, watch: Lit)
    requires node { node < length nodes.old }
    requires variable { 1 ≤ watch.var.0 }
    requires home { mark_place watch < length heads.old }
    ensures heads { heads.new ≡ slice_set heads.old (mark_place watch) node }
    ensures nodes { nodes.new ≡ slice_set nodes.old node (record { watch = watch; next = slice_index heads.old (mark_place watch) }) }
{
    let home = watch.place();
    nodes[node as usize] = Node {
        watch,
        next: heads[home],
    };
    heads[home] = node;
}
