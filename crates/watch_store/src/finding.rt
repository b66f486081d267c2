//! Where a node stands in its chain.
ghost use Rattle.std.specs.Prelude.{◌≡◌, ℕ, ◌<◌, List, ◌∷◌, length, slice_index};
ghost use Rattle.watch_store.specs.Chains.{AreChained, IsChainWalk};
ghost use Rattle.watch_store.specs.Watching.{watches_of, nexts_of, homes_of};

use crate::node::Node;

/// The node before this one in the chain of its home. Linear in the chain.
pub(crate) fn find(heads: &[u32], nodes: &[Node], home: usize, node: u32) -> Option<u32>
    requires home { home < length heads.now }
    requires node { node < length nodes.now }
    requires lives { slice_index (homes_of (watches_of nodes.now)) node ≡ home }
    requires chained { AreChained heads.now (nexts_of nodes.now) (homes_of (watches_of nodes.now)) }
    ensures { (kept : List ℕ) × (rest : List ℕ) × IsChainWalk heads.now (nexts_of nodes.now) (homes_of (watches_of nodes.now)) home kept (node ∷ rest) result node }
{
    let mut before = None;
    let mut at = heads[home];
    'chain: for visited in 0..nodes.len() {
        if at == node {
            return before;
        }
        before = Some(at);
        at = nodes[at as usize].next;
    }
    unreachable!()
}
