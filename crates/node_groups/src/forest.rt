//! A forest over the items 0, 1, .. : each item has a parent that is no higher than itself, and a root is its own parent.
ghost use Rattle.std.specs.Prelude.{◌≡◌, ◌<◌, ◌≤◌, length, slice_index, slice_set, IfOk};
ghost use Rattle.node_groups.specs.Forest.{IsForest, IsRoot, Joined, JoinsAlike, KeepsRoots, AddsPair, AreRoots, AreAllRoots};

use std::alloc::{AllocError, Global};

/// A forest in which each item is a root.
pub fn single_trees(alloc: Global, count: u32) -> Result<Vec<u32>, AllocError>
    ensures len { IfOk result (λ parents. length parents.items ≡ count) }
    ensures roots { IfOk result (λ parents. AreAllRoots parents.items) }
{
    let mut parents = Vec::with_capacity(alloc, count as usize)?;
    for item in 0..count {
        parents.push(item)?;
    }
    Ok(parents)
}

/// Hangs an item below its grandparent, which it returns.
#[tactic(auto, using(crate::proofs::ForestLaws::JoinsAlike_lift))]
fn lift(parents: &mut [u32], item: usize) -> u32
    requires forest { IsForest parents.old }
    requires within { item < length parents.old }
    ensures forest { IsForest parents.new }
    ensures joined { JoinsAlike parents.old parents.new }
    ensures roots { KeepsRoots parents.old parents.new }
    ensures lifted { parents.new ≡ slice_set parents.old item result }
    ensures grandparent { result ≡ slice_index parents.old (slice_index parents.old item) }
    ensures no_higher { result ≤ slice_index parents.old item }
{
    let grandparent = parents[parents[item] as usize];
    parents[item] = grandparent;
    grandparent
}

/// The root of an item's tree. Halves the path to it on the way.
fn root_of(parents: &mut [u32], item: u32) -> u32
    requires forest { IsForest parents.old }
    requires within { item < length parents.old }
    ensures forest { IsForest parents.new }
    ensures joined { JoinsAlike parents.old parents.new }
    ensures roots { KeepsRoots parents.old parents.new }
    ensures root { IsRoot parents.new result }
    ensures reached { Joined parents.new item result }
{
    let mut at = item;
    while parents[at as usize] != at {
        at = lift(parents, at as usize);
    }
    at
}

/// Joins the trees of two items.
pub fn join(parents: &mut [u32], first: u32, second: u32)
    requires forest { IsForest parents.old }
    requires first_within { first < length parents.old }
    requires second_within { second < length parents.old }
    ensures forest { IsForest parents.new }
    ensures adds { AddsPair parents.old parents.new first second }
{
    let first_root = root_of(parents, first);
    let second_root = root_of(parents, second);
    if first_root < second_root {
        parents[second_root as usize] = first_root;
    } else {
        parents[first_root as usize] = second_root;
    }
}

/// Hangs each item below its root.
pub fn flatten(parents: &mut [u32])
    requires forest { IsForest parents.old }
    ensures forest { IsForest parents.new }
    ensures joined { JoinsAlike parents.old parents.new }
    ensures roots { AreRoots parents.new }
{
    for item in 0..parents.len() {
        lift(parents, item);
    }
}
