//! The rule on kept borders.

ghost use Rattle.std.specs.Prelude.{◌≡◌, ◌↔◌, true, false, IsTrue, MatchOption};
ghost use Rattle.vss_lists.specs.Breaks.{BreaksFirstAt, HoldsOfEach};
ghost use Rattle.rail_net.specs.Borders.{IsBorderJoint, IsGoodBorder, IsWithinTrack};
ghost use Rattle.rail_net.specs.Parts.{HasFewItems};
ghost use Rattle.rail_net.specs.Tables.{AreStands};
ghost use Rattle.rail_net.specs.declared.parts.NodeKind.TheVariants.{Joint};

use crate::parts::{BorderPart, NetParts, NodeKind};
use crate::tables::NetNames;
use std::marker::Model;
use vss_lists::{Rule, first_break};

/// The first border that doesn't stand well.
pub(crate) fn first_bad_border(
    parts: &NetParts,
    names: &NetNames,
    splits: &[bool],
    bars: &[bool],
) -> Option<u32>
    requires few { HasFewItems parts.now }
    requires stands { AreStands parts.now names.now splits.now bars.now }
    ensures { MatchOption result (HoldsOfEach (IsGoodBorder parts.now) parts.now.borders) (BreaksFirstAt (IsGoodBorder parts.now) parts.now.borders) }
{
    let rule = BorderRule {
        parts,
        names,
        splits,
        bars,
    };
    first_break(&rule, parts.borders.as_slice())
}

/// What is known of the nodes and tracks where borders stand. Contracts see it as the parts.
#[derive(Drop)]
struct BorderRule<'a> {
    parts: &'a NetParts,
    names: &'a NetNames,
    splits: &'a [bool],
    bars: &'a [bool],
}

impl<'a> Model for BorderRule<'a> {
    ghost use Rattle.rail_net.specs.Tables.{AreStands};
    ghost use Rattle.rail_net.specs.declared.parts.NetParts.{NetParts};

    ghost Value = { NetParts };

    ghost view = { λ r. r.parts.now };

    ghost invariant = { λ r. AreStands r.parts.now r.names.now r.splits.now r.bars.now };
}

impl<'a> Rule<BorderPart> for BorderRule<'a> {
    ghost holds = { λ p place border. IsGoodBorder p place border };

    fn holds(&self, _place: u32, border: &BorderPart) -> bool {
        match border {
            BorderPart::Cut { track, at_m } => {
                is_within(
                    self.parts,
                    self.names,
                    self.splits,
                    self.bars,
                    track.as_str(),
                    *at_m,
                )
            }
            BorderPart::Joint { name } => {
                is_candidate(
                    self.parts,
                    self.names,
                    self.splits,
                    self.bars,
                    name.as_str(),
                )
            }
        }
    }
}

/// Whether the place is between the ends of the track of that name, where virtual borders may stand.
fn is_within(
    parts: &NetParts,
    names: &NetNames,
    splits: &[bool],
    bars: &[bool],
    track: &str,
    at_m: u64,
) -> bool
    requires { AreStands parts.now names.now splits.now bars.now }
    ensures { IsTrue result ↔ IsWithinTrack parts.now track.now at_m }
{
    match names.tracks.number_of(track) {
        Some(number) => {
            let track = &parts.tracks.as_slice()[number as usize];
            0 < at_m && at_m < track.length_m && track.virtual_ok
        }
        None => false,
    }
}

/// Whether the node of that name is a joint where a border may stand.
fn is_candidate(
    parts: &NetParts,
    names: &NetNames,
    splits: &[bool],
    bars: &[bool],
    name: &str,
) -> bool
    requires { AreStands parts.now names.now splits.now bars.now }
    ensures { IsTrue result ↔ IsBorderJoint parts.now name.now }
{
    match names.nodes.number_of(name) {
        Some(number) => {
            let nodes = parts.nodes.as_slice();
            let at = number as usize;
            let node = &nodes[at];
            let joint = is_joint(&node.kind);
            stands(joint, splits[at], bars[at])
        }
        None => false,
    }
}

fn is_joint(kind: &NodeKind) -> bool
    ensures { (result ≡ true) ↔ (kind.now ≡ Joint) }
{
    match kind {
        NodeKind::Joint => true,
        NodeKind::EndNode | NodeKind::Point { .. } | NodeKind::Crossing { .. } => false,
    }
}

/// Whether a border may stand at a node that is a joint, or not, and has these marks.
fn stands(joint: bool, split: bool, barred: bool) -> bool
    ensures { IsTrue result ↔ ((joint ≡ true) × (split ≡ false) × (barred ≡ false)) }
{
    joint && !split && !barred
}
