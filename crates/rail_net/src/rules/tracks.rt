//! The rules on tracks and their sections.

ghost use Rattle.std.specs.Prelude.{◌≡◌, ◌↔◌, IsTrue, MatchOption, Some, slice_get};
ghost use Rattle.vss_lists.specs.Breaks.{BreaksFirstAt, HoldsOfEach};
ghost use Rattle.rail_net.specs.Parts.{HasFewItems};
ghost use Rattle.rail_net.specs.Rules.{HasGoodLength, HasGoodLimit, IsListedOnce, IsNoLoop};
ghost use Rattle.rail_net.specs.Sections.{IsConnectedSection};
ghost use Rattle.rail_net.specs.Tables.{AreMarkedApart, AreListingCounts};

use super::at::{RuleAt, first_break_at};
use crate::parts::{GroupPart, NetParts, TrackPart};
use std::marker::Model;
use vss_lists::{Rule, first_break};

/// The greatest length of a track, in metres.
const LONGEST_M: u64 = 1_000_000;

/// The greatest limit of a track, in kilometres per hour.
const FASTEST_KMH: u64 = 500;

/// The first track that ends where it begins.
pub(crate) fn first_loop(parts: &NetParts) -> Option<u32>
    requires { HasFewItems parts.now }
    ensures { MatchOption result (HoldsOfEach (IsNoLoop parts.now) parts.now.tracks) (BreaksFirstAt (IsNoLoop parts.now) parts.now.tracks) }
{
    first_break(&LoopRule { parts }, parts.tracks.as_slice())
}

/// The rule that a track ends elsewhere than it begins.
#[derive(Clone, Copy)]
struct LoopRule<'a> {
    parts: &'a NetParts,
}

impl<'a> Rule<TrackPart> for LoopRule<'a> {
    ghost holds = { λ r place track. IsNoLoop r.parts.now place track };

    fn holds(&self, _place: u32, track: &TrackPart) -> bool {
        track.from.as_str() != track.to.as_str()
    }
}

/// The first track whose length is out of range.
pub(crate) fn first_bad_length(parts: &NetParts) -> Option<u32>
    requires { HasFewItems parts.now }
    ensures { MatchOption result (HoldsOfEach (HasGoodLength parts.now) parts.now.tracks) (BreaksFirstAt (HasGoodLength parts.now) parts.now.tracks) }
{
    first_break(&LengthRule { parts }, parts.tracks.as_slice())
}

/// The rule of lengths.
#[derive(Clone, Copy)]
struct LengthRule<'a> {
    parts: &'a NetParts,
}

impl<'a> Rule<TrackPart> for LengthRule<'a> {
    ghost holds = { λ r place track. HasGoodLength r.parts.now place track };

    fn holds(&self, _place: u32, track: &TrackPart) -> bool {
        1 <= track.length_m && track.length_m <= LONGEST_M
    }
}

/// The first track whose limit is out of range.
pub(crate) fn first_bad_limit(parts: &NetParts) -> Option<u32>
    requires { HasFewItems parts.now }
    ensures { MatchOption result (HoldsOfEach (HasGoodLimit parts.now) parts.now.tracks) (BreaksFirstAt (HasGoodLimit parts.now) parts.now.tracks) }
{
    first_break(&LimitRule { parts }, parts.tracks.as_slice())
}

/// The rule of limits.
#[derive(Clone, Copy)]
struct LimitRule<'a> {
    parts: &'a NetParts,
}

impl<'a> Rule<TrackPart> for LimitRule<'a> {
    ghost holds = { λ r place track. HasGoodLimit r.parts.now place track };

    fn holds(&self, _place: u32, track: &TrackPart) -> bool {
        match track.limit_kmh {
            Some(limit) => 1 <= limit && limit <= FASTEST_KMH,
            None => true,
        }
    }
}

/// The first track that sections list more than once.
pub(crate) fn first_listed_twice(parts: &NetParts, counts: &[usize]) -> Option<u32>
    requires few { HasFewItems parts.now }
    requires counts { AreListingCounts parts.now counts.now }
    ensures { MatchOption result (HoldsOfEach (IsListedOnce parts.now) parts.now.tracks) (BreaksFirstAt (IsListedOnce parts.now) parts.now.tracks) }
{
    first_break_at(&OnceRule { parts, counts }, parts.tracks.as_slice())
}

/// How often sections list each track. Contracts see it as the parts.
#[derive(Drop)]
struct OnceRule<'a> {
    parts: &'a NetParts,
    counts: &'a [usize],
}

impl<'a> Model for OnceRule<'a> {
    ghost use Rattle.rail_net.specs.Tables.{AreListingCounts};
    ghost use Rattle.rail_net.specs.declared.parts.NetParts.{NetParts};

    ghost Value = { NetParts };

    ghost view = { λ r. r.parts.now };

    ghost invariant = { λ r. AreListingCounts r.parts.now r.counts.now };
}

impl<'a> RuleAt<TrackPart> for OnceRule<'a> {
    ghost items = { λ p. p.tracks };

    ghost holds = { λ p place item. IsListedOnce p place item };

    fn holds_at(&self, place: u32, item: &TrackPart) -> bool {
        is_listed_once(self.parts, self.counts, place, item)
    }
}

fn is_listed_once(parts: &NetParts, counts: &[usize], place: u32, item: &TrackPart) -> bool
    requires counts { AreListingCounts parts.now counts.now }
    requires its { slice_get parts.now.tracks place ≡ Some item.now }
    ensures { IsTrue result ↔ IsListedOnce parts.now place item.now }
{
    counts[place as usize] <= 1
}

/// The first section that falls apart.
pub(crate) fn first_apart(parts: &NetParts, apart: &[bool]) -> Option<u32>
    requires few { HasFewItems parts.now }
    requires apart { AreMarkedApart parts.now apart.now }
    ensures { MatchOption result (HoldsOfEach (IsConnectedSection parts.now) parts.now.sections) (BreaksFirstAt (IsConnectedSection parts.now) parts.now.sections) }
{
    first_break_at(&ApartRule { parts, apart }, parts.sections.as_slice())
}

/// Which sections fall apart. Contracts see it as the parts.
#[derive(Drop)]
struct ApartRule<'a> {
    parts: &'a NetParts,
    apart: &'a [bool],
}

impl<'a> Model for ApartRule<'a> {
    ghost use Rattle.rail_net.specs.Tables.{AreMarkedApart};
    ghost use Rattle.rail_net.specs.declared.parts.NetParts.{NetParts};

    ghost Value = { NetParts };

    ghost view = { λ r. r.parts.now };

    ghost invariant = { λ r. AreMarkedApart r.parts.now r.apart.now };
}

impl<'a> RuleAt<GroupPart> for ApartRule<'a> {
    ghost items = { λ p. p.sections };

    ghost holds = { λ p place item. IsConnectedSection p place item };

    fn holds_at(&self, place: u32, item: &GroupPart) -> bool {
        is_connected(self.parts, self.apart, place, item)
    }
}

fn is_connected(parts: &NetParts, apart: &[bool], place: u32, item: &GroupPart) -> bool
    requires apart { AreMarkedApart parts.now apart.now }
    requires its { slice_get parts.now.sections place ≡ Some item.now }
    ensures { IsTrue result ↔ IsConnectedSection parts.now place item.now }
{
    !apart[place as usize]
}
