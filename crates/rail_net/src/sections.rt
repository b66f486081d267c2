//! The tracks that sections list, and the section of each track.

ghost use Rattle.std.specs.Prelude.{◌≡◌, true, false, IfOk, IfErr, length};
ghost use Rattle.vss_lists.specs.Breaks.{HoldsOfEach};
ghost use Rattle.rail_net.specs.Breaks.{IsBreak};
ghost use Rattle.rail_net.specs.Entries.{AreValues};
ghost use Rattle.rail_net.specs.Parts.{HasFewItems};
ghost use Rattle.rail_net.specs.Refusals.{HasNewTracks};
ghost use Rattle.rail_net.specs.Rules.{AreKnown, IsOfSomeSection, ListsTracks};
ghost use Rattle.rail_net.specs.Tables.{AddsListings, AreHomes, AreListings, AreNamesOf};

use crate::entries::{Entry, values};
use crate::names::{Break, NameIndex};
use crate::parts::{GroupPart, NetParts};
use crate::tables::NetNames;
use std::alloc::{AllocError, Global};

/// Each track that a section lists, by its number, with that of the section; or the first section
/// that lists a track which isn't there. Linear in the lists.
pub(crate) fn listings_of(
    alloc: Global,
    parts: &NetParts,
    names: &NetNames,
) -> Result<Vec<Entry>, Break>
    requires few { HasFewItems parts.now }
    requires names { AreNamesOf parts.now names.now }
    ensures listings { IfOk result (λ entries. AreListings parts.now entries.items) }
    ensures known { IfOk result (λ _. HoldsOfEach (ListsTracks parts.now) parts.now.sections) }
    ensures unknown { IfErr result (IsBreak (ListsTracks parts.now) parts.now.sections) }
{
    let sections = parts.sections.as_slice();
    let mut entries = Vec::new(alloc);
    for place in 0..sections.len() {
        match list_tracks(&mut entries, &names.tracks, place as u32, &sections[place]) {
            Ok(true) => {}
            Ok(false) => return Err(Break::At(place as u32)),
            Err(_) => return Err(Break::Memory),
        }
    }
    Ok(entries)
}

/// Adds the tracks that the section lists; false where one isn't there.
fn list_tracks(
    entries: &mut Vec<Entry>,
    tracks: &NameIndex,
    place: u32,
    section: &GroupPart,
) -> Result<bool, AllocError>
    ensures added { IfOk result (λ known. known ≡ true → AddsListings tracks.now place section.now.tracks entries.old.items entries.new.items) }
    ensures known { IfOk result (λ known. known ≡ true → AreKnown tracks.now section.now.tracks) }
    ensures unknown { IfOk result (λ known. known ≡ false → ¬ AreKnown tracks.now section.now.tracks) }
{
    let names = section.tracks.as_slice();
    for at in 0..names.len() {
        match tracks.number_of(names[at].as_str()) {
            Some(track) => entries.push(Entry {
                key: track,
                value: place,
            })?,
            None => return Ok(false),
        }
    }
    Ok(true)
}

/// The section of each track; or the first track that no section lists. Linear in tracks and
/// listings.
pub(crate) fn homes_of(
    alloc: Global,
    parts: &NetParts,
    listings: &[Entry],
) -> Result<Vec<u32>, Break>
    requires few { HasFewItems parts.now }
    requires names { HasNewTracks parts.now }
    requires listings { AreListings parts.now listings.now }
    ensures homes { IfOk result (λ homes. AreHomes parts.now homes.items) }
    ensures listed { IfOk result (λ _. HoldsOfEach (IsOfSomeSection parts.now) parts.now.tracks) }
    ensures unlisted { IfErr result (IsBreak (IsOfSomeSection parts.now) parts.now.tracks) }
{
    match values(alloc, parts.tracks.len(), listings) {
        Ok(found) => sections_of(alloc, parts, listings, &found),
        Err(_) => Err(Break::Memory),
    }
}

fn sections_of(
    alloc: Global,
    parts: &NetParts,
    listings: &[Entry],
    found: &[Option<u32>],
) -> Result<Vec<u32>, Break>
    requires few { HasFewItems parts.now }
    requires names { HasNewTracks parts.now }
    requires listings { AreListings parts.now listings.now }
    requires len { length found.now ≡ length parts.now.tracks }
    requires found { AreValues listings.now found.now }
    ensures homes { IfOk result (λ homes. AreHomes parts.now homes.items) }
    ensures listed { IfOk result (λ _. HoldsOfEach (IsOfSomeSection parts.now) parts.now.tracks) }
    ensures unlisted { IfErr result (IsBreak (IsOfSomeSection parts.now) parts.now.tracks) }
{
    let Ok(mut homes) = Vec::with_capacity(alloc, found.len()) else {
        return Err(Break::Memory);
    };
    for place in 0..found.len() {
        let Some(section) = found[place] else {
            return Err(Break::At(place as u32));
        };
        match homes.push(section) {
            Ok(()) => {}
            Err(_) => return Err(Break::Memory),
        }
    }
    Ok(homes)
}
