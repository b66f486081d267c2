//! The places of a scene, found by their names.
ghost use Rattle.std.specs.Prelude.{◌≡◌, ◌<◌, ◌≤◌, ◌↔◌, IfSome, IfNone, IsTrue, Some};
ghost use Rattle.cell_net.specs.declared.ids.CandidateId.{CandidateId};
ghost use Rattle.vss_report.specs.Found.{name_of_place};
ghost use Rattle.vss_report.specs.Names.{IsPlaceOf, labelled_place};

use crate::names::name_of_track;
use cell_net::{CandidateId, Labels, PlaceLabel, Scene};

/// The name of a place as it was read.
#[derive(Clone, Copy, Debug)]
pub(crate) enum NamedPlace<'a> {
    Cut { track: &'a [u8], at_m: u32 },
    Joint { name: &'a [u8] },
}

/// The place of that name among those from `from` on. Linear in the places up to it.
pub(crate) fn find_place(scene: &Scene, from: u32, name: &NamedPlace<'_>) -> Option<CandidateId>
    ensures found { IfSome result (IsPlaceOf scene.now.labels (name_of_place name.now)) }
    ensures ahead { IfSome result (λ candidate. from ≤ candidate.0) }
    ensures few { IfSome result (λ candidate. candidate.0 < 512) }
    ensures none { IfNone result ((candidate : CandidateId) → from ≤ candidate.0 → ¬ IsPlaceOf scene.now.labels (name_of_place name.now) candidate) }
{
    for place in from..scene.inst.candidate_count() {
        if is_named(&scene.labels, place, name) {
            return Some(CandidateId(place));
        }
    }
    None
}

/// Whether the place of that number has the name.
fn is_named(labels: &Labels, place: u32, name: &NamedPlace<'_>) -> bool
    ensures { IsTrue result ↔ IsPlaceOf labels.now (name_of_place name.now) (record { 0 = place }) }
{
    match labels.places.get(place as usize) {
        Some(label) => names(labels, name, label),
        None => false,
    }
}

/// Whether this is the name that the label gives.
fn names(labels: &Labels, name: &NamedPlace<'_>, label: &PlaceLabel) -> bool
    ensures { IsTrue result ↔ (labelled_place labels.now (Some label.now) ≡ name_of_place name.now) }
{
    match (name, label) {
        (
            NamedPlace::Cut { track, at_m },
            PlaceLabel::Cut {
                track: number,
                at_m: metres,
            },
        ) => { *metres == u64::from(*at_m) && name_of_track(labels, *number) == *track }
        (NamedPlace::Joint { name }, PlaceLabel::Joint { name: joint }) => {
            joint.as_bytes() == *name
        }
        _ => false,
    }
}
