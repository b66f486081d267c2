//! The stages that read the two documents and cut them into steps.

ghost use Rattle.std.specs.Prelude.{[], ◌∷◌, IfOk};
ghost use Rattle.vss_io.specs.Reading.{Keeps};
ghost use Rattle.vss_stages.specs.Stages.{Ends};
ghost use Rattle.timetable.specs.Timetables.{IsTimetable};
ghost use Rattle.vss_jobs.specs.Asked.{names_of_documents};
ghost use Rattle.vss_jobs.specs.Settings.{setting_of};
ghost use Rattle.vss_jobs.specs.Readings.{ReadsNetwork, ReadsTimetable, CutsScene};
ghost use Rattle.vss_jobs.specs.Jobs.{ReadsScene, IsNetworkOf, IsSettingOf, IsSettingOfTexts};

use crate::refusal::Refusal;
use crate::stops::{stop_of_grid, stop_of_network, stop_of_timetable};
use cell_net::Scene;
use discretise::scene_of;
use net_reader::read_net;
use rail_net::Net;
use std::alloc::Global;
use timetable::{Timetable, read_timetable};
use vss_io::Shelf;
use vss_stages::{Input, Stop, read_input};
use vss_words::DocumentNames;

/// Reads both documents, the network's first, and makes their scene.
pub fn read_documents<H: Shelf>(
    alloc: Global,
    names: &DocumentNames,
    shelf: &mut H,
) -> Result<Scene, Stop<Refusal>>
    ensures kept { Keeps (H.shown shelf.old) (H.shown shelf.new) (names_of_documents names.now) }
    ensures scene { Ends (IsSettingOf (H.shown shelf.old) (H.shown shelf.new) names.now) setting_of result }
{
    let network = names.network.as_str();
    let timetable = names.timetable.as_str();
    let net = match read_network(alloc, network, shelf) {
        Ok(net) => net,
        Err(stop) => return Err(stop),
    };
    match read_input(shelf, Input::Timetable, timetable) {
        Ok(bytes) => scene_with(alloc, &net, bytes.as_slice()),
        Err(stop) => Err(stop),
    }
}

/// Reads the network's document.
fn read_network<H: Shelf>(alloc: Global, name: &str, shelf: &mut H) -> Result<Net, Stop<Refusal>>
    ensures kept { Keeps (H.shown shelf.old) (H.shown shelf.new) (name.now ∷ []) }
    ensures network { Ends (IsNetworkOf (H.shown shelf.old) (H.shown shelf.new) name.now) (λ net. net) result }
{
    match read_input(shelf, Input::Network, name) {
        Ok(bytes) => network_of(alloc, bytes.as_slice()),
        Err(stop) => Err(stop),
    }
}

/// The network of a document's bytes.
fn network_of(alloc: Global, bytes: &[u8]) -> Result<Net, Stop<Refusal>>
    ensures { Ends (ReadsNetwork bytes.now) (λ net. net) result }
{
    match read_net(alloc, bytes) {
        Ok(net) => Ok(net),
        Err(why) => Err(stop_of_network(why)),
    }
}

/// The scene of the network and the bytes of a timetable document: the timetable's refusals come before the grid's.
fn scene_with(alloc: Global, net: &Net, bytes: &[u8]) -> Result<Scene, Stop<Refusal>>
    ensures { Ends (ReadsScene net.now bytes.now) setting_of result }
{
    match timetable_of(alloc, net, bytes) {
        Ok(timetable) => cut(alloc, net, &timetable),
        Err(stop) => Err(stop),
    }
}

/// The timetable of a document's bytes, for the network.
fn timetable_of(alloc: Global, net: &Net, bytes: &[u8]) -> Result<Timetable, Stop<Refusal>>
    ensures timetable { Ends (ReadsTimetable net.now bytes.now) (λ timetable. timetable) result }
    ensures fits { IfOk result (IsTimetable net.now) }
{
    // for the proof alone: the parts of a network keep its rules
    let _parts = net.parts();
    match read_timetable(alloc, bytes, net) {
        Ok(timetable) => Ok(timetable),
        Err(why) => Err(stop_of_timetable(why)),
    }
}

/// The scene into which network and timetable are cut.
fn cut(alloc: Global, net: &Net, timetable: &Timetable) -> Result<Scene, Stop<Refusal>>
    requires { IsTimetable net.now timetable.now }
    ensures { Ends (CutsScene net.now timetable.now) setting_of result }
{
    // for the proof alone: the parts of a network keep its rules
    let _parts = net.parts();
    match scene_of(alloc, net, timetable) {
        Ok(scene) => Ok(scene),
        Err(why) => Err(stop_of_grid(why)),
    }
}

/// The scene of the texts of both documents.
pub fn scene_of_texts(
    alloc: Global,
    network: &[u8],
    timetable: &[u8],
) -> Result<Scene, Stop<Refusal>>
    ensures { Ends (IsSettingOfTexts network.now timetable.now) setting_of result }
{
    match network_of(alloc, network) {
        Ok(net) => scene_with(alloc, &net, timetable),
        Err(stop) => Err(stop),
    }
}
