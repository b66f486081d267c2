//! The names that people know tracks and trains by.
ghost use Rattle.std.specs.Prelude.{◌≡◌};
ghost use Rattle.vss_report.specs.Names.{track_name, train_name};

use cell_net::{Labels, TrainId};

/// The name of the track of that number; nothing where there is none.
pub fn name_of_track(labels: &Labels, track: u32) -> &[u8]
    ensures { result.now ≡ track_name labels.now track }
{
    match labels.tracks.get(track as usize) {
        Some(name) => name.as_bytes(),
        None => b"",
    }
}

/// The name of the train; nothing where there is none.
pub fn name_of_train(labels: &Labels, train: TrainId) -> &[u8]
    ensures { result.now ≡ train_name labels.now train }
{
    name_at(labels, train.0 as usize)
}

/// The name of the train of that number; nothing where there is none.
pub(crate) fn name_at(labels: &Labels, train: usize) -> &[u8]
    ensures { result.now ≡ train_name labels.now (record { 0 = train }) }
{
    match labels.trains.get(train) {
        Some(name) => name.as_bytes(),
        None => b"",
    }
}
