//! The steps at which a train may begin to meet a stop.
ghost use Rattle.std.specs.Prelude.{◌≡◌, ◌<◌, length};
ghost use Rattle.clause_list.specs.StopClauses.{stop_at};
ghost use Rattle.clause_encoder.specs.Meeting.{first_beginning, end_of_beginnings};

use crate::train::{TrainNumbers, earlier, later};

/// The first of these steps, of the stop of that place.
pub(crate) fn first_beginning_of(train: &TrainNumbers, place: usize) -> u32
    requires { place < length train.now.stops }
    ensures { result ≡ first_beginning train.now (stop_at train.now place) }
{
    later(train.stop(place).from, train.start())
}

/// The step behind the last of them.
pub(crate) fn end_of_beginnings_of(train: &TrainNumbers, place: usize) -> u32
    requires { place < length train.now.stops }
    ensures { result ≡ end_of_beginnings train.now (stop_at train.now place) }
{
    let stop = train.stop(place);
    (earlier(stop.until, train.by() + 1) + 1).saturating_sub(stop.dwell)
}
