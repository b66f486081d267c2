//! Why a network and a timetable have no scene.

use rail_net::Spot;

/// The rules of the grid, in their order.
#[derive(Clone, Copy, Debug, PartialEq, Eq)]
pub enum CutFault {
    /// There are more than 1,000 cells.
    TooManyCells,
    /// There are more than 512 candidates.
    TooManyCandidates,
    /// There are more than 32 trains.
    TooManyTrains,
    /// There are more than 400 steps of time.
    TooManySteps,
    /// On the track a train couldn't advance a cell in a step.
    LimitTooLow,
    /// The border isn't at an inner cut of its track.
    BorderOffGrid,
    /// The train doesn't advance a cell in a step.
    TooSlow,
    /// The train advances more than 20 cells in a step.
    StepTooCoarse,
    /// The train is longer than 64 cells.
    TrainTooLong,
    /// The train's first step isn't before the horizon.
    EntryPastHorizon,
    /// The train's last step is before its first, or no step ends by its arrival.
    ArrivalBeforeEntry,
    /// The train's window of entry ends before its first step.
    WindowEmpty,
    /// The train has a stop with too little time.
    StopWindow,
}

/// Why there is no scene.
#[derive(Clone, Copy, Debug, PartialEq, Eq)]
pub enum CutRefusal {
    /// The first rule that is broken, and the lowest item that breaks it.
    Named { kind: CutFault, spot: Spot },
    /// Want of memory.
    Memory,
}
