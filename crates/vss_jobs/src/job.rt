//! What a call is to do.

use cell_net::{Layout, Plan, Scene};
use derivation_log::Refutation;
use vss_lists::Items;

/// What a search of a scene asks.
#[derive(Clone, Copy, Debug, PartialEq, Eq)]
pub enum Search {
    /// Whether the kept borders alone have a lawful plan.
    Verify,
    /// Whether a layout of at most so many borders has one; of any number of them where none is given.
    Generate { most: Option<u32> },
    /// Which layout with a lawful plan has the fewest borders.
    Optimise,
}

/// What a call is to do, with all that it needs. A budget is how many conflicts a search may meet, from 1 to
/// 1,000,000,000.
#[derive(Debug, Drop)]
pub enum Job {
    /// Whether the plan is lawful for the layout.
    Judge {
        scene: Scene,
        layout: Layout,
        plan: Plan,
    },
    /// Whether the log refutes the formula of its bound; `line` is the line of `refutes` in the report, from 1.
    Check {
        scene: Scene,
        refutation: Refutation,
        line: u32,
    },
    /// A search of the scene.
    Search {
        scene: Scene,
        search: Search,
        budget: u32,
    },
    /// The documents of a made case.
    Make {
        network: Items<u8>,
        timetable: Items<u8>,
    },
    /// The layout with the fewest borders for the scene of a made case.
    Trial {
        scene: Scene,
        budget: u32,
    },
}
