//! Small nets, each for one kind of clauses.

use super::nets::{Net, Train};

/// A train of one cell that stands for two steps at the second of two cells.
pub(super) const STOP: Net = Net {
    cells: &[(0, 1, 0), (1, 2, 0)],
    joins: &[((0, true), (1, false))],
    candidates: &[1],
    kept: &[],
    stations: &[&[1]],
    trains: &[Train {
        length: 1,
        entry: (0, true),
        goal: (1, true),
        start: 0,
        latest: 0,
        by: 3,
        stops: &[(0, 0, 4, 2)],
    }],
};

/// A train that may enter at two steps, and stands for one step in its only cell.
pub(super) const WINDOW: Net = Net {
    cells: &[(0, 1, 0)],
    joins: &[],
    candidates: &[],
    kept: &[],
    stations: &[&[0]],
    trains: &[Train {
        length: 1,
        entry: (0, true),
        goal: (0, true),
        start: 0,
        latest: 1,
        by: 2,
        stops: &[(0, 0, 3, 1)],
    }],
};

/// A tip, cell 0, with two legs, cells 1 and 2, and a cell behind the first leg; a train of two cells goes from the tip there.
pub(super) const POINT: Net = Net {
    cells: &[(0, 1, 0), (1, 2, 0), (1, 3, 0), (2, 4, 0)],
    joins: &[
        ((0, true), (1, false)),
        ((0, true), (2, false)),
        ((1, true), (3, false)),
    ],
    candidates: &[2],
    kept: &[],
    stations: &[],
    trains: &[Train {
        length: 2,
        entry: (0, true),
        goal: (3, true),
        start: 0,
        latest: 0,
        by: 1,
        stops: &[],
    }],
};

/// Two cells that close a ring, with a candidate at both nodes, of which the first is kept.
pub(super) const RING: Net = Net {
    cells: &[(0, 1, 0), (0, 1, 0)],
    joins: &[((0, true), (1, true)), ((0, false), (1, false))],
    candidates: &[0, 1],
    kept: &[0],
    stations: &[],
    trains: &[Train {
        length: 1,
        entry: (0, true),
        goal: (1, false),
        start: 0,
        latest: 0,
        by: 1,
        stops: &[],
    }],
};

/// Two cells of a section and one of another; a train goes one way, and one step later another one the other way.
pub(super) const PAIR: Net = Net {
    cells: &[(0, 1, 0), (1, 2, 0), (2, 3, 1)],
    joins: &[((0, true), (1, false)), ((1, true), (2, false))],
    candidates: &[1],
    kept: &[],
    stations: &[],
    trains: &[
        Train {
            length: 1,
            entry: (0, true),
            goal: (2, true),
            start: 0,
            latest: 0,
            by: 2,
            stops: &[],
        },
        Train {
            length: 1,
            entry: (2, false),
            goal: (0, false),
            start: 1,
            latest: 1,
            by: 3,
            stops: &[],
        },
    ],
};
