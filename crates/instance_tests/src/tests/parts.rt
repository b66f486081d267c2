//! What an instance tells of its parts.

use super::changes::Change::{Candidate, Kept, Station, Train};
use super::changes::TrainChange::{Stops, Window};
use super::changes::{Change, TRACK, build};
use cell_net::{
    CandidateId, CellId, CellSpec, Instance, NodeId, SectionId, StationId, StopSpec, TrainId,
    TrainSpec,
};
use std::process::Abort;
use std::test::Fail;

const MORE: &[Change] = &[
    Candidate(1),
    Candidate(3),
    Kept(1),
    Station(&[1]),
    Station(&[3, 2]),
    Train(Window(2, 5, 7)),
    Train(Stops(&[(1, 3, 6, 2)])),
];

#[test]
fn an_instance_keeps_its_parts(rt: HostRuntime) -> Result<(), Fail> {
    let inst = build(&rt, rt.alloc(), &[TRACK], MORE)??;
    assert_eq!(rt; counts_of(&inst), [10, 6, 3, 4, 2, 2]);
    check_cell(&rt, &inst);
    check_candidates(&rt, &inst);
    check_station(&rt, &inst);
    check_train(&rt, &inst);
    check_stops(&rt, &inst);
    Ok(())
}

/// How many steps, nodes, sections, cells, candidates and trains there are.
fn counts_of(inst: &Instance) -> [u32; 6] {
    let parts = inst.parts();
    [
        inst.steps(),
        parts.nodes,
        parts.sections,
        inst.cell_count(),
        inst.candidate_count(),
        inst.train_count(),
    ]
}

fn check_cell(rt: &impl Abort, inst: &Instance) {
    let cell = CellSpec {
        low: NodeId(2),
        high: NodeId(3),
        section: SectionId(1),
        limit: 20,
    };
    assert!(rt; 2 < inst.cell_count());
    assert_eq!(rt; inst.cell(CellId(2)), cell);
}

fn check_candidates(rt: &impl Abort, inst: &Instance) {
    assert!(rt; 1 < inst.candidate_count());
    assert_eq!(rt; inst.candidate(CandidateId(1)), NodeId(3));
    assert_eq!(rt; inst.kept(), [CandidateId(1)].as_slice());
}

fn check_station(rt: &impl Abort, inst: &Instance) {
    let cells = [CellId(3), CellId(2)];
    assert_eq!(rt; inst.parts().stations.len(), 2);
    assert_eq!(rt; inst.station(StationId(1)), cells.as_slice());
}

fn check_train(rt: &impl Abort, inst: &Instance) {
    assert!(rt; 0 < inst.train_count());
    assert_eq!(rt; numbers_of(inst.train(TrainId(0))), [1, 1, 0, 3, 2, 5, 7]);
}

/// The length, the advance, the entry and the goal, the first and the last step of the entry, and the last step.
fn numbers_of(train: &TrainSpec) -> [u32; 7] {
    [
        train.length,
        train.advance,
        train.entry.cell.0,
        train.goal.cell.0,
        train.start,
        train.latest,
        train.by,
    ]
}

fn check_stops(rt: &impl Abort, inst: &Instance) {
    let stop = StopSpec {
        station: StationId(1),
        from: 3,
        until: 6,
        dwell: 2,
    };
    assert!(rt; 1 < inst.train_count());
    let train = inst.train(TrainId(1));
    assert_eq!(rt; train.stops.as_slice(), [stop].as_slice());
}
