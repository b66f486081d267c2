//! The printed line of each kind of breach, also of those that no document reaches.

use cell_net::{CandidateId, CellId, CellLabel, Labels, PlaceLabel, TrainId};
use plan_checker::Breach;
use std::alloc::{AllocError, Global};
use std::test::Fail;
use vss_answers::print_breach;
use vss_io::MemSink;
use vss_lists::{Items, Text};

fn texts(alloc: Global, words: &[&str]) -> Result<Items<Text>, AllocError> {
    let mut texts = Items::new(alloc);
    for word in words {
        texts.push(Text::from_string(String::from_str(alloc, word)?))?;
    }
    Ok(texts)
}

/// Two tracks, the first of two cells and the second of twelve; a cut of each and a joint; and two trains.
fn labels(alloc: Global) -> Result<Labels, AllocError> {
    let mut cells = Items::new(alloc);
    for index in 0..2 {
        cells.push(CellLabel { track: 0, index })?;
    }
    for index in 0..12 {
        cells.push(CellLabel { track: 1, index })?;
    }
    let mut places = Items::new(alloc);
    places.push(PlaceLabel::Joint {
        name: Text::from_string(String::from_str(alloc, "J-1")?),
    })?;
    places.push(PlaceLabel::Cut {
        track: 0,
        at_m: 500,
    })?;
    places.push(PlaceLabel::Cut {
        track: 1,
        at_m: 1_000_000,
    })?;
    Ok(Labels {
        tracks: texts(alloc, &["t1", "side"])?,
        cells,
        places,
        trains: texts(alloc, &["X", "Y_2"])?,
    })
}

const X: TrainId = TrainId(0);

const Y: TrainId = TrainId(1);

static BREACHES: [(Breach, &str); 12] = [
    (
        Breach::Border {
            candidate: CandidateId(0),
        },
        "breach border joint J-1\n",
    ),
    (
        Breach::Border {
            candidate: CandidateId(1),
        },
        "breach border cut t1 500\n",
    ),
    (
        Breach::Border {
            candidate: CandidateId(2),
        },
        "breach border cut side 1000000\n",
    ),
    (Breach::Entry { train: Y }, "breach entry Y_2\n"),
    (Breach::Path { train: X, step: 0 }, "breach path X 0\n"),
    (
        Breach::Length { train: Y, step: 1 },
        "breach length Y_2 1\n",
    ),
    (Breach::Speed { train: X, step: 10 }, "breach speed X 10\n"),
    (
        Breach::Join {
            train: Y,
            step: 399,
        },
        "breach join Y_2 399\n",
    ),
    (Breach::Late { train: X, step: 2 }, "breach late X 2\n"),
    (
        Breach::Late {
            train: X,
            step: 4_294_967_295,
        },
        "breach late X 4294967295\n",
    ),
    (Breach::Stop { train: Y, stop: 3 }, "breach stop Y_2 3\n"),
    (
        Breach::Apart {
            a: X,
            b: Y,
            step: 7,
            e: CellId(1),
            f: CellId(13),
        },
        "breach apart X Y_2 7 t1:1 side:11\n",
    ),
];

#[test]
fn each_breach_has_its_line(rt: HostRuntime) -> Result<(), Fail> {
    let labels = labels(rt.alloc())?;
    for (breach, line) in &BREACHES {
        let mut out = MemSink::new(rt.alloc(), 100, Vec::new(rt.alloc()))?;
        assert_eq!(rt; print_breach(&labels, breach, &mut out), Ok(()));
        assert_eq!(rt; out.written(), line.as_bytes());
    }
    Ok(())
}
