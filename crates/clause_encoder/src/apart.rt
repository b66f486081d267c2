//! The clauses by which trains keep apart.
ghost use Rattle.std.specs.Prelude.{◌≡◌, ◌+◌, ◌*◌, ◌<◌, ◌≤◌, List, false, length, OnOk, IfErr};
ghost use Rattle.sat_core.specs.declared.literal.Lit.{Lit};
ghost use Rattle.clause_list.specs.PairClauses.{apart_clauses};
ghost use Rattle.clause_list.specs.WholeList.{apart_of_all, train_at};
ghost use Rattle.clause_encoder.specs.Writing.{AreClauses, Takes, IsCause, literal_count};
ghost use Rattle.clause_encoder.specs.PairFitting.{AreOverCells, AllOverCells};

use crate::literals::{is, is_not};
use crate::network::NetworkNumbers;
use crate::part::{Part, write_each, write_range};
use crate::train::{TrainNumbers, earlier, later};
use crate::writer::{ClauseWriter, WriteFault};

/// Writes the clauses by which each two trains keep apart.
#[tactic(auto, unfolding(clause_list::specs::WholeList::apart_of_all))]
pub(crate) fn write_apart_of_all(
    net: &NetworkNumbers,
    trains: &[TrainNumbers],
    writer: &mut ClauseWriter,
) -> Result<(), WriteFault>
    requires cells { AllOverCells net.now trains.now }
    requires clauses { AreClauses writer.old.vars (apart_of_all net.now trains.now) }
    ensures ok { OnOk result (Takes writer.old (apart_of_all net.now trains.now) writer.new) }
    ensures err { IfErr result (IsCause writer.old (apart_of_all net.now trains.now)) }
{
    let of_train = ApartOf { net, trains };
    write_range(&of_train, 0, trains.len() as u32, writer)
}

// by the first of two trains
#[derive(Drop)]
struct ApartOf<'a> {
    net: &'a NetworkNumbers,
    trains: &'a [TrainNumbers],
}

impl<'a> Part for ApartOf<'a> {
    ghost use Rattle.std.specs.Prelude.{◌<◌, length};
    ghost use Rattle.clause_list.specs.WholeList.{apart_of};
    ghost use Rattle.clause_encoder.specs.PairFitting.{AllOverCells};

    ghost clauses = { λ p i. apart_of p.net.now p.trains.now i };

    ghost fits = { λ p place i. AllOverCells p.net.now p.trains.now × (i < length p.trains.now) };

    #[tactic(auto, unfolding(clause_list::specs::WholeList::apart_of))]
    fn write(&self, _place: usize, one: u32, writer: &mut ClauseWriter) -> Result<(), WriteFault> {
        let of_two = ApartOfTwo {
            net: self.net,
            trains: self.trains,
            one,
        };
        write_range(&of_two, one + 1, self.trains.len() as u32, writer)
    }
}

// by the second
#[derive(Drop)]
struct ApartOfTwo<'a> {
    net: &'a NetworkNumbers,
    trains: &'a [TrainNumbers],
    one: u32,
}

impl<'a> Part for ApartOfTwo<'a> {
    ghost use Rattle.std.specs.Prelude.{◌<◌, length};
    ghost use Rattle.clause_list.specs.WholeList.{apart_of_two};
    ghost use Rattle.clause_encoder.specs.PairFitting.{AllOverCells};

    ghost clauses = { λ p j. apart_of_two p.net.now p.trains.now p.one j };

    ghost fits = { λ p place j. AllOverCells p.net.now p.trains.now × (p.one < length p.trains.now) × (j < length p.trains.now) };

    #[tactic(auto, unfolding(clause_list::specs::WholeList::apart_of_two))]
    fn write(
        &self,
        _place: usize,
        other: u32,
        writer: &mut ClauseWriter,
    ) -> Result<(), WriteFault> {
        write_apart(
            self.net,
            train_of(self.trains, self.one),
            train_of(self.trains, other),
            writer,
        )
    }
}

// The train of that place.
fn train_of(trains: &[TrainNumbers], place: u32) -> &TrainNumbers
    requires { place < length trains.now }
    ensures { result.now ≡ train_at trains.now place }
{
    &trains[place as usize]
}

/// Writes the clauses by which two trains keep apart.
#[tactic(auto, unfolding(clause_list::specs::PairClauses::apart_clauses))]
fn write_apart(
    net: &NetworkNumbers,
    one: &TrainNumbers,
    other: &TrainNumbers,
    writer: &mut ClauseWriter,
) -> Result<(), WriteFault>
    requires cells { AreOverCells net.now one.now other.now }
    requires clauses { AreClauses writer.old.vars (apart_clauses net.now one.now other.now) }
    ensures ok { OnOk result (Takes writer.old (apart_clauses net.now one.now other.now) writer.new) }
    ensures err { IfErr result (IsCause writer.old (apart_clauses net.now one.now other.now)) }
{
    let at_step = ApartAt { net, one, other };
    write_range(
        &at_step,
        later(one.start(), other.start()),
        earlier(one.by(), other.by()) + 1,
        writer,
    )
}

// by step
#[derive(Drop)]
struct ApartAt<'a> {
    net: &'a NetworkNumbers,
    one: &'a TrainNumbers,
    other: &'a TrainNumbers,
}

impl<'a> Part for ApartAt<'a> {
    ghost use Rattle.clause_list.specs.PairClauses.{apart_at};
    ghost use Rattle.clause_encoder.specs.PairFitting.{AreOverCells, AreBothThere};

    ghost clauses = { λ p t. apart_at p.net.now p.one.now p.other.now t };

    ghost fits = { λ p place t. AreOverCells p.net.now p.one.now p.other.now × AreBothThere p.one.now p.other.now t };

    #[tactic(auto, unfolding(clause_list::specs::PairClauses::apart_at))]
    fn write(&self, _place: usize, step: u32, writer: &mut ClauseWriter) -> Result<(), WriteFault> {
        let from = ApartFrom {
            net: self.net,
            one: self.one,
            other: self.other,
            step,
        };
        write_range(&from, 0, self.net.cell_count(), writer)
    }
}

// by cell of the first train
#[derive(Drop)]
struct ApartFrom<'a> {
    net: &'a NetworkNumbers,
    one: &'a TrainNumbers,
    other: &'a TrainNumbers,
    step: u32,
}

impl<'a> Part for ApartFrom<'a> {
    ghost use Rattle.std.specs.Prelude.{◌<◌, length};
    ghost use Rattle.clause_list.specs.PairClauses.{apart_from};
    ghost use Rattle.clause_encoder.specs.PairFitting.{AreOverCells, AreBothThere};

    ghost clauses = { λ p e. apart_from p.net.now p.one.now p.other.now p.step e };

    ghost fits = { λ p place e. AreOverCells p.net.now p.one.now p.other.now × AreBothThere p.one.now p.other.now p.step × (e < length p.net.now.sections) };

    #[tactic(auto, unfolding(clause_list::specs::PairClauses::apart_from))]
    fn write(&self, _place: usize, cell: u32, writer: &mut ClauseWriter) -> Result<(), WriteFault> {
        let cells = self.net.section_of(cell);
        if writer.keeps() {
            let of_two = Apart {
                net: self.net,
                one: self.one,
                other: self.other,
                step: self.step,
                cell,
            };
            write_each(&of_two, cells, writer)
        } else {
            let _few = self.net.cell_count();
            count_apart(cells.len() as u32, writer)
        }
    }
}

// Counts the clauses of a cell of the first train and each cell of its section: each has three literals, but for the one of the
// cell itself, which has two.
fn count_apart(cells: u32, writer: &mut ClauseWriter) -> Result<(), WriteFault>
    requires counts { writer.old.keeps ≡ false }
    requires some { 1 ≤ cells }
    ensures ok { (list : List (List Lit)) → length list ≡ cells → literal_count list + 1 ≡ 3 * cells → OnOk result (Takes writer.old list writer.new) }
    ensures err { (list : List (List Lit)) → length list ≡ cells → IfErr result (IsCause writer.old list) }
{
    writer.take_counted(cells, 3 * u64::from(cells) - 1)
}

// by cell of the other train
#[derive(Drop)]
struct Apart<'a> {
    net: &'a NetworkNumbers,
    one: &'a TrainNumbers,
    other: &'a TrainNumbers,
    step: u32,
    cell: u32,
}

impl<'a> Part for Apart<'a> {
    ghost use Rattle.std.specs.Prelude.{◌<◌, [], ◌∷◌, length};
    ghost use Rattle.clause_list.specs.PairClauses.{apart};
    ghost use Rattle.clause_encoder.specs.PairFitting.{AreOverCells, AreBothThere, IsOfSection};

    ghost clauses = { λ p f. apart p.net.now p.one.now p.other.now p.step p.cell f ∷ [] };

    ghost fits = { λ p place f. AreOverCells p.net.now p.one.now p.other.now × AreBothThere p.one.now p.other.now p.step × (p.cell < length p.net.now.sections) × IsOfSection p.net.now p.cell f };

    #[tactic(auto, unfolding(clause_list::specs::PairClauses::apart))]
    fn write(&self, _place: usize, cell: u32, writer: &mut ClauseWriter) -> Result<(), WriteFault> {
        let one = is_not(self.one.touch(self.step, self.cell));
        let other = is_not(self.other.touch(self.step, cell));
        if self.cell == cell {
            writer.take(&[one, other])
        } else {
            let gap = self
                .net
                .gap(earlier(self.cell, cell), later(self.cell, cell));
            writer.take(&[one, other, is(gap)])
        }
    }
}
