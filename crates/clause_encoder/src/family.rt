//! The families of one train, and each of them for all trains.
ghost use Rattle.std.specs.Prelude.{◌≡◌, ◌<◌, length, slice_index_or, OnOk, IfErr};
ghost use Rattle.clause_list.specs.WholeList.{of_each_train, train_at};
ghost use Rattle.clause_encoder.specs.Writing.{AreClauses, Takes, IsCause};
ghost use Rattle.clause_encoder.specs.TableLists.{tables_of};
ghost use Rattle.clause_encoder.specs.Families.{family_of, FitsWhole, AllFit};

use crate::ended::{write_gone, write_stay_ended};
use crate::enter::write_enter;
use crate::go_on::write_go_on;
use crate::part::{Part, write_range};
use crate::stand::write_stand;
use crate::stop_in_run::{write_stop_after_entry, write_stop_in_run};
use crate::stop_met::write_stop_met;
use crate::touch::write_touches;
use crate::train::TrainNumbers;
use crate::writer::{ClauseWriter, WriteFault};
use cell_net::Instance;
use sweep_table::Moves;

/// The families of one train, in the order of the list.
#[derive(Clone, Copy, Debug, PartialEq, Eq)]
pub enum TrainFamily {
    Enter,
    GoOn,
    StayEnded,
    Gone,
    Touch,
    StopMet,
    StopInRun,
    Stand,
    StopAfterEntry,
}

/// Writes the family of each train in turn.
#[tactic(auto, unfolding(clause_list::specs::WholeList::of_each_train))]
pub(crate) fn write_of_each_train<M: Moves>(
    family: TrainFamily,
    inst: &Instance,
    tables: &[M],
    trains: &[TrainNumbers],
    writer: &mut ClauseWriter,
) -> Result<(), WriteFault>
    requires fit { AllFit M.items M.table inst.now tables.now trains.now }
    requires clauses { AreClauses writer.old.vars (of_each_train (family_of family) (tables_of M.table inst.now tables.now) trains.now) }
    ensures ok { OnOk result (Takes writer.old (of_each_train (family_of family) (tables_of M.table inst.now tables.now) trains.now) writer.new) }
    ensures err { IfErr result (IsCause writer.old (of_each_train (family_of family) (tables_of M.table inst.now tables.now) trains.now)) }
{
    let of_train = FamilyOf {
        family,
        inst,
        tables,
        trains,
    };
    write_range(&of_train, 0, trains.len() as u32, writer)
}

// by train
#[derive(Drop)]
struct FamilyOf<'a, M> {
    family: TrainFamily,
    inst: &'a Instance,
    tables: &'a [M],
    trains: &'a [TrainNumbers],
}

impl<'a, M: Moves> Part for FamilyOf<'a, M> {
    ghost use Rattle.std.specs.Prelude.{◌<◌, length};
    ghost use Rattle.clause_list.specs.WholeList.{of_train};
    ghost use Rattle.clause_encoder.specs.TableLists.{tables_of};
    ghost use Rattle.clause_encoder.specs.Families.{family_of, AllFit};

    ghost clauses = { λ p i. of_train (family_of p.family) (tables_of M.table p.inst.now p.tables.now) p.trains.now i };

    ghost fits = { λ p place i. AllFit M.items M.table p.inst.now p.tables.now p.trains.now × (i < length p.trains.now) };

    fn write(
        &self,
        _place: usize,
        train: u32,
        writer: &mut ClauseWriter,
    ) -> Result<(), WriteFault> {
        write_family(
            self.family,
            self.inst,
            table_of(self.tables, train),
            numbers_at(self.trains, train),
            writer,
        )
    }
}

/// The table of the train of that place.
pub(crate) fn table_of<M: Moves>(tables: &[M], train: u32) -> &M
    requires { train < length tables.now }
    ensures { slice_index_or tables.now train result.now ≡ result.now }
{
    &tables[train as usize]
}

// The numbers of the train of that place.
fn numbers_at(trains: &[TrainNumbers], train: u32) -> &TrainNumbers
    requires { train < length trains.now }
    ensures { result.now ≡ train_at trains.now train }
{
    &trains[train as usize]
}

// Writes the family of the train.
fn write_family<M: Moves>(
    family: TrainFamily,
    inst: &Instance,
    table: &M,
    train: &TrainNumbers,
    writer: &mut ClauseWriter,
) -> Result<(), WriteFault>
    requires fits { FitsWhole (M.items table.now) inst.now (M.table table.now inst.now) train.now }
    requires clauses { AreClauses writer.old.vars (family_of family (M.table table.now inst.now) train.now) }
    ensures ok { OnOk result (Takes writer.old (family_of family (M.table table.now inst.now) train.now) writer.new) }
    ensures err { IfErr result (IsCause writer.old (family_of family (M.table table.now inst.now) train.now)) }
{
    match family {
        TrainFamily::Enter => write_enter(inst, table, train, writer),
        TrainFamily::GoOn => write_go_on(inst, table, train, writer),
        TrainFamily::StayEnded => write_stay_ended(train, writer),
        TrainFamily::Gone => write_gone(train, writer),
        TrainFamily::Touch => write_touches(inst, table, train, writer),
        TrainFamily::StopMet => write_stop_met(train, writer),
        TrainFamily::StopInRun => write_stop_in_run(train, writer),
        TrainFamily::Stand => write_stand(inst, table, train, writer),
        TrainFamily::StopAfterEntry => write_stop_after_entry(train, writer),
    }
}
