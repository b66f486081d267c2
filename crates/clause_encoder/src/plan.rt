//! The families of gaps and trains, in their order.
ghost use Rattle.std.specs.Prelude.{◌<◌, OnOk, IfErr};
ghost use Rattle.clause_list.specs.WholeList.{of_each_train};
ghost use Rattle.clause_encoder.specs.Writing.{AreClauses, Takes, IsCause};
ghost use Rattle.clause_encoder.specs.TableLists.{tables_of};
ghost use Rattle.clause_encoder.specs.Families.{family_of};
ghost use Rattle.clause_encoder.specs.Plans.{plan_list};
ghost use Rattle.clause_encoder.specs.PlanFits.{PlanFits};

use crate::apart::write_apart_of_all;
use crate::family::{TrainFamily, write_of_each_train};
use crate::gaps::write_gaps;
use crate::numbers::Numbers;
use crate::part::{Part, write_range};
use crate::writer::{ClauseWriter, WriteFault};
use cell_net::Instance;
use sweep_table::Moves;

/// What the families of gaps and trains are written from.
#[derive(Drop)]
pub(crate) struct Plan<'a, M> {
    pub(crate) inst: &'a Instance,
    pub(crate) tables: &'a [M],
    pub(crate) numbers: &'a Numbers,
}

/// Writes the families of gaps and trains.
pub(crate) fn write_plan<M: Moves>(
    inst: &Instance,
    tables: &[M],
    numbers: &Numbers,
    writer: &mut ClauseWriter,
) -> Result<(), WriteFault>
    requires fits { PlanFits M.items M.table inst.now tables.now numbers.now.net numbers.now.gaps numbers.now.trains.items }
    requires clauses { AreClauses writer.old.vars (plan_list numbers.now.gaps numbers.now.net (tables_of M.table inst.now tables.now) numbers.now.trains.items) }
    ensures ok { OnOk result (Takes writer.old (plan_list numbers.now.gaps numbers.now.net (tables_of M.table inst.now tables.now) numbers.now.trains.items) writer.new) }
    ensures err { IfErr result (IsCause writer.old (plan_list numbers.now.gaps numbers.now.net (tables_of M.table inst.now tables.now) numbers.now.trains.items)) }
{
    let plan = Plan {
        inst,
        tables,
        numbers,
    };
    write_range(&plan, 0, 11, writer)
}

impl<'a, M: Moves> Part for Plan<'a, M> {
    ghost use Rattle.std.specs.Prelude.{◌<◌};
    ghost use Rattle.clause_encoder.specs.TableLists.{tables_of};
    ghost use Rattle.clause_encoder.specs.Plans.{plan_family};
    ghost use Rattle.clause_encoder.specs.PlanFits.{PlanFits};

    ghost clauses = { λ p k. plan_family p.numbers.now.gaps p.numbers.now.net (tables_of M.table p.inst.now p.tables.now) p.numbers.now.trains.items k };

    ghost fits = { λ p place k. PlanFits M.items M.table p.inst.now p.tables.now p.numbers.now.net p.numbers.now.gaps p.numbers.now.trains.items × (k < 11) };

    #[tactic(auto, unfolding(crate::specs::Plans::plan_family))]
    fn write(
        &self,
        _place: usize,
        number: u32,
        writer: &mut ClauseWriter,
    ) -> Result<(), WriteFault> {
        let (net, trains) = (&self.numbers.net, self.numbers.trains.as_slice());
        match number {
            0 => write_gaps(net, &self.numbers.gaps, writer),
            1 => self.write_trains(TrainFamily::Enter, writer),
            2 => self.write_trains(TrainFamily::GoOn, writer),
            3 => self.write_trains(TrainFamily::StayEnded, writer),
            4 => self.write_trains(TrainFamily::Gone, writer),
            5 => self.write_trains(TrainFamily::Touch, writer),
            6 => write_apart_of_all(net, trains, writer),
            7 => self.write_trains(TrainFamily::StopMet, writer),
            8 => self.write_trains(TrainFamily::StopInRun, writer),
            9 => self.write_trains(TrainFamily::Stand, writer),
            _ => self.write_trains(TrainFamily::StopAfterEntry, writer),
        }
    }
}

impl<'a, M: Moves> Plan<'a, M> {
    // Writes a family of each train.
    fn write_trains(&self, family: TrainFamily, writer: &mut ClauseWriter) -> Result<(), WriteFault>
        requires fits { PlanFits M.items M.table self.now.inst.now self.now.tables.now self.now.numbers.now.net self.now.numbers.now.gaps self.now.numbers.now.trains.items }
        requires clauses { AreClauses writer.old.vars (of_each_train (family_of family) (tables_of M.table self.now.inst.now self.now.tables.now) self.now.numbers.now.trains.items) }
        ensures ok { OnOk result (Takes writer.old (of_each_train (family_of family) (tables_of M.table self.now.inst.now self.now.tables.now) self.now.numbers.now.trains.items) writer.new) }
        ensures err { IfErr result (IsCause writer.old (of_each_train (family_of family) (tables_of M.table self.now.inst.now self.now.tables.now) self.now.numbers.now.trains.items)) }
    {
        write_of_each_train(family, self.inst, self.tables, &self.numbers.trains, writer)
    }
}
