//! The lists of tasks, written whole.
ghost use Rattle.std.specs.Prelude.{◌<◌, ◌≤◌, ◌+◌, OnOk, IfErr};
ghost use Rattle.border_counter.specs.Counter.{sum_to};
ghost use Rattle.clause_list.specs.BorderClauses.{most_clauses};
ghost use Rattle.clause_encoder.specs.Writing.{Takes, IsCause};
ghost use Rattle.clause_encoder.specs.TableLists.{tables_of};
ghost use Rattle.clause_encoder.specs.Plans.{base_list, counted_list};
ghost use Rattle.clause_encoder.specs.PlanFits.{FitsBase, FitsCount};

use crate::at_least::at_least_number;
use crate::borders::{write_given, write_kept};
use crate::counts::{write_count, write_most};
use crate::numbers::Numbers;
use crate::plan::write_plan;
use crate::sized::Listing;
use crate::writer::{ClauseWriter, WriteFault};
use cell_net::{CandidateId, Instance};
use std::alloc::Global;
use sweep_table::Moves;

/// The list of the task of a layout.
#[derive(Drop)]
pub(crate) struct GivenList<'a, M> {
    pub(crate) inst: &'a Instance,
    pub(crate) tables: &'a [M],
    pub(crate) numbers: &'a Numbers,
    pub(crate) layout: &'a [CandidateId],
}

impl<'a, M: Moves> Listing for GivenList<'a, M> {
    ghost use Rattle.clause_encoder.specs.TableLists.{tables_of};
    ghost use Rattle.clause_encoder.specs.Plans.{given_list};
    ghost use Rattle.clause_encoder.specs.PlanFits.{FitsGiven};

    ghost counted = { λ p. given_list p.numbers.now.gaps p.numbers.now.net (tables_of M.table p.inst.now p.tables.now) p.numbers.now.trains.items p.layout.now };

    ghost kept = { λ p. given_list p.numbers.now.gaps p.numbers.now.net (tables_of M.table p.inst.now p.tables.now) p.numbers.now.trains.items p.layout.now };

    ghost fits = { λ p vars. FitsGiven M.items M.table p.inst.now p.tables.now p.numbers.now.net p.numbers.now.gaps p.numbers.now.trains.items p.layout.now vars };

    fn write(&self, _keeps: bool, writer: &mut ClauseWriter) -> Result<(), WriteFault> {
        match write_given(&self.numbers.net, self.layout, writer) {
            Ok(()) => write_plan(self.inst, self.tables, self.numbers, writer),
            Err(fault) => Err(fault),
        }
    }
}

/// The list of a free task without its counter and its bound.
#[derive(Drop)]
pub(crate) struct BaseList<'a, M> {
    pub(crate) inst: &'a Instance,
    pub(crate) tables: &'a [M],
    pub(crate) numbers: &'a Numbers,
}

impl<'a, M: Moves> Listing for BaseList<'a, M> {
    ghost use Rattle.clause_encoder.specs.TableLists.{tables_of};
    ghost use Rattle.clause_encoder.specs.Plans.{base_list};
    ghost use Rattle.clause_encoder.specs.PlanFits.{FitsBase};

    ghost counted = { λ p. base_list p.numbers.now.gaps p.numbers.now.net (tables_of M.table p.inst.now p.tables.now) p.numbers.now.trains.items };

    ghost kept = { λ p. base_list p.numbers.now.gaps p.numbers.now.net (tables_of M.table p.inst.now p.tables.now) p.numbers.now.trains.items };

    ghost fits = { λ p vars. FitsBase M.items M.table p.inst.now p.tables.now p.numbers.now.net p.numbers.now.gaps p.numbers.now.trains.items vars };

    fn write(&self, _keeps: bool, writer: &mut ClauseWriter) -> Result<(), WriteFault> {
        write_base(self.inst, self.tables, self.numbers, writer)
    }
}

// Writes the families of a free task but its counter and its bound.
fn write_base<M: Moves>(
    inst: &Instance,
    tables: &[M],
    numbers: &Numbers,
    writer: &mut ClauseWriter,
) -> Result<(), WriteFault>
    requires fits { FitsBase M.items M.table inst.now tables.now numbers.now.net numbers.now.gaps numbers.now.trains.items writer.old.vars }
    ensures ok { OnOk result (Takes writer.old (base_list numbers.now.gaps numbers.now.net (tables_of M.table inst.now tables.now) numbers.now.trains.items) writer.new) }
    ensures err { IfErr result (IsCause writer.old (base_list numbers.now.gaps numbers.now.net (tables_of M.table inst.now tables.now) numbers.now.trains.items)) }
{
    match write_kept(&numbers.net, writer) {
        Ok(()) => write_plan(inst, tables, numbers, writer),
        Err(fault) => Err(fault),
    }
}

/// The list of a free task of at most so many borders. Its bound is not counted.
#[derive(Drop)]
pub(crate) struct FreeList<'a, M> {
    pub(crate) alloc: Global,
    pub(crate) inst: &'a Instance,
    pub(crate) tables: &'a [M],
    pub(crate) numbers: &'a Numbers,
    pub(crate) bound: u32,
}

impl<'a, M: Moves> Listing for FreeList<'a, M> {
    ghost use Rattle.clause_encoder.specs.TableLists.{tables_of};
    ghost use Rattle.clause_encoder.specs.Plans.{counted_list, free_list};
    ghost use Rattle.clause_encoder.specs.PlanFits.{FitsCount};

    ghost counted = { λ p. counted_list p.numbers.now.gaps p.numbers.now.net (tables_of M.table p.inst.now p.tables.now) p.numbers.now.trains.items p.numbers.now.behind };

    ghost kept = { λ p. free_list p.numbers.now.gaps p.numbers.now.net (tables_of M.table p.inst.now p.tables.now) p.numbers.now.trains.items p.numbers.now.behind p.bound };

    ghost fits = { λ p vars. FitsCount M.items M.table p.inst.now p.tables.now p.numbers.now.net p.numbers.now.gaps p.numbers.now.trains.items p.numbers.now.behind vars };

    fn write(&self, keeps: bool, writer: &mut ClauseWriter) -> Result<(), WriteFault> {
        match write_counted(self.alloc, self.inst, self.tables, self.numbers, writer) {
            Ok(()) => {}
            Err(fault) => return Err(fault),
        }
        if keeps {
            write_bound(self.numbers, self.bound, writer)
        } else {
            Ok(())
        }
    }
}

// Writes the families of a free task but its bound.
fn write_counted<M: Moves>(
    alloc: Global,
    inst: &Instance,
    tables: &[M],
    numbers: &Numbers,
    writer: &mut ClauseWriter,
) -> Result<(), WriteFault>
    requires fits { FitsCount M.items M.table inst.now tables.now numbers.now.net numbers.now.gaps numbers.now.trains.items numbers.now.behind writer.old.vars }
    ensures ok { OnOk result (Takes writer.old (counted_list numbers.now.gaps numbers.now.net (tables_of M.table inst.now tables.now) numbers.now.trains.items numbers.now.behind) writer.new) }
    ensures err { IfErr result (IsCause writer.old (counted_list numbers.now.gaps numbers.now.net (tables_of M.table inst.now tables.now) numbers.now.trains.items numbers.now.behind)) }
{
    match write_base(inst, tables, numbers, writer) {
        Ok(()) => write_count(alloc, numbers.net.candidate_count(), numbers.behind, writer),
        Err(fault) => Err(fault),
    }
}

// Writes the bound of a free task.
fn write_bound(numbers: &Numbers, bound: u32, writer: &mut ClauseWriter) -> Result<(), WriteFault>
    requires some { 1 ≤ numbers.now.behind }
    requires few { numbers.now.behind ≤ 2000001 }
    requires variables { numbers.now.behind + sum_to numbers.now.net.candidates ≤ writer.old.vars + 1 }
    ensures ok { OnOk result (Takes writer.old (most_clauses numbers.now.behind numbers.now.net.candidates bound) writer.new) }
    ensures err { IfErr result (IsCause writer.old (most_clauses numbers.now.behind numbers.now.net.candidates bound)) }
{
    let candidates = numbers.net.candidate_count();
    let above = if bound < candidates {
        at_least_number(numbers.behind, candidates, bound + 1)
    } else {
        0
    };
    write_most(numbers.behind, candidates, bound, above, writer)
}
