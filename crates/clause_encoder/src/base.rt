//! The list of a free task without its counter and its bound, for whoever counts borders in another way.
ghost use Rattle.std.specs.Prelude.{◌≡◌, ◌≤◌, ◌+◌, ◌-◌, length, IfOk, IfErr};
ghost use Rattle.clause_list.specs.Coding.{given_variables};
ghost use Rattle.clause_encoder.specs.TableLists.{tables_of, AreMadeFor};
ghost use Rattle.clause_encoder.specs.Plans.{AreNumbers, base_list};
ghost use Rattle.clause_encoder.specs.PlanFits.{FitsBase};
ghost use Rattle.clause_encoder.specs.Sizes.{HasFewClauses, IsSizeRefusal};
ghost use Rattle.clause_encoder.specs.Encoding.{IsBaseEncoding, IsListRefusal, base_sized};
ghost use Rattle.clause_encoder.specs.SweepTables.{IsSweepBase, IsBaseRefusal};

use crate::encoder::Encoded;
use crate::known::know_tables;
use crate::limits::VARIABLES;
use crate::lists::BaseList;
use crate::map::VarMap;
use crate::numbers::{Numbers, numbers_over};
use crate::sized::sized;
use crate::sweeps::keeping;
use crate::tables::sweep_tables;
use crate::task::EncodeRefusal;
use cell_net::Instance;
use sat_core::Formula;
use std::alloc::Global;
use sweep_table::Moves;

/// The list of a free task without its counter and its bound, over the sweeps of its trains, with so many variables behind
/// those of the trains. Causes of a refusal are looked for in the order of `EncodeRefusal`, over the sizes of this list.
pub fn encode_base(alloc: Global, inst: &Instance, more_vars: u32) -> Result<Encoded, EncodeRefusal>
    ensures ok { IfOk result (λ e. IsSweepBase inst.now more_vars e.formula e.map) }
    ensures err { IfErr result (IsBaseRefusal inst.now more_vars) }
{
    match sweep_tables(alloc, inst) {
        Ok(tables) => match base_over(alloc, inst, tables.as_slice(), more_vars) {
            Ok(encoded) => Ok(keeping(encoded, tables)),
            Err(refusal) => Err(refusal),
        },
        Err(refusal) => Err(refusal),
    }
}

// The same over any tables of moves.
fn base_over<M: Moves>(
    alloc: Global,
    inst: &Instance,
    tables: &[M],
    more_vars: u32,
) -> Result<Encoded, EncodeRefusal>
    requires made_for { AreMadeFor M.is_made_for inst.now tables.now }
    requires for_each { length tables.now ≡ length inst.now.trains }
    ensures ok { IfOk result (λ e. IsBaseEncoding inst.now (tables_of M.table inst.now tables.now) more_vars e.formula e.map) }
    ensures err { IfErr result (IsListRefusal inst.now (given_variables inst.now (tables_of M.table inst.now tables.now) + more_vars) (base_sized inst.now (tables_of M.table inst.now tables.now)) 0) }
{
    match numbers_over(alloc, inst, tables) {
        Ok(numbers) => base_with(alloc, inst, tables, numbers, more_vars),
        Err(refusal) => Err(refusal),
    }
}

// The same, where the numbers are made.
fn base_with<M: Moves>(
    alloc: Global,
    inst: &Instance,
    tables: &[M],
    numbers: Numbers,
    more_vars: u32,
) -> Result<Encoded, EncodeRefusal>
    requires made_for { AreMadeFor M.is_made_for inst.now tables.now }
    requires for_each { length tables.now ≡ length inst.now.trains }
    requires numbers { AreNumbers inst.now (tables_of M.table inst.now tables.now) numbers.net numbers.gaps numbers.trains.items numbers.behind }
    ensures ok { IfOk result (λ e. IsBaseEncoding inst.now (tables_of M.table inst.now tables.now) more_vars e.formula e.map) }
    ensures err { IfErr result (IsListRefusal inst.now (given_variables inst.now (tables_of M.table inst.now tables.now) + more_vars) (base_sized inst.now (tables_of M.table inst.now tables.now)) 0) }
{
    let most = VARIABLES - (numbers.behind - 1);
    if more_vars > most {
        return Err(EncodeRefusal::TooManyVariables);
    }
    let vars = numbers.behind - 1 + more_vars;
    match base_formula(alloc, inst, tables, &numbers, vars) {
        Ok(formula) => Ok(Encoded {
            formula,
            map: VarMap {
                candidates: inst.candidate_count(),
                trains: numbers.trains,
                tables: Vec::new(alloc),
                counts: false,
                first_of_count: 0,
                before_order: 0,
            },
        }),
        Err(refusal) => Err(refusal),
    }
}

// The list over so many variables, if it is not too long.
fn base_formula<M: Moves>(
    alloc: Global,
    inst: &Instance,
    tables: &[M],
    numbers: &Numbers,
    vars: u32,
) -> Result<Formula, EncodeRefusal>
    requires made_for { AreMadeFor M.is_made_for inst.now tables.now }
    requires for_each { length tables.now ≡ length inst.now.trains }
    requires numbers { AreNumbers inst.now (tables_of M.table inst.now tables.now) numbers.now.net numbers.now.gaps numbers.now.trains.items numbers.now.behind }
    requires variables { numbers.now.behind ≤ vars + 1 }
    ensures vars { IfOk result (λ f. f.vars ≡ vars) }
    ensures clauses { IfOk result (λ f. f.clauses ≡ (base_list numbers.now.gaps numbers.now.net (tables_of M.table inst.now tables.now) numbers.now.trains.items)) }
    ensures few { IfOk result (λ f. HasFewClauses (base_list numbers.now.gaps numbers.now.net (tables_of M.table inst.now tables.now) numbers.now.trains.items) 0) }
    ensures refusal { IfErr result (IsSizeRefusal (base_list numbers.now.gaps numbers.now.net (tables_of M.table inst.now tables.now) numbers.now.trains.items) 0) }
{
    base_fits(inst, tables, numbers, vars);
    let list = BaseList {
        inst,
        tables,
        numbers,
    };
    sized(alloc, &list, vars, 0)
}

// The numbers fit the list over so many variables, which is one of clauses.
fn base_fits<M: Moves>(inst: &Instance, tables: &[M], numbers: &Numbers, vars: u32)
    requires made_for { AreMadeFor M.is_made_for inst.now tables.now }
    requires for_each { length tables.now ≡ length inst.now.trains }
    requires numbers { AreNumbers inst.now (tables_of M.table inst.now tables.now) numbers.now.net numbers.now.gaps numbers.now.trains.items numbers.now.behind }
    requires variables { numbers.now.behind ≤ vars + 1 }
    ensures { FitsBase M.items M.table inst.now tables.now numbers.now.net numbers.now.gaps numbers.now.trains.items vars }
{
    let _parts = inst.parts();
    let _count = inst.train_count();
    know_tables(inst, tables);
}
