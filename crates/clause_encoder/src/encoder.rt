//! The encoder: from an instance to the formula of a task.
ghost use Rattle.std.specs.Prelude.{◌≡◌, ◌<◌, ◌≤◌, ◌+◌, ◌-◌, ◌^◌, length, IfOk, IfErr};
ghost use Rattle.border_counter.specs.Counter.{sum_to};
ghost use Rattle.clause_list.specs.BorderClauses.{most_clauses};
ghost use Rattle.clause_encoder.specs.TableLists.{tables_of, AreMadeFor};
ghost use Rattle.clause_encoder.specs.declared.task.Task.TheVariants.{Given, Free};
ghost use Rattle.clause_encoder.specs.Plans.{AreNumbers, given_list, counted_list, free_list};
ghost use Rattle.clause_encoder.specs.Sizes.{HasFewClauses, IsSizeRefusal};
ghost use Rattle.clause_encoder.specs.PlanFits.{FitsGiven, FitsCount};
ghost use Rattle.clause_encoder.specs.Encoding.{IsEncoding, IsListRefusal, task_variables, sized_clauses, sized_units};

use crate::known::know_tables;
use crate::limits::VARIABLES;
use crate::lists::{FreeList, GivenList};
use crate::map::VarMap;
use crate::numbers::{Numbers, numbers_over};
use crate::sized::sized;
use crate::task::{EncodeRefusal, Task};
use cell_net::{CandidateId, Instance, Layout};
use sat_core::Formula;
use std::alloc::Global;
use sweep_table::Moves;

/// A formula and where its variables stand.
#[derive(Debug, Drop)]
pub struct Encoded {
    pub formula: Formula,
    pub map: VarMap,
}

/// The formula of the task over tables of moves, one for each train; the bound is that of a free task. The sizes are counted
/// before a clause is kept, up to the first clause too many. Linear in the literals, beside what the numbers of trains and the
/// walks of gaps take.
pub fn encode_over<M: Moves>(
    alloc: Global,
    inst: &Instance,
    tables: &[M],
    task: &Task,
    bound: u32,
) -> Result<Encoded, EncodeRefusal>
    requires made_for { AreMadeFor M.is_made_for inst.now tables.now }
    requires for_each { length tables.now ≡ length inst.now.trains }
    ensures ok { IfOk result (λ e. IsEncoding inst.now (tables_of M.table inst.now tables.now) task.now bound e.formula e.map) }
    ensures err { IfErr result (IsListRefusal inst.now (task_variables inst.now (tables_of M.table inst.now tables.now) task.now) (sized_clauses inst.now (tables_of M.table inst.now tables.now) task.now) (sized_units task.now)) }
{
    match numbers_over(alloc, inst, tables) {
        Ok(numbers) => match task {
            Task::Given(layout) => encode_given(alloc, inst, tables, numbers, layout, bound),
            Task::Free => encode_free(alloc, inst, tables, numbers, bound),
        },
        Err(refusal) => Err(refusal),
    }
}

// The formula of the task of a layout.
fn encode_given<M: Moves>(
    alloc: Global,
    inst: &Instance,
    tables: &[M],
    numbers: Numbers,
    layout: &Layout,
    _bound: u32,
) -> Result<Encoded, EncodeRefusal>
    requires made_for { AreMadeFor M.is_made_for inst.now tables.now }
    requires for_each { length tables.now ≡ length inst.now.trains }
    requires numbers { AreNumbers inst.now (tables_of M.table inst.now tables.now) numbers.net numbers.gaps numbers.trains.items numbers.behind }
    ensures ok { IfOk result (λ e. IsEncoding inst.now (tables_of M.table inst.now tables.now) (Given layout.now) _bound e.formula e.map) }
    ensures err { IfErr result (IsListRefusal inst.now (task_variables inst.now (tables_of M.table inst.now tables.now) (Given layout.now)) (sized_clauses inst.now (tables_of M.table inst.now tables.now) (Given layout.now)) (sized_units (Given layout.now))) }
{
    match given_formula(alloc, inst, tables, &numbers, layout.borders()) {
        Ok(formula) => Ok(Encoded {
            formula,
            map: VarMap {
                candidates: inst.candidate_count(),
                trains: numbers.trains,
                tables: Vec::new(alloc),
                counts: false,
                first_of_count: 0,
                before_order: 0,
            },
        }),
        Err(refusal) => Err(refusal),
    }
}

// The list of a layout's task, if it is not too long.
fn given_formula<M: Moves>(
    alloc: Global,
    inst: &Instance,
    tables: &[M],
    numbers: &Numbers,
    layout: &[CandidateId],
) -> Result<Formula, EncodeRefusal>
    requires made_for { AreMadeFor M.is_made_for inst.now tables.now }
    requires for_each { length tables.now ≡ length inst.now.trains }
    requires numbers { AreNumbers inst.now (tables_of M.table inst.now tables.now) numbers.now.net numbers.now.gaps numbers.now.trains.items numbers.now.behind }
    ensures vars { IfOk result (λ f. f.vars ≡ numbers.now.behind - 1) }
    ensures clauses { IfOk result (λ f. f.clauses ≡ given_list numbers.now.gaps numbers.now.net (tables_of M.table inst.now tables.now) numbers.now.trains.items layout.now) }
    ensures few { IfOk result (λ f. HasFewClauses (given_list numbers.now.gaps numbers.now.net (tables_of M.table inst.now tables.now) numbers.now.trains.items layout.now) 0) }
    ensures refusal { IfErr result (IsSizeRefusal (given_list numbers.now.gaps numbers.now.net (tables_of M.table inst.now tables.now) numbers.now.trains.items layout.now) 0) }
{
    given_fits(inst, tables, numbers, layout);
    let list = GivenList {
        inst,
        tables,
        numbers,
        layout,
    };
    sized(alloc, &list, numbers.behind - 1, 0)
}

// The numbers fit the list of a layout's task, which is one of clauses.
fn given_fits<M: Moves>(inst: &Instance, tables: &[M], numbers: &Numbers, layout: &[CandidateId])
    requires made_for { AreMadeFor M.is_made_for inst.now tables.now }
    requires for_each { length tables.now ≡ length inst.now.trains }
    requires numbers { AreNumbers inst.now (tables_of M.table inst.now tables.now) numbers.now.net numbers.now.gaps numbers.now.trains.items numbers.now.behind }
    ensures { FitsGiven M.items M.table inst.now tables.now numbers.now.net numbers.now.gaps numbers.now.trains.items layout.now (numbers.now.behind - 1) }
{
    let _parts = inst.parts();
    let _count = inst.train_count();
    know_tables(inst, tables);
}

// The formula of a free task.
fn encode_free<M: Moves>(
    alloc: Global,
    inst: &Instance,
    tables: &[M],
    numbers: Numbers,
    bound: u32,
) -> Result<Encoded, EncodeRefusal>
    requires made_for { AreMadeFor M.is_made_for inst.now tables.now }
    requires for_each { length tables.now ≡ length inst.now.trains }
    requires numbers { AreNumbers inst.now (tables_of M.table inst.now tables.now) numbers.net numbers.gaps numbers.trains.items numbers.behind }
    ensures ok { IfOk result (λ e. IsEncoding inst.now (tables_of M.table inst.now tables.now) Free bound e.formula e.map) }
    ensures err { IfErr result (IsListRefusal inst.now (task_variables inst.now (tables_of M.table inst.now tables.now) Free) (sized_clauses inst.now (tables_of M.table inst.now tables.now) Free) (sized_units Free)) }
{
    let candidates = inst.candidate_count();
    let count = counter_variables(candidates);
    let vars = numbers.behind - 1 + count;
    if vars > VARIABLES {
        return Err(EncodeRefusal::TooManyVariables);
    }
    match free_formula(alloc, inst, tables, &numbers, vars, bound) {
        Ok(formula) => {
            let before_order = before_order_of(&formula, candidates, bound);
            Ok(Encoded {
                formula,
                map: VarMap {
                    candidates,
                    trains: numbers.trains,
                    tables: Vec::new(alloc),
                    counts: true,
                    first_of_count: numbers.behind,
                    before_order,
                },
            })
        }
        Err(refusal) => Err(refusal),
    }
}

// The list of a free task over so many variables, if it is not too long.
fn free_formula<M: Moves>(
    alloc: Global,
    inst: &Instance,
    tables: &[M],
    numbers: &Numbers,
    vars: u32,
    bound: u32,
) -> Result<Formula, EncodeRefusal>
    requires made_for { AreMadeFor M.is_made_for inst.now tables.now }
    requires for_each { length tables.now ≡ length inst.now.trains }
    requires numbers { AreNumbers inst.now (tables_of M.table inst.now tables.now) numbers.now.net numbers.now.gaps numbers.now.trains.items numbers.now.behind }
    requires variables { numbers.now.behind + sum_to (length inst.now.candidates) ≤ vars + 1 }
    ensures vars { IfOk result (λ f. f.vars ≡ vars) }
    ensures clauses { IfOk result (λ f. f.clauses ≡ free_list numbers.now.gaps numbers.now.net (tables_of M.table inst.now tables.now) numbers.now.trains.items numbers.now.behind bound) }
    ensures few { IfOk result (λ f. HasFewClauses (counted_list numbers.now.gaps numbers.now.net (tables_of M.table inst.now tables.now) numbers.now.trains.items numbers.now.behind) 1) }
    ensures refusal { IfErr result (IsSizeRefusal (counted_list numbers.now.gaps numbers.now.net (tables_of M.table inst.now tables.now) numbers.now.trains.items numbers.now.behind) 1) }
{
    free_fits(inst, tables, numbers, vars);
    let list = FreeList {
        alloc,
        inst,
        tables,
        numbers,
        bound,
    };
    sized(alloc, &list, vars, 1)
}

// The numbers fit the list of a free task over so many variables, which is one of clauses.
fn free_fits<M: Moves>(inst: &Instance, tables: &[M], numbers: &Numbers, vars: u32)
    requires made_for { AreMadeFor M.is_made_for inst.now tables.now }
    requires for_each { length tables.now ≡ length inst.now.trains }
    requires numbers { AreNumbers inst.now (tables_of M.table inst.now tables.now) numbers.now.net numbers.now.gaps numbers.now.trains.items numbers.now.behind }
    requires variables { numbers.now.behind + sum_to (length inst.now.candidates) ≤ vars + 1 }
    ensures { FitsCount M.items M.table inst.now tables.now numbers.now.net numbers.now.gaps numbers.now.trains.items numbers.now.behind vars }
{
    let _parts = inst.parts();
    let _count = inst.train_count();
    know_tables(inst, tables);
}

// How many clauses of a free task's list stand before those of the counter's order.
fn before_order_of(formula: &Formula, candidates: u32, bound: u32) -> u32
    requires { length (most_clauses 0 candidates bound) + (candidates - 1) ≤ length formula.now.clauses }
    ensures { result ≡ length formula.now.clauses - length (most_clauses 0 candidates bound) - (candidates - 1) }
{
    let units = if bound < candidates { 1 } else { 0 };
    formula.len() - units - candidates.saturating_sub(1)
}

// How many variables the counter of so many borders has.
#[tactic(auto, unfolding(border_counter::specs::Counter::sum_to))]
fn counter_variables(candidates: u32) -> u32
    requires { candidates ≤ 512 }
    ensures value { result ≡ sum_to candidates }
    ensures few { result < 2 ^ 31 }
{
    candidates * (candidates + 1) / 2
}
