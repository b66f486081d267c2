//! The decoder: from a valuation to a layout and a plan.
ghost use Rattle.std.specs.Prelude.{◌≡◌, ◌<◌, ◌≤◌, ◌↔◌, ℕ, List, true, length, Contains, IfOk};
ghost use Rattle.cell_net.specs.Plans.{IsLawful};
ghost use Rattle.cell_net.specs.declared.ids.CandidateId.{CandidateId};
ghost use Rattle.clause_list.specs.Numbers.{border};
ghost use Rattle.clause_list.specs.Values.{value};
ghost use Rattle.clause_encoder.specs.Maps.{IsMapOf};
ghost use Rattle.clause_encoder.specs.TableLists.{tables_of, AreMadeFor};
ghost use Rattle.plan_laws.specs.Chains.{AreChains};
ghost use Rattle.plan_laws.specs.Telling.{told_plan};
ghost use Rattle.plan_decoder.specs.Decoding.{kept_tables, KeepsTables, SatisfiesCount, SatisfiesGiven, SatisfiesTask};

use crate::layout::layout_of;
use crate::plan::plan_of;
use cell_net::{Instance, Layout, Plan};
use clause_encoder::{VarMap, know_tables};
use plan_laws::{chains_are_lawful, counts_bound_layouts, valuations_tell_chains};
use sat_core::Valuation;
use std::alloc::{AllocError, Global};
use sweep_table::Moves;

/// The layout of the candidates whose variable is true, and the plan of one chain a train, in the tables that the map was made
/// from. A chain begins at the first step of the train's window after which it does not wait, with the lowest entry of that
/// step's cone whose variable is true; it goes on with the lowest item that may come next, is in the cone of its step and whose
/// variable is true; and it ends at the first step after which the run has ended. Linear in the cones of the first steps and in
/// the items that may come after those of the plan, up to the search of an item in its cone.
pub fn decode_over<M: Moves>(
    alloc: Global,
    inst: &Instance,
    tables: &[M],
    map: &VarMap,
    valuation: &Valuation,
) -> Result<(Layout, Plan), AllocError>
    requires made_for { AreMadeFor M.is_made_for inst.now tables.now }
    requires for_each { length tables.now ≡ length inst.now.trains }
    requires map { IsMapOf inst.now (tables_of M.table inst.now tables.now) map.now }
    requires satisfied { SatisfiesTask inst.now (tables_of M.table inst.now tables.now) valuation.now.values }
    ensures chains { IfOk result (λ found. AreChains inst.now found.0 (tables_of M.table inst.now tables.now) found.1) }
    ensures plan { IfOk result (λ found. found.1 ≡ told_plan valuation.now.values (tables_of M.table inst.now tables.now) map.now.trains) }
    ensures borders { (c : CandidateId) → IfOk result (λ found. Contains found.0 c ↔ (c.0 < length inst.now.candidates) × (value valuation.now.values (border c.0) ≡ true)) }
    ensures given { (layout : List CandidateId) → SatisfiesGiven inst.now (tables_of M.table inst.now tables.now) layout valuation.now.values → IfOk result (λ found. found.0 ≡ layout) }
    ensures count { (most : ℕ) → SatisfiesCount inst.now (tables_of M.table inst.now tables.now) most valuation.now.values → IfOk result (λ found. length found.0 ≤ most) }
{
    let _parts = inst.parts();
    know_tables(inst, tables);
    valuations_tell_chains();
    counts_bound_layouts();
    let values = valuation.values.as_slice();
    let plan = plan_of(alloc, inst, values, tables, map)?;
    let layout = layout_of(alloc, inst, values, map)?;
    Ok((layout, plan))
}

/// The same in the tables of the trains' sweeps, which the map keeps: such a plan is lawful.
pub fn decode(
    alloc: Global,
    inst: &Instance,
    map: &VarMap,
    valuation: &Valuation,
) -> Result<(Layout, Plan), AllocError>
    requires kept { KeepsTables inst.now map.now }
    requires satisfied { SatisfiesTask inst.now (kept_tables inst.now map.now) valuation.now.values }
    ensures lawful { IfOk result (λ found. IsLawful inst.now found.0 found.1) }
    ensures plan { IfOk result (λ found. found.1 ≡ told_plan valuation.now.values (kept_tables inst.now map.now) map.now.trains) }
    ensures borders { (c : CandidateId) → IfOk result (λ found. Contains found.0 c ↔ (c.0 < length inst.now.candidates) × (value valuation.now.values (border c.0) ≡ true)) }
    ensures given { (layout : List CandidateId) → SatisfiesGiven inst.now (kept_tables inst.now map.now) layout valuation.now.values → IfOk result (λ found. found.0 ≡ layout) }
    ensures count { (most : ℕ) → SatisfiesCount inst.now (kept_tables inst.now map.now) most valuation.now.values → IfOk result (λ found. length found.0 ≤ most) }
{
    chains_are_lawful();
    decode_over(alloc, inst, map.tables(), map, valuation)
}
