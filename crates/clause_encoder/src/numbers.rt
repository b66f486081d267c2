//! The numbers of a task: of its network, its gaps and its trains.
ghost use Rattle.std.specs.Prelude.{◌≡◌, length, IfOk, IfErr};
ghost use Rattle.gap_clauses.specs.Gaps.{AreGaps};
ghost use Rattle.clause_encoder.specs.Plans.{AreNumbers, HasFewWalks, IsNumbersRefusal, gap_refusal};
ghost use Rattle.clause_encoder.specs.TableLists.{tables_of, AreMadeFor};

use crate::build::NumberFault;
use crate::limits::VARIABLES;
use crate::network::NetworkNumbers;
use crate::task::EncodeRefusal;
use crate::train::TrainNumbers;
use crate::trains::numbers_of;
use cell_net::Instance;
use gap_clauses::{GapRefusal, Gaps};
use std::alloc::Global;
use sweep_table::Moves;

/// What the clauses of a task are written from, beside its tables.
#[derive(Drop)]
pub(crate) struct Numbers {
    pub(crate) net: NetworkNumbers,
    pub(crate) gaps: Gaps,
    pub(crate) trains: Vec<TrainNumbers>,
    /// The number behind those of the trains.
    pub(crate) behind: u32,
}

/// The numbers of the instance over the tables of its trains.
pub(crate) fn numbers_over<M: Moves>(
    alloc: Global,
    inst: &Instance,
    tables: &[M],
) -> Result<Numbers, EncodeRefusal>
    requires made_for { AreMadeFor M.is_made_for inst.now tables.now }
    requires for_each { length tables.now ≡ length inst.now.trains }
    ensures ok { IfOk result (λ n. AreNumbers inst.now (tables_of M.table inst.now tables.now) n.net n.gaps n.trains.items n.behind) }
    ensures err { IfErr result (IsNumbersRefusal inst.now (tables_of M.table inst.now tables.now)) }
{
    match Gaps::build(alloc, inst) {
        Ok(gaps) => numbers_with(alloc, inst, tables, gaps),
        Err(refusal) => Err(refusal_of(refusal)),
    }
}

// Why there is no formula, where there are no gaps.
fn refusal_of(refusal: GapRefusal) -> EncodeRefusal
    ensures { result ≡ gap_refusal refusal }
{
    match refusal {
        GapRefusal::TooManyWalks(section) => EncodeRefusal::TooManyWalks(section),
        GapRefusal::Memory => EncodeRefusal::Memory,
    }
}

// The numbers of the instance, where its gaps are known.
fn numbers_with<M: Moves>(
    alloc: Global,
    inst: &Instance,
    tables: &[M],
    gaps: Gaps,
) -> Result<Numbers, EncodeRefusal>
    requires made_for { AreMadeFor M.is_made_for inst.now tables.now }
    requires for_each { length tables.now ≡ length inst.now.trains }
    requires gaps { AreGaps inst.now gaps }
    requires walks { HasFewWalks inst.now }
    ensures ok { IfOk result (λ n. AreNumbers inst.now (tables_of M.table inst.now tables.now) n.net n.gaps n.trains.items n.behind) }
    ensures err { IfErr result (IsNumbersRefusal inst.now (tables_of M.table inst.now tables.now)) }
{
    let net = match NetworkNumbers::build(alloc, inst) {
        Ok(net) => net,
        Err(_) => return Err(EncodeRefusal::Memory),
    };
    let first = net.first_of_trains();
    if first > VARIABLES + 1 {
        return Err(EncodeRefusal::TooManyVariables);
    }
    match numbers_of(alloc, inst, tables, first) {
        Ok((trains, behind)) => Ok(Numbers {
            net,
            gaps,
            trains,
            behind,
        }),
        Err(NumberFault::TooMany) => Err(EncodeRefusal::TooManyVariables),
        Err(NumberFault::Memory) => Err(EncodeRefusal::Memory),
    }
}
