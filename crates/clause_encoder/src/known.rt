//! What the tables of all trains tell of themselves.
ghost use Rattle.std.specs.Prelude.{All};
ghost use Rattle.sweep_table.specs.Tables.{IsTable};
ghost use Rattle.clause_encoder.specs.TableLists.{tables_of, AreMadeFor, IsKnownBy};

use cell_net::Instance;
use sweep_table::Moves;

/// Each of the tables, which are made for the instance, keeps the rules of a table, and has as many items as it says. A call asks
/// each table for its length, and changes nothing; it gives its caller's proof what they keep.
pub fn know_tables<M: Moves>(inst: &Instance, tables: &[M])
    requires { AreMadeFor M.is_made_for inst.now tables.now }
    ensures known { All (IsKnownBy M.items M.table inst.now) tables.now }
    ensures rules { All (IsTable inst.now) (tables_of M.table inst.now tables.now) }
{
    for place in 0..tables.len() {
        let _count = tables[place].len();
    }
}
