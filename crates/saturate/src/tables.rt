//! A closed table of facts to which no more can be added.

ghost use Rattle.std.specs.Prelude.{◌≡◌, IfOk};
ghost use Rattle.std.specs.Arc.{arc_value};
ghost use Rattle.fact_layers.specs.Tops.{whole};
ghost use Rattle.closed_model.specs.ClosedTables.{IsClosedTable};
ghost use Rattle.saturate.specs.Inside.Saturated.{table_of};

use case_file::Case;
use case_tables::Tables;
use closed_model::ClosedTable;
use el_logic::Numbers;
use fact_layers::Layers;
use std::alloc::{AllocError, Global};
use std::sync::Arc;

/// The table of a case, its look-up tables, ranks and facts, which are frozen.
pub fn frozen(
    alloc: Global,
    case: &Arc<Case>,
    tables: &Arc<Tables>,
    ranks: Numbers,
    layers: Layers,
) -> Result<ClosedTable, AllocError>
    requires { IsClosedTable (table_of (arc_value case.now) (arc_value tables.now) ranks
        (whole layers)) }
    ensures { IfOk result (λ table. table
        ≡ table_of (arc_value case.now) (arc_value tables.now) ranks (whole layers)) }
{
    let case = Arc::try_clone(case)?;
    let tables = Arc::try_clone(tables)?;
    match layers.freeze(alloc) {
        Ok(base) => Ok(ClosedTable::new(case, tables, ranks, base)),
        Err(_) => Err(AllocError),
    }
}
