//! A closed table.

ghost use Rattle.std.specs.Arc.{arc_value};
ghost use Rattle.closed_model.specs.ClosedTables.{IsClosedTable};

use case_file::Case;
use case_tables::Tables;
use el_logic::Numbers;
use fact_layers::Base;
use std::alloc::{AllocError, Global};
use std::marker::Model;
use std::sync::Arc;

/// A case, some of its rows, and the facts that follow from both documents and these rows, without
/// any that would leave a class empty that must have a member. It never changes. The look-up tables
/// of the case ride along, so that nobody builds them twice.
#[derive(Drop)]
pub struct ClosedTable {
    case: Arc<Case>,
    tables: Arc<Tables>,
    ranks: Numbers,
    base: Base,
}

impl Model for ClosedTable {
    ghost use Rattle.std.specs.Arc.{arc_value};
    ghost use Rattle.closed_model.specs.ClosedTables.{TableView, IsClosedTable};
    ghost use Rattle.closed_model.specs.Inside.Codes.{table_code};

    ghost Value = { TableView };

    ghost coded = { table_code };

    ghost view = { λ t. record {
      case = arc_value t.case;
      tables = arc_value t.tables;
      ranks = t.ranks;
      items = t.base;
    } };

    ghost invariant = { λ t. IsClosedTable (record {
      case = arc_value t.case;
      tables = arc_value t.tables;
      ranks = t.ranks;
      items = t.base;
    }) };
}

impl ClosedTable {
    ghost use Rattle.std.specs.Prelude.{◌≡◌, IfOk};

    /// The table of these ranks and facts.
    pub fn new(case: Arc<Case>, tables: Arc<Tables>, ranks: Numbers, base: Base) -> ClosedTable
        requires { IsClosedTable (record {
          case = arc_value case;
          tables = arc_value tables;
          ranks = ranks;
          items = base;
        }) }
        ensures { result ≡ record {
          case = arc_value case;
          tables = arc_value tables;
          ranks = ranks;
          items = base;
        } }
    {
        ClosedTable {
            case,
            tables,
            ranks,
            base,
        }
    }

    /// An equal table. The case, its look-up tables and the facts are shared.
    pub fn share(&self, alloc: Global) -> Result<ClosedTable, AllocError>
        ensures { IfOk result (λ table. table ≡ self.now) }
    {
        Ok(ClosedTable {
            case: Arc::try_clone(&self.case)?,
            tables: Arc::try_clone(&self.tables)?,
            ranks: Numbers::from_slice(alloc, self.ranks.as_slice())?,
            base: self.base.share(alloc)?,
        })
    }

    /// The case. That the facts are closed is known from the table's type; this call says so.
    pub fn case(&self) -> &Arc<Case>
        ensures case { arc_value result.now ≡ self.now.case }
        ensures closed { IsClosedTable self.now }
    {
        &self.case
    }

    /// The look-up tables of the case.
    pub fn tables(&self) -> &Arc<Tables>
        ensures { arc_value result.now ≡ self.now.tables }
    {
        &self.tables
    }

    /// The ranks of the rows whose axioms count, in ascending order.
    pub fn ranks(&self) -> &[u32]
        ensures { result.now ≡ self.now.ranks }
    {
        self.ranks.as_slice()
    }

    /// The facts, with their reasons.
    pub fn base(&self) -> &Base
        ensures { result.now ≡ self.now.items }
    {
        &self.base
    }
}
