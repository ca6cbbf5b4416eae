//! The table of a case.

ghost use Rattle.std.specs.Prelude.{◌<◌, ◌^◌, length, IfOk, IfErr};
ghost use Rattle.byte_words.specs.Faults.{OrOutOfMemory};
ghost use Rattle.sssom_rows.specs.Tables.{IsTableText};
ghost use Rattle.case_load.specs.Faults.{load_ran_out};
ghost use Rattle.case_load.specs.Inside.Stages.{IsTableStop};

use crate::LoadFault;
use crate::fault::of_table;
use sssom_rows::{Table, read_table};
use std::alloc::Global;

/// Reads MAP.
pub fn table_of(alloc: Global, map: &[u8], most_rows: u32) -> Result<Table, LoadFault>
    requires { length map.now < 2 ^ 31 }
    ensures read { IfOk result (IsTableText most_rows map.now) }
    ensures fewer { IfOk result (λ table. length table.rows < length map.now) }
    ensures fault { IfErr result (OrOutOfMemory load_ran_out (IsTableStop most_rows map.now)) }
{
    match read_table(alloc, map, most_rows) {
        Ok(table) => Ok(table),
        Err(fault) => Err(of_table(fault)),
    }
}
