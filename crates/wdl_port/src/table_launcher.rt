ghost use Rattle.std.specs.Prelude.{◌≡◌, ℕ, List, IfOk};
ghost use Rattle.std.specs.BTreeMap.{get_by_text};
ghost use Rattle.std.proofs.Props.{props};
ghost use Rattle.wdl_port.specs.Table as spec;

use crate::fault::LaunchFault;
use crate::first::{answer_of, index_of};
use crate::launcher::Launcher;
use crate::listed::has_place;
use crate::table_row::TableRow;
use sqlite_items::Items;
use std::alloc::Global;
use std::collections::BTreeMap;
use wdl_value::{Answer, NoMemory, Place, Request};

/// Answers in a table: the first row of a place and attempt counts. It refuses exactly the listed
/// places and those without a row. A launch goes over the listed places, and looks its row up.
#[derive(Debug, Drop)]
pub struct TableLauncher {
    pub rows: Items<TableRow>,
    pub refused: Items<Place>,
    first: BTreeMap<String, usize>,
    ghost index: { (text : List ℕ) → get_by_text first text ≡ spec.first_at 0 rows text } by { Prim.hlevel props },
}

impl TableLauncher {
    /// The launcher of these rows, which refuses these places.
    pub fn new(
        alloc: Global,
        rows: Items<TableRow>,
        refused: Items<Place>,
    ) -> Result<TableLauncher, NoMemory>
        ensures rows { IfOk result (λ t. t.rows ≡ rows) }
        ensures refused { IfOk result (λ t. t.refused ≡ refused) }
    {
        let first = index_of(alloc, rows.as_slice())?;
        Ok(TableLauncher {
            rows,
            refused,
            first,
        })
    }
}

impl Launcher for TableLauncher {
    ghost gives = { λ s r a. spec.Gives s.rows s.refused r.place r.attempt a };

    ghost refuses = { λ s r. spec.Refuses s.rows s.refused r.place r.attempt };

    fn launch(&self, alloc: Global, request: &Request) -> Result<Answer, LaunchFault> {
        if has_place(request.place.as_slice(), self.refused.as_slice()) {
            return Err(LaunchFault::Refused);
        }
        let rows = self.rows.as_slice();
        match answer_of(alloc, &request.place, request.attempt, rows, &self.first)? {
            Some(answer) => Ok(answer.copy(alloc)?),
            None => Err(LaunchFault::Refused),
        }
    }
}
