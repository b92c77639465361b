// A file that was read, and its rows in turn.
ghost use Rattle.std.specs.Prelude.{◌≡◌, ◌-◌, ℕ, List, IfErr, IfOk, MatchResult, vec_len};
ghost use Rattle.table.specs.Names.{IsColumn};
ghost use Rattle.turns.specs.Numbers.{Alike, Ordered};
ghost use Rattle.desk.specs.Columns.{ColumnNamed, NotFound, Read, RefinedBy, new_name, sheet_of};
ghost use Rattle.desk.specs.Refusals.{Why};
ghost use Rattle.desk.specs.Rows.{InTurn, unnumbered};
ghost use Rattle.desk.specs.Texts.{AllRows};

use crate::refusal::Refusal;
use options::asked::Asked;
use std::alloc::{AllocError, Global};
use table::columns::contents;
use table::content::Content;
use table::names::find_column;
use table::read::Table;
use turns::layout::{Turn, turns};
use turns::numbers::refine;
use turns::order::refine_order;

// A file that was read, with the names of its columns and what is asked of it.
#[derive(Drop)]
pub(crate) struct Job<'a, 'c, 't, 'b> {
    pub heap: Global,
    pub table: &'b Table<'t>,
    pub names: &'b [&'b [u8]],
    pub asked: &'c Asked<'a>,
}

// All rows in turn, and the number of each row's order.
#[derive(Drop)]
pub(crate) struct Layout {
    pub turns: Vec<Turn>,
    pub orders: Vec<usize>,
}

impl<'a, 'c, 't, 'b> Job<'a, 'c, 't, 'b> {
    pub fn find(&self, name: &'a str) -> Result<usize, Refusal<'a>>
        ensures { MatchResult result (IsColumn self.now.names.now name.now) (NotFound self.now.names.now name.entry) }
    {
        match find_column(self.names, name.as_bytes()) {
            Ok(column) => Ok(column),
            Err(why) => Err(Refusal::Column { name, why }),
        }
    }

    // The contents of the column of a name, below the header.
    #[tactic(auto, using(crate::proofs::Reasons::why_found))]
    pub fn contents(&self, name: &'a str) -> Result<Vec<Content<'t>>, Refusal<'a>>
        requires { Read self.now }
        ensures contents { IfOk result (λ v. ColumnNamed (sheet_of self.now) name.now v.items) }
        ensures long { IfOk result (λ v. vec_len v ≡ vec_len self.now.table.now.records - 1) }
        ensures refused { IfErr result (Why (sheet_of self.now) self.now.asked.now) }
    {
        let column = self.find(name)?;
        Ok(contents(self.heap, self.table, column)?)
    }

    // One number for each row.
    fn unnumbered(&self) -> Result<Vec<usize>, AllocError>
        ensures { IfOk result (λ v. v.items ≡ unnumbered (sheet_of self.now)) }
    {
        vec![in self.heap; 0usize; self.table.records.len().saturating_sub(1)]
    }

    // The number of each row's partition, by row.
    fn partitions(&self) -> Result<Vec<usize>, Refusal<'a>>
        requires { Read self.now }
        ensures numbers { IfOk result (λ v. RefinedBy Alike (sheet_of self.now) (unnumbered (sheet_of self.now)) self.now.asked.now.partition_by.items v.items) }
        ensures refused { IfErr result (Why (sheet_of self.now) self.now.asked.now) }
    {
        let mut partitions = self.unnumbered()?;
        for name in &self.asked.partition_by {
            let column = self.contents(*name)?;
            partitions = refine(self.heap, partitions.as_slice(), column.as_slice())?;
        }
        Ok(partitions)
    }

    // The number of each row's order, by row.
    fn orders(&self) -> Result<Vec<usize>, Refusal<'a>>
        requires { Read self.now }
        ensures numbers { IfOk result (λ v. RefinedBy Ordered (sheet_of self.now) (unnumbered (sheet_of self.now)) self.now.asked.now.order_by.items v.items) }
        ensures refused { IfErr result (Why (sheet_of self.now) self.now.asked.now) }
    {
        let mut orders = self.unnumbered()?;
        for name in &self.asked.order_by {
            let column = self.contents(*name)?;
            orders = refine_order(self.heap, orders.as_slice(), column.as_slice())?;
        }
        Ok(orders)
    }

    // All rows in turn, by the columns of the partitions and of the order.
    pub fn layout(&self) -> Result<Layout, Refusal<'a>>
        requires { Read self.now }
        ensures turns { IfOk result (λ l. (partitions : List ℕ) × InTurn (sheet_of self.now) self.now.asked.now partitions l.orders.items l.turns.items) }
        ensures refused { IfErr result (Why (sheet_of self.now) self.now.asked.now) }
        ensures rows { IfOk result (λ l. AllRows self.now.table.now.records.items l.turns.items) }
    {
        let partitions = self.partitions()?;
        let orders = self.orders()?;
        let turns = turns(self.heap, partitions.as_slice(), orders.as_slice())?;
        Ok(Layout { turns, orders })
    }

    // The name of the new column.
    pub fn new_name(&self) -> &'c str
        ensures { result.now ≡ new_name self.now.asked.now }
    {
        self.asked.as_name.unwrap_or(self.asked.function.name())
    }
}
