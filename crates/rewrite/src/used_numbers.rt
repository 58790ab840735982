//! The numbers that columns have among those that are used.

ghost use Rattle.std.specs.Prelude.{◌≡◌, EachIndex, IfOk, length, map, slice_index, true};
ghost use Rattle.std.specs.List.{list_all};
ghost use Rattle.rewrite.specs.PrunedColumns.{is_used, item_in, used_key, used_number, output_in};
ghost use Rattle.rewrite.specs.PrunedColumns.{uses_item};
ghost use Rattle.rewrite.specs.PrunedColumns.{uses_key, uses_output};

use crate::numbers::NewNumbers;
use scan_base::Items;
use std::alloc::{AllocError, Global};
use typed_plan::{Aggregate, Columns, JoinKey, Output};

// Which columns are used, and for each of them how many used ones stand before it.
#[derive(Drop)]
pub(crate) struct UsedNumbers<'a> {
    pub(crate) uses: &'a [bool],
    pub(crate) numbers: Vec<usize>,
    ghost all: { length numbers.items ≡ length uses.now },
    ghost counts: { EachIndex numbers.items
        (λ column. slice_index numbers.items column ≡ used_number uses.now column) },
}

impl NewNumbers for UsedNumbers<'_> {
    ghost use Rattle.rewrite.specs.PrunedColumns.{is_used, used_number};

    ghost number = { λ among column. used_number among.uses.now column };

    ghost has = { λ among column. is_used among.uses.now column };

    #[tactic(auto, using(crate::proofs::UsedColumns::used_within))]
    fn number(&self, column: usize) -> usize {
        self.numbers[column]
    }
}

impl<'a> UsedNumbers<'a> {
    // The numbers among these uses.
    pub(crate) fn of(alloc: Global, uses: &'a [bool]) -> Result<UsedNumbers<'a>, AllocError>
        ensures { IfOk result (λ among. among.uses.now ≡ uses.now) }
    {
        let mut numbers = Vec::with_capacity(alloc, uses.len())?;
        let mut before = 0;
        for used in uses {
            numbers.push(before)?;
            if *used {
                before += 1;
            }
        }
        Ok(UsedNumbers { uses, numbers })
    }

    // The new numbers of columns.
    fn columns(&self, alloc: Global, columns: &[usize]) -> Result<Items<usize>, AllocError>
        requires { list_all (is_used self.now.uses.now) columns.now ≡ true }
        ensures { IfOk result (λ made. made ≡ map (used_number self.now.uses.now) columns.now) }
    {
        let mut made = Items::new(alloc);
        for column in columns {
            made.push(self.number(*column))?;
        }
        Ok(made)
    }

    // Keys of an ON with new numbers.
    pub(crate) fn keys(&self, alloc: Global, on: &[JoinKey]) -> Result<Items<JoinKey>, AllocError>
        requires { list_all (uses_key self.now.uses.now) on.now ≡ true }
        ensures { IfOk result (λ made. made ≡ map (used_key self.now.uses.now) on.now) }
    {
        let mut made = Items::new(alloc);
        for key in on {
            made.push(self.key(key))?;
        }
        Ok(made)
    }

    fn key(&self, key: &JoinKey) -> JoinKey
        requires { uses_key self.now.uses.now key.now ≡ true }
        ensures { result ≡ used_key self.now.uses.now key.now }
    {
        let left = self.number(key.left);
        let right = self.number(key.right);
        JoinKey { left, right }
    }

    // Items of a grouped result with new numbers.
    fn items(&self, alloc: Global, items: &[Aggregate]) -> Result<Items<Aggregate>, AllocError>
        requires { list_all (uses_item self.now.uses.now) items.now ≡ true }
        ensures { IfOk result (λ made. made ≡ map (item_in self.now.uses.now) items.now) }
    {
        let mut made = Items::new(alloc);
        for item in items {
            made.push(self.item(item))?;
        }
        Ok(made)
    }

    fn item(&self, item: &Aggregate) -> Aggregate
        requires { uses_item self.now.uses.now item.now ≡ true }
        ensures { result ≡ item_in self.now.uses.now item.now }
    {
        match item {
            Aggregate::Key(place) => Aggregate::Key(*place),
            Aggregate::CountRows => Aggregate::CountRows,
            Aggregate::Count(column) => Aggregate::Count(self.number(*column)),
            Aggregate::Sum(column) => Aggregate::Sum(self.number(*column)),
        }
    }

    // A result with new numbers.
    pub(crate) fn output(&self, alloc: Global, output: &Output) -> Result<Output, AllocError>
        requires { uses_output self.now.uses.now output.now ≡ true }
        ensures { IfOk result (λ made. made ≡ output_in self.now.uses.now output.now) }
    {
        match output {
            Output::Project(columns) => match columns {
                Columns::All => Ok(Output::Project(Columns::All)),
                Columns::These(numbers) => {
                    let numbers = self.columns(alloc, numbers.as_slice())?;
                    Ok(Output::Project(Columns::These(numbers)))
                }
            },
            Output::Groups { keys, items } => {
                let keys = self.columns(alloc, keys.as_slice())?;
                let items = self.items(alloc, items.as_slice())?;
                Ok(Output::Groups { keys, items })
            }
        }
    }
}
