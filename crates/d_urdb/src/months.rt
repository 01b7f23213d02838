//! The lists that have an item for each month.

ghost use Rattle.std.specs.Prelude.{◌≡◌, ◌<◌, ◌≤◌, ◌*◌, ◌^◌, ◌∷◌, [], All, length, IfOk, IfSome};
ghost use Rattle.d_num.specs.Amount.{IsWithin};
ghost use Rattle.d_urdb.specs.Checks.{Checks};
ghost use Rattle.d_urdb.specs.Items.{item_number, AreItemsOf, AreNumbers};
ghost use Rattle.d_urdb.specs.Months as spec;
ghost use Rattle.d_urdb.specs.Numbers.{Reads};
ghost use Rattle.d_urdb.specs.Refusals.{each};
ghost use Rattle.d_urdb.specs.Shown.{row_of};

use crate::cause::Cause;
use crate::fault::Refused;
use crate::number::{fault_detail, read_number};
use crate::row::Record;
use d_columns::MonthList;
use d_text::{Span, split_list};

/// Where the items of a list stand: in parts of its one cell, or in twelve columns where there are no parts.
#[derive(Clone, Copy)]
pub(crate) struct Items {
    pub list: MonthList,
    pub spans: Option<[Span; 12]>,
}

impl<'a> Record<'a> {
    /// Where the items of a list stand, or why its one cell is no list of twelve items.
    pub(crate) fn items(&self, list: MonthList) -> Result<Items, Refused>
        ensures refusals { Checks (λ reader. spec.list_refusal reader (row_of self.now) list ∷ []) result }
        ensures items { IfOk result (AreItemsOf (row_of self.now) list) }
    {
        let name = list.list_name();
        let cell = self.cells.named_cell(name);
        if cell.is_empty() {
            return Ok(Items { list, spans: None });
        }
        let span = Span { from: 0, to: 0 };
        let mut spans = [span; 12];
        match split_list(cell, &mut spans) {
            Ok(()) => Ok(Items {
                list,
                spans: Some(spans),
            }),
            Err(fault) => {
                let column = self.cells.position(name);
                Err(self.refusal(Cause::Grid, column, fault.place as u64))
            }
        }
    }

    /// The text of a month's item, the month counted from 0.
    pub(crate) fn item(&self, items: &Items, month: u8) -> &[u8]
        requires month { month < 12 }
        requires items { AreItemsOf (row_of self.now) items.now.list items.now }
        ensures { Reads (λ reader. spec.item_cell reader (row_of self.now) items.now.list month) result.now }
    {
        match items.spans {
            Some(spans) => {
                let span = spans[usize::from(month)];
                &self.cells.named_cell(items.list.list_name())[span.from..span.to]
            }
            None => self.cells.named_cell(items.list.month_name(month)),
        }
    }

    /// The column that a month's item stands in.
    pub(crate) fn item_column(&self, items: &Items, month: u8) -> Option<usize>
        requires month { month < 12 }
        requires items { AreItemsOf (row_of self.now) items.now.list items.now }
        ensures value { result ≡ spec.item_column (row_of self.now) items.now.list month }
        ensures within { IfSome result (λ column. column < length (row_of self.now).header) }
    {
        match items.spans {
            Some(_) => self.cells.position(items.list.list_name()),
            None => self.cells.position(items.list.month_name(month)),
        }
    }

    /// The number of a month's item in units of 10^-18, at most `limit` whole ones in size, or why it can't be read. A blank item is 0.
    pub(crate) fn item_number(&self, items: &Items, month: u8, limit: u64) -> Result<i128, Refused>
        requires month { month < 12 }
        requires limit { limit ≤ 10 ^ 10 }
        requires items { AreItemsOf (row_of self.now) items.now.list items.now }
        ensures refusals { Checks (λ reader. spec.item_refusal reader (row_of self.now) items.now.list limit month ∷ []) result }
        ensures value { IfOk result (Reads (λ reader. item_number reader (row_of self.now) items.now.list limit month)) }
        ensures range { IfOk result (IsWithin (limit * 10 ^ 18)) }
    {
        match read_number(self.item(items, month), limit) {
            Ok(units) => Ok(units),
            Err(fault) => {
                let column = self.item_column(items, month);
                Err(self.refusal(Cause::Decimal, column, fault_detail(fault)))
            }
        }
    }

    /// The numbers of the twelve items, as `item_number` reads them, or why the first that can't be read has none.
    pub(crate) fn item_numbers(&self, items: &Items, limit: u64) -> Result<[i128; 12], Refused>
        requires limit { limit ≤ 10 ^ 10 }
        requires items { AreItemsOf (row_of self.now) items.now.list items.now }
        ensures refusals { Checks (λ reader. each 12 (λ month. spec.item_refusal reader (row_of self.now) items.now.list limit month ∷ [])) result }
        ensures value { IfOk result (AreNumbers (row_of self.now) items.now.list limit) }
        ensures range { IfOk result (All (IsWithin (limit * 10 ^ 18))) }
    {
        let mut numbers = [0; 12];
        for month in 0..12 {
            numbers[usize::from(month)] = self.item_number(items, month, limit)?;
        }
        Ok(numbers)
    }
}
