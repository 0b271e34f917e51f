// A new row takes the place of those that overlap its path.
ghost use Rattle.std.specs.Prelude.{◌≡◌, ◌≤◌, ◌<◌, ◌^◌, ◌+◌, ◌*◌, filter, length, map, true, is_ok, find, if◌then◌else◌, IfErr, IfOk, Some};
ghost use Rattle.std.specs.List.{list_all};
ghost use Rattle.mat_model.specs.Tickets.{with_hold};
ghost use Rattle.model_laws.specs.TicketRules.{lost_below};
ghost use Rattle.row_book.specs.declared.stock.Stock.{Stock as TheStock};
ghost use Rattle.row_book.specs.Stocks.{held_bytes, is_clear_stock, overlaps_stock, put_stock, stock_at};
ghost use Rattle.ticket_book.specs.Asked.{is_earlier};
ghost use Rattle.mat_core.specs.Replacing.{AreRuled, IsReplaced, full_replaced, top_in};
ghost use Rattle.mat_core.specs.Served.{IsUnchanged};

use crate::falling::{Fall, add_remains};
use crate::granting::take_back;
use crate::losing::answer_lost;
use crate::parts::Parts;
use holder_book::HolderBook;
use mat_model::Limit;
use mat_path::{Memory, Path};
use row_book::{RowBook, Stock};
use ticket_book::TicketBook;

// A command gets a hold on the path of a new row, which takes the place of those that overlap it. For want of memory nothing changes.
fn place(
    holds: &mut HolderBook,
    rows: &mut RowBook,
    command: u32,
    path: &Path,
    stock: Stock,
) -> Result<Vec<Stock>, Memory>
    requires few { held_bytes (put_stock stock (filter (is_clear_stock stock.row.path) rows.old)) < 2 ^ 64 }
    ensures holds { holds.new ≡ (if is_ok result then with_hold command path.now holds.old else holds.old) }
    ensures rows { rows.new ≡ (if is_ok result then put_stock stock (filter (is_clear_stock stock.row.path) rows.old) else rows.old) }
    ensures removed { IfOk result (λ removed. removed.items ≡ filter (overlaps_stock stock.row.path) rows.old) }
{
    let new = holds.hold(command, path)?;
    match rows.declare(stock) {
        Ok(removed) => Ok(removed),
        Err(_stock) => {
            take_back(holds, new);
            Err(Memory)
        }
    }
}

// The path of the row at or above one, of those that overlap it; else the path itself.
fn top_of<'a>(removed: &'a [Stock], path: &'a Path) -> &'a Path
    ensures { result.now ≡ top_in removed.now path.now }
{
    match removed.first() {
        None => path,
        Some(stock) => {
            if stock.row.path.is_prefix(path) {
                return &stock.row.path;
            }
            path
        }
    }
}

// The open tickets on rows that were removed are answered, unless the row at a path, which took their place, covers what they ask for.
fn answer_removed(
    tickets: &mut TicketBook,
    rows: &RowBook,
    removed: &[Stock],
    path: &Path,
    number: u64,
)
    requires { list_all (is_earlier number) tickets.old.all ≡ true }
    ensures { (stock : TheStock) → find (stock_at path.now) rows.now ≡ Some stock → tickets.new.all ≡ map (lost_below (top_in removed.now path.now) stock.row number) tickets.old.all }
{
    if let Some(stock) = rows.get(path) {
        answer_lost(tickets, top_of(removed, path), &stock.row, number);
    }
}

impl<D, K> Parts<D, K> {
    // A command gets a hold on the path of a new row, which takes the place of those that overlap it. For want of memory nothing changes.
    // There is room for so many more pieces of debris then.
    pub(crate) fn replace(
        &mut self,
        number: u64,
        command: u32,
        path: &Path,
        stock: Stock,
        spare: u64,
    ) -> Result<(), Memory>
        requires rules { AreRuled number self.old }
        requires path { path.now ≡ stock.row.path }
        requires few { held_bytes (put_stock stock (filter (is_clear_stock stock.row.path) self.old.rows)) < 2 ^ 64 }
        requires spare { 2 * length self.old.jobs + length (filter (overlaps_stock stock.row.path) self.old.rows) ≤ spare }
        ensures replaced { IfOk result (λ done. IsReplaced number command stock self.old self.new) }
        ensures wants { IfErr result (λ want. IsUnchanged self.old self.new) }
    {
        let Ok(()) = self.debris.reserve(spare) else {
            return Err(Memory);
        };
        let Ok(removed) = place(&mut self.holds, &mut self.rows, command, path, stock) else {
            return Err(Memory);
        };
        answer_removed(
            &mut self.tickets,
            &self.rows,
            removed.as_slice(),
            path,
            number,
        );
        add_remains(&mut self.debris, &self.jobs, removed, false);
        Ok(())
    }

    // The limit of paths or of held bytes that would be passed where a row with so many held bytes takes the place of some.
    pub(crate) fn full_replace(&self, fall: &Fall, bytes: u64) -> Option<Limit>
        ensures { result ≡ full_replaced self.now.base.limits self.now.paths (held_bytes self.now.rows) fall.now bytes }
    {
        let paths = self.paths as u128 + fall.new as u128;
        if (self.base.limits.rows as u128) + (fall.unkept as u128) < paths {
            return Some(Limit::Rows);
        }
        let held = self.rows.held_bytes() as u128 + bytes as u128;
        if (self.base.limits.held as u128) + (fall.held as u128) < held {
            return Some(Limit::Held);
        }
        None
    }
}
