// The book once more, for a reader.
ghost use Rattle.std.specs.Prelude.{◌≡◌, ◌-◌, length, slice_get, IfOk};
ghost use Rattle.std.specs.Option.{option_map};
ghost use Rattle.row_book.specs.Stocks.{rows_of};
ghost use Rattle.mat_core.specs.Books.{book_in};
ghost use Rattle.mat_model.specs.Openings.{path_of_row};

use crate::parts::Parts;
use gate_core::Gate;
use holder_book::HolderBook;
use mat_model::{Book, Hold, Row, Ticket, Waiter};
use mat_path::{Items, Memory, Path};
use row_book::RowBook;
use std::alloc::Global;
use ticket_book::TicketBook;

// The path of the last row, if there is one.
fn last_path(rows: &[Row]) -> Option<&Path>
    ensures { option_map (λ path. path.now) result ≡ option_map path_of_row (slice_get rows.now (length rows.now - 1)) }
{
    match rows.last() {
        Some(row) => Some(&row.path),
        None => None,
    }
}

// All rows once more.
fn copy_rows(alloc: Global, rows: &RowBook) -> Result<Vec<Row>, Memory>
    ensures { IfOk result (λ copies. copies.items ≡ rows_of rows.now) }
{
    rows.is_in_order();
    let mut copies: Vec<Row> = Vec::new(alloc);
    'rows: while let Some(stock) = rows.first_behind(last_path(copies.as_slice())) {
        copies.push(stock.row.copy()?)?;
    }
    Ok(copies)
}

// All holds once more.
fn copy_holds(alloc: Global, holds: &HolderBook) -> Result<Vec<Hold>, Memory>
    ensures { IfOk result (λ copies. copies.items ≡ holds.now) }
{
    let mut copies: Vec<Hold> = Vec::new(alloc);
    'holds: while let Some((command, path)) = holds.at(copies.len() as u64) {
        let path = path.copy()?;
        copies.push(Hold { command, path })?;
    }
    Ok(copies)
}

// All tickets once more.
fn copy_tickets(alloc: Global, tickets: &TicketBook) -> Result<Vec<Ticket>, Memory>
    ensures { IfOk result (λ copies. copies.items ≡ tickets.now.all) }
{
    let mut copies: Vec<Ticket> = Vec::new(alloc);
    'tickets: while let Some(ticket) = tickets.at(copies.len() as u64) {
        copies.push(ticket.copy()?)?;
    }
    Ok(copies)
}

// All that wait once more.
fn copy_waiting(alloc: Global, gate: &Gate) -> Result<Vec<Waiter>, Memory>
    ensures { IfOk result (λ copies. copies.items ≡ gate.now.waiting) }
{
    let mut copies: Vec<Waiter> = Vec::new(alloc);
    'waiting: while let Some((command, state)) = gate.waiter(copies.len() as u64 + 1) {
        copies.push(Waiter { command, state })?;
    }
    Ok(copies)
}

impl<D, K> Parts<D, K> {
    /// The book once more.
    pub fn book(&self) -> Result<Book, Memory>
        ensures { IfOk result (λ book. book ≡ book_in self.now) }
    {
        let alloc = *self.history.allocator();
        Ok(Book {
            first: self.first,
            now: self.moment,
            state: self.gate.state(),
            live: Items::of(Vec::from_slice(alloc, self.gate.live())?),
            waiting: Items::of(copy_waiting(alloc, &self.gate)?),
            soft: Items::of(Vec::from_slice(alloc, self.gate.soft())?),
            rows: Items::of(copy_rows(alloc, &self.rows)?),
            holds: Items::of(copy_holds(alloc, &self.holds)?),
            tickets: Items::of(copy_tickets(alloc, &self.tickets)?),
        })
    }
}
