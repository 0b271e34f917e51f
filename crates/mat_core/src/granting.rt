// A command gets a hold on a path, and with it the use of a row.
ghost use Rattle.std.specs.Prelude.{◌≡◌, ◌≤◌, ◌-◌, true, is_ok, length, take, if◌then◌else◌, IfErr, IfOk};
ghost use Rattle.std.specs.List.{list_all};
ghost use Rattle.mat_model.specs.Tickets.{is_open, with_hold};
ghost use Rattle.ticket_book.specs.Asked.{is_earlier, with_ticket};
ghost use Rattle.mat_core.specs.Grants.{IsGranted, with_open};
ghost use Rattle.mat_core.specs.Served.{IsUnchanged};

use crate::parts::Parts;
use holder_book::HolderBook;
use mat_model::Ticket;
use mat_path::{Memory, Path};
use ticket_book::TicketBook;

// The newest hold goes again, if it was new.
pub(crate) fn take_back(holds: &mut HolderBook, new: bool)
    requires { new ≡ true → 1 ≤ length holds.old }
    ensures { holds.new ≡ (if new then take (length holds.old - 1) holds.old else holds.old) }
{
    if new {
        holds.undo();
    }
}

// The hold that a ticket asks for, and the ticket behind the others. For want of memory nothing changes.
fn open(holds: &mut HolderBook, tickets: &mut TicketBook, ticket: Ticket) -> Result<(), Memory>
    requires later { list_all (is_earlier ticket.number) tickets.old.all ≡ true }
    requires open { is_open ticket ≡ true }
    ensures holds { holds.new ≡ (if is_ok result then with_hold ticket.command ticket.asked holds.old else holds.old) }
    ensures tickets { tickets.new ≡ (if is_ok result then with_ticket ticket tickets.old else tickets.old) }
{
    let new = holds.hold(ticket.command, &ticket.asked)?;
    match tickets.ask(ticket) {
        Ok(()) => Ok(()),
        Err(Memory) => {
            take_back(holds, new);
            Err(Memory)
        }
    }
}

impl<D, K> Parts<D, K> {
    /// A command gets a hold on a path, and the row at a place is used. For want of memory nothing changes.
    pub fn grant(&mut self, command: u32, path: &Path, place: &Path) -> Result<(), Memory>
        ensures granted { IfOk result (λ done. IsGranted command path.now place.now self.old.tickets.all self.old self.new) }
        ensures wants { IfErr result (λ want. IsUnchanged self.old self.new) }
    {
        match self.holds.hold(command, path) {
            Ok(_) => {
                self.rows.touch(place, self.moment);
                Ok(())
            }
            Err(Memory) => Err(Memory),
        }
    }

    /// The same, with a ticket of this number that is open on the path.
    pub fn grant_later(
        &mut self,
        number: u64,
        command: u32,
        path: &Path,
        place: &Path,
    ) -> Result<(), Memory>
        requires { list_all (is_earlier number) self.old.tickets.all ≡ true }
        ensures granted { IfOk result (λ done. IsGranted command path.now place.now (with_open number command path.now self.old.tickets.all) self.old self.new) }
        ensures wants { IfErr result (λ want. IsUnchanged self.old self.new) }
    {
        let Ok(asked) = path.copy() else {
            return Err(Memory);
        };
        let ticket = Ticket {
            number,
            command,
            asked,
            answered: None,
        };
        match open(&mut self.holds, &mut self.tickets, ticket) {
            Ok(()) => {
                self.rows.touch(place, self.moment);
                Ok(())
            }
            Err(Memory) => Err(Memory),
        }
    }
}
