// A command asks for what is declared at a path.
ghost use Rattle.std.specs.Prelude.{◌≡◌, ℕ, true, IfErr, IfOk, Some};
ghost use Rattle.mat_model.specs.declared.requests.Asked.TheVariants as asked;
ghost use Rattle.mat_model.specs.Books.{IsBook};
ghost use Rattle.mat_model.specs.Requests.{ensure, ensure_row};
ghost use Rattle.mat_core.specs.Books.{book_in};
ghost use Rattle.mat_core.specs.Served.{Serves, leaves_book};

use crate::parts::Parts;
use mat_model::{Reply, Row};
use mat_path::Path;

impl<D, K> Parts<D, K> {
    /// A command asks for what a row has at a path, and gets a hold on it: it is ready, or will be, and then a ticket of this number
    /// is open. The row is used.
    pub fn serve_ensure(&mut self, number: u64, command: u32, path: &Path) -> Reply
        requires { IsBook number (book_in self.old) }
        ensures { Serves number (asked.Ensure command path.now) result self.old self.new }
    {
        let row = match self.asked_row(command, path) {
            Ok(row) => row,
            Err(reply) => return self.if_room(1, reply),
        };
        if let Some(limit) = self.full_grant(command, path, !row.stands) {
            return Reply::Full(limit);
        }
        let Ok(place) = row.path.copy() else {
            return Reply::NoMemory;
        };
        if !row.stands {
            let Ok(()) = self.grant_later(number, command, path, &place) else {
                return Reply::NoMemory;
            };
            return Reply::Asked(number);
        }
        let (stamp, sum) = (row.stamp, row.sum);
        let Ok(()) = self.grant(command, path, &place) else {
            return Reply::NoMemory;
        };
        Reply::Ready { stamp, sum }
    }

    // The row that covers a path; else what a command is answered that asks for it.
    fn asked_row(&self, command: u32, path: &Path) -> Result<&Row, Reply>
        ensures found { IfOk result (λ row. (number : ℕ) → ensure number command path.now (book_in self.now) ≡ ensure_row number command path.now (book_in self.now) (Some row.now)) }
        ensures other { IfErr result (λ said. (number : ℕ) → ensure number command path.now (book_in self.now) ≡ record { reply = said; book = book_in self.now }) }
        ensures leaves { IfErr result (λ said. leaves_book said ≡ true) }
    {
        if !self.gate.is_live(command) {
            return Err(Reply::NotLive);
        }
        match self.rows.cover_free(path) {
            Some(stock) => Ok(&stock.row),
            None => Err(Reply::Undeclared),
        }
    }
}
