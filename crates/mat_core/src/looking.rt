// A command looks at what is declared.
ghost use Rattle.std.specs.Prelude.{◌≡◌, ℕ, true, IfErr, IfOk};
ghost use Rattle.std.specs.Option.{option_copied, option_map};
ghost use Rattle.mat_model.specs.declared.answers.Reply.TheVariants as reply;
ghost use Rattle.mat_model.specs.declared.requests.Asked.TheVariants as asked;
ghost use Rattle.mat_model.specs.Requests.{has, has_reply, matches};
ghost use Rattle.mat_model.specs.Tickets.{used_by};
ghost use Rattle.row_book.specs.Stocks.{row_of};
ghost use Rattle.mat_core.specs.Books.{book_in};
ghost use Rattle.mat_core.specs.Served.{Serves, leaves_book};

use crate::parts::Parts;
use mat_model::Reply;
use mat_path::Path;
use mat_tree::Sum;
use row_book::Stock;

// What a look at a path finds, by the stock that covers it.
fn seen(stock: Option<&Stock>) -> Reply
    ensures found { result ≡ has_reply (option_map row_of (option_copied stock.entry)) }
    ensures leaves { leaves_book result ≡ true }
{
    match stock {
        None => Reply::Nothing,
        Some(stock) if stock.row.stands => Reply::Stands(stock.row.stamp),
        Some(stock) => Reply::NotMade(stock.row.stamp),
    }
}

impl<D, K> Parts<D, K> {
    /// What covers a path is looked at. Takes no memory.
    pub fn serve_has(&self, command: u32, path: &Path) -> Reply
        ensures { (number : ℕ) → Serves number (asked.Has command path.now) result self.now self.now }
    {
        self.if_room(1, self.look(command, path))
    }

    // What a command finds that looks at a path.
    fn look(&self, command: u32, path: &Path) -> Reply
        ensures found { has command path.now (book_in self.now) ≡ record { reply = result; book = book_in self.now } }
        ensures leaves { leaves_book result ≡ true }
    {
        if !self.gate.is_live(command) {
            return Reply::NotLive;
        }
        seen(self.rows.cover_free(path))
    }

    /// A sum is compared with that of the row at a path, and where it is the same, the command gets a hold on the path, and the row is used.
    pub fn serve_matches(&mut self, command: u32, path: &Path, sum: Sum) -> Reply
        ensures { (number : ℕ) → Serves number (asked.Matches command path.now sum) result self.old self.new }
    {
        let stamp = match self.compare(command, path, sum) {
            Ok(stamp) => stamp,
            Err(reply) => return self.if_room(1, reply),
        };
        if let Some(limit) = self.full_grant(command, path, false) {
            return Reply::Full(limit);
        }
        let Ok(()) = self.grant(command, path, path) else {
            return Reply::NoMemory;
        };
        Reply::Same(stamp)
    }

    // The stamp of the row at a path, where it has this sum; else what the command is answered that compares them.
    fn compare(&self, command: u32, path: &Path, sum: Sum) -> Result<u64, Reply>
        ensures same { IfOk result (λ stamp. matches command path.now sum (book_in self.now) ≡ record { reply = reply.Same stamp; book = used_by command path.now (book_in self.now) }) }
        ensures other { IfErr result (λ said. matches command path.now sum (book_in self.now) ≡ record { reply = said; book = book_in self.now }) }
        ensures leaves { IfErr result (λ said. leaves_book said ≡ true) }
    {
        if !self.gate.is_live(command) {
            return Err(Reply::NotLive);
        }
        let Some(stock) = self.rows.get(path) else {
            return Err(Reply::Nothing);
        };
        if stock.row.sum != sum {
            return Err(Reply::Other);
        }
        Ok(stock.row.stamp)
    }
}
