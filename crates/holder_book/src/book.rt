ghost use Rattle.std.specs.Prelude.{◌≡◌, ◌≤◌, ◌-◌, [], true, not, is_ok, length, take, if◌then◌else◌, IfOk};
ghost use Rattle.std.specs.List.{filter, list_any, slice_get};
ghost use Rattle.std.specs.Option.{option_map};
ghost use Rattle.mat_model.specs.Cleaning.{holds_path};
ghost use Rattle.mat_model.specs.Requests.{is_hold_of_other};
ghost use Rattle.mat_model.specs.Tickets.{is_hold, with_hold};
ghost use Rattle.holder_book.specs.Counts.{AreCounted};
ghost use Rattle.holder_book.specs.Holds.{both};

use crate::counts::{add_one, count_at, take_all, take_one};
use mat_model::{Hold, Holding};
use mat_path::{Memory, Path};
use path_trie::Trie;
use std::alloc::Global;
use std::marker::Model;

/// The holds of commands, seen as the list of them in the order in which they were given.
#[derive(Debug, Drop)]
pub struct HolderBook {
    holds: Vec<Hold>,
    counts: Trie<u64>,
}

impl Model for HolderBook {
    ghost use Rattle.std.specs.Prelude.{List};
    ghost use Rattle.mat_model.specs.declared.book.Hold.{Hold as TheHold};
    ghost use Rattle.holder_book.specs.Counts.{AreCounted};

    ghost Value = { List TheHold };

    ghost view = { λ book. book.holds.items };

    ghost invariant = { λ book. AreCounted book.holds.items book.counts };
}

impl HolderBook {
    /// The book with no hold. Takes no memory.
    pub fn new(alloc: Global) -> HolderBook
        ensures { result ≡ [] }
    {
        HolderBook {
            holds: Vec::new(alloc),
            counts: Trie::new(alloc),
        }
    }

    /// Gives a command a hold on a path: true where it is new, false where it was there, and then nothing changes. For want of memory
    /// nothing changes either.
    pub fn hold(&mut self, command: u32, path: &Path) -> Result<bool, Memory>
        ensures holds { self.new ≡ (if is_ok result then with_hold command path.now self.old else self.old) }
        ensures new { IfOk result (λ new. new ≡ not (list_any (is_hold command path.now) self.old)) }
    {
        if self.has(command, path) {
            return Ok(false);
        }
        let path = path.copy()?;
        self.holds.reserve(1)?;
        add_one(&mut self.counts, &path)?;
        self.holds.push_reserved(Hold { command, path });
        Ok(true)
    }

    /// Takes the newest hold away. Takes no memory, as the calls below.
    pub fn undo(&mut self)
        requires some { 1 ≤ length self.old }
        ensures { self.new ≡ take (length self.old - 1) self.old }
    {
        if let Some(hold) = self.holds.pop() {
            take_one(&mut self.counts, &hold.path);
        }
    }

    /// Takes all holds of a command away.
    pub fn drop_all(&mut self, command: u32)
        ensures { self.new ≡ filter (is_hold_of_other command) self.old }
    {
        take_all(&mut self.counts, self.holds.as_slice(), command);
        drop_holds(&mut self.holds, command);
    }

    /// Whether the path of some hold overlaps a path. It costs the path's names, however many holds there are.
    pub fn held(&self, path: &Path) -> bool
        ensures { result ≡ list_any (holds_path path.now) self.now }
    {
        self.counts.overlaps(path)
    }

    /// How many holds there are.
    pub fn count(&self) -> u64
        ensures { result ≡ length self.now }
    {
        self.holds.len() as u64
    }

    /// The k-th hold in the order in which they were given: its command and its path.
    pub fn at(&self, k: u64) -> Option<(u32, &Path)>
        ensures { option_map (λ seen. (seen.0, seen.1.now)) result ≡ option_map both (slice_get self.now k) }
    {
        match self.holds.get(k as usize) {
            Some(hold) => Some((hold.command, &hold.path)),
            None => None,
        }
    }

    /// Whether a command has a hold on a path. Where nobody has, it costs the path's names.
    pub fn has(&self, command: u32, path: &Path) -> bool
        ensures { result ≡ list_any (is_hold command path.now) self.now }
    {
        count_at(&self.counts, path) != 0
            && self.holds.iter().any(|hold| is_hold(command, path, hold))
    }
}

impl Holding for HolderBook {
    ghost holds = { λ book. book };

    fn held(&self, path: &Path) -> bool {
        HolderBook::held(self, path)
    }
}

// Whether a hold is this command's on this path.
fn is_hold(command: u32, path: &Path, hold: &Hold) -> bool
    ensures { result ≡ is_hold command path.now hold.now }
{
    hold.command == command && hold.path == *path
}

// The holds without those of a command.
fn drop_holds(holds: &mut Vec<Hold>, command: u32)
    ensures { holds.new.items ≡ filter (is_hold_of_other command) holds.old.items }
{
    holds.retain(|hold| is_of_other(command, hold));
}

// Whether a hold is another command's.
fn is_of_other(command: u32, hold: &Hold) -> bool
    ensures { result ≡ is_hold_of_other command hold.now }
{
    hold.command != command
}
