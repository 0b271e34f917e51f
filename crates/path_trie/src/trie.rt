ghost use Rattle.std.specs.Prelude.{◌≡◌, ◌+◌, ◌++◌, ◌<◌, ◌≤◌, ◌^◌, ◌&&◌, [], true, is_ok, length, map, nat_eq, if◌then◌else◌, IfErr, IfOk, IfSome};
ghost use Rattle.std.specs.List.{filter, find, list_any, slice_get};
ghost use Rattle.std.specs.Option.{option_copied, option_map};
ghost use Rattle.std.specs.Result.{result_ok};
ghost use Rattle.path_trie.specs.Edits.{edited_entry};
ghost use Rattle.path_trie.specs.Roots.{kept_if, value_put};
ghost use Rattle.path_trie.specs.Entries.{ascends, both, cover_of, cut_at, is_at, is_behind, is_from, is_high, is_next_under, is_outside, is_past, is_under, overlaps, path_of, put, spliced, value_at, value_of, without, without_first};

use crate::change::{put_at, take_at};
use crate::edit::{Edit, edit_at};
use crate::entry::Entry;
use crate::exchange::exchange_at;
use crate::find::{count_at, get_at, get_below};
use crate::node::Node;
use crate::pick::value_at;
use crate::pull::pull_at;
use crate::seek::{behind_at, high_at};
use crate::steps::Steps;
use crate::swap::swap_at;
use crate::walk::{cover_at, gather_at, overlaps_at};
use mat_path::{Memory, Name, Path};
use std::alloc::Global;
use std::marker::Model;
use std::sync::ledger::Ledger;

/// A map from paths to values, seen as the list of its entries in order of path, each path once.
#[derive(Debug, Drop)]
pub struct Trie<V> {
    root: Node<Entry<V>>,
    alloc: Global,
}

impl<V> Model for Trie<V> {
    ghost use Rattle.std.specs.Prelude.{List};
    ghost use Rattle.path_trie.specs.declared.entry.Entry.{Entry as TheEntry};
    ghost use Rattle.path_trie.specs.Roots.{shown_all, IsTrie};

    ghost Value = { List (TheEntry V) };

    ghost view = { λ t. shown_all t.root };

    ghost invariant = { λ t. IsTrie t.root };
}

impl<V: Drop> Trie<V> {
    /// The map with no entry. Takes no memory.
    pub fn new(alloc: Global) -> Trie<V>
        ensures { result ≡ [] }
    {
        Trie {
            root: Node::bare(alloc),
            alloc,
        }
    }

    /// How many entries it has. In time that doesn't grow with them, and without memory.
    pub fn len(&self) -> usize
        ensures { result ≡ length self.now }
    {
        self.root.len()
    }

    /// Whether it has no entry.
    pub fn is_empty(&self) -> bool
        ensures { result ≡ nat_eq (length self.now) 0 }
    {
        self.root.len() == 0
    }

    /// Puts a value at a path, and gives the one that stood there. For want of memory it gives the value back, and nothing changes.
    pub fn insert(&mut self, path: &Path, value: V) -> Result<Option<V>, V>
        ensures list { self.new ≡ (if is_ok result then put path.now value self.old else self.old) }
        ensures old { IfOk result (λ old. old ≡ value_at path.now self.old) }
        ensures back { IfErr result (λ back. back ≡ value) }
    {
        let Ok(own) = path.copy() else {
            return Err(value);
        };
        if self.root.len() == usize::MAX {
            return Err(value);
        }
        let entry = Entry { path: own, value };
        values_put(put_at(self.alloc, &mut self.root, path.names(), entry))
    }

    /// Puts a value in place of the one at a path, and gives that. Where none stands at the path it gives the value back. Takes no
    /// memory: to change a value where it stands, put an empty one in its place for that long.
    pub fn replace(&mut self, path: &Path, value: V) -> Result<V, V>
        ensures list { self.new ≡ (if is_ok result then put path.now value self.old else self.old) }
        ensures old { result_ok result ≡ value_at path.now self.old }
        ensures back { IfErr result (λ back. back ≡ value) }
    {
        swap_at(&mut self.root, path.names(), value)
    }

    /// Takes the value at a path away, and gives it. Takes no memory.
    pub fn remove(&mut self, path: &Path) -> Option<V>
        ensures list { self.new ≡ without path.now self.old }
        ensures value { result ≡ value_at path.now self.old }
    {
        value_kept(take_at(&mut self.root, path.names()))
    }

    /// Takes the first entry, in order of path, that is at or below a path, and gives it. Takes no memory: so a caller takes all that is at
    /// and below a path, one by one.
    pub fn take_under(&mut self, path: &Path) -> Option<Entry<V>>
        ensures list { self.new ≡ without_first (is_under path.now) self.old }
        ensures entry { result ≡ find (is_under path.now) self.old }
    {
        pull_at(&mut self.root, path.names())
    }

    /// Takes all entries at and below a path away, one by one. Takes no memory.
    pub fn clear_under(&mut self, path: &Path)
        ensures { self.new ≡ filter (is_outside path.now) self.old }
    {
        'entries: while self.take_under(path).is_some() {}
    }

    /// Changes each value where it stands. Takes no memory of its own.
    pub fn edit<E: Edit<V>>(&mut self, by: &E)
        ensures { self.new ≡ map (edited_entry (E.edited by.now)) self.old }
    {
        edit_at(&mut self.root, by);
    }

    /// Exchanges what two maps have at and below a path, if both have something there, and says whether they do; else nothing changes.
    /// It costs the path's names, however much lies below it. Takes no memory.
    pub fn exchange(&mut self, other: &mut Trie<V>, path: &Path) -> bool
        requires room { length self.old + length other.old < 2 ^ 64 }
        ensures both { result ≡ (list_any (is_under path.now) self.old && list_any (is_under path.now) other.old) }
        ensures list { self.new ≡ (if result then spliced path.now other.old self.old else self.old) }
        ensures other { other.new ≡ (if result then spliced path.now self.old other.old else other.old) }
    {
        let given = count_at(&self.root, path.names());
        if given == 0 {
            return false;
        }
        let got = count_at(&other.root, path.names());
        if got == 0 {
            return false;
        }
        exchange_at(&mut self.root, &mut other.root, path.names(), given, got);
        true
    }

    /// Cuts out all that is at and below a path, gives it, and leaves a mark at the path. It costs the path's names, however much lies
    /// below it. For want of memory it gives the mark back, and nothing changes.
    pub fn cut(&mut self, path: &Path, mark: V) -> Result<Trie<V>, V>
        ensures list { self.new ≡ (if is_ok result then cut_at path.now mark self.old else self.old) }
        ensures part { IfOk result (λ part. part ≡ filter (is_under path.now) self.old) }
        ensures back { IfErr result (λ back. back ≡ mark) }
    {
        let mut part = Trie::new(self.alloc);
        if self.root.len() == usize::MAX {
            return Err(mark);
        }
        if self.count_under(path) == 0 {
            return match self.insert(path, mark) {
                Ok(_) => Ok(part),
                Err(mark) => Err(mark),
            };
        }
        match part.insert(path, mark) {
            Ok(_) => {
                self.exchange(&mut part, path);
                Ok(part)
            }
            Err(mark) => Err(mark),
        }
    }

    /// Hangs a part in at a path: what it has at and below the path takes the place of what stood there, which is a mark at least, and
    /// is dropped. It costs the path's names and what is dropped. Takes no memory.
    pub fn hang(&mut self, path: &Path, mut part: Trie<V>)
        requires there { list_any (is_under path.now) self.old ≡ true }
        requires room { length self.old + length part < 2 ^ 64 }
        ensures { self.new ≡ spliced path.now part self.old }
    {
        self.is_in_order();
        if !self.exchange(&mut part, path) {
            self.clear_under(path);
        }
    }

    /// The value at a path, if one stands there. Takes no memory.
    pub fn get(&self, path: &Path) -> Option<&V>
        ensures { option_copied result ≡ value_at path.now self.now }
    {
        match get_at(&self.root, path.names()) {
            Some(entry) => Some(&entry.value),
            None => None,
        }
    }

    /// The entry at the path of some names below another one, if one stands there. Takes no memory.
    pub fn entry_below(&self, top: &Path, names: &[Name]) -> Option<(&Path, &V)>
        ensures { option_map (λ seen. (seen.0.now, seen.1.now)) result ≡ option_map both (find (is_at (top.now ++ names.now)) self.now) }
    {
        parts(get_below(&self.root, top.names(), names))
    }

    /// The k-th entry in order of path. It costs the children of each node on the way to it. Takes no memory, as the calls below.
    pub fn at(&self, k: usize) -> Option<(&Path, &V)>
        ensures { option_map (λ seen. (seen.0.now, seen.1.now)) result ≡ option_map both (slice_get self.now k) }
    {
        parts(self.entry_at(k))
    }

    /// The first entry, in order of path, that isn't before a path: the one at it, if there is one.
    pub fn first_from(&self, path: &Path) -> Option<(&Path, &V)>
        ensures { option_map (λ seen. (seen.0.now, seen.1.now)) result ≡ option_map both (find (is_from path.now) self.now) }
    {
        parts(self.entry_from(path))
    }

    /// The first entry, in order of path, behind a path.
    pub fn first_behind(&self, path: &Path) -> Option<(&Path, &V)>
        ensures { option_map (λ seen. (seen.0.now, seen.1.now)) result ≡ option_map both (find (is_behind path.now) self.now) }
    {
        parts(self.entry_behind(path))
    }

    /// The first entry, in order of path, past all that is at and below a path: with the path of the last part that was looked at it
    /// goes on to the next one.
    pub fn first_past(&self, path: &Path) -> Option<(&Path, &V)>
        ensures { option_map (λ seen. (seen.0.now, seen.1.now)) result ≡ option_map both (find (is_past path.now) self.now) }
    {
        parts(self.entry_past(path))
    }

    /// The first entry, in order of path, at or below a path.
    pub fn first_under(&self, path: &Path) -> Option<(&Path, &V)>
        ensures { option_map (λ seen. (seen.0.now, seen.1.now)) result ≡ option_map both (find (is_under path.now) self.now) }
    {
        parts(self.entry_under(path))
    }

    /// The first entry, in order of path, at or below a path and behind another one: with the path of the last entry that was found
    /// it goes on from there.
    pub fn next_under(&self, top: &Path, last: &Path) -> Option<(&Path, &V)>
        ensures { option_map (λ seen. (seen.0.now, seen.1.now)) result ≡ option_map both (find (is_next_under top.now last.now) self.now) }
    {
        if last < top {
            return parts(self.entry_under(top));
        }
        self.is_in_order();
        parts(if_under(top, self.entry_behind(last)))
    }

    /// How many entries are at and below a path.
    pub fn count_under(&self, path: &Path) -> usize
        ensures { result ≡ length (filter (is_under path.now) self.now) }
    {
        count_at(&self.root, path.names())
    }

    /// The entry at the shortest prefix of a path that has at least so many names: with one name more than the last that was found
    /// it goes on to the next longer prefix.
    pub fn above_from(&self, path: &Path, least: usize) -> Option<(&Path, &V)>
        ensures { option_map (λ seen. (seen.0.now, seen.1.now)) result ≡ option_map both (find (is_high path.now least) self.now) }
    {
        parts(self.entry_above(path, least))
    }

    // The k-th entry.
    fn entry_at(&self, k: usize) -> Option<&Entry<V>>
        ensures { option_copied result ≡ slice_get self.now k }
    {
        value_at(&self.root, k)
    }

    // The first entry behind a path.
    fn entry_behind(&self, path: &Path) -> Option<&Entry<V>>
        ensures { option_copied result ≡ find (is_behind path.now) self.now }
    {
        behind_at(&self.root, path.names(), false)
    }

    // The first entry past all that is at and below a path.
    fn entry_past(&self, path: &Path) -> Option<&Entry<V>>
        ensures { option_copied result ≡ find (is_past path.now) self.now }
    {
        behind_at(&self.root, path.names(), true)
    }

    // The first entry that isn't before a path.
    fn entry_from(&self, path: &Path) -> Option<&Entry<V>>
        ensures { option_copied result ≡ find (is_from path.now) self.now }
    {
        match get_at(&self.root, path.names()) {
            Some(entry) => Some(entry),
            None => self.entry_behind(path),
        }
    }

    // The first entry at or below a path.
    fn entry_under(&self, path: &Path) -> Option<&Entry<V>>
        ensures { option_copied result ≡ find (is_under path.now) self.now }
    {
        self.is_in_order();
        if_under(path, self.entry_from(path))
    }

    // The entry at the shortest prefix of a path of at least so many names.
    fn entry_above(&self, path: &Path, least: usize) -> Option<&Entry<V>>
        ensures { option_copied result ≡ find (is_high path.now least) self.now }
    {
        high_at(&self.root, path.names(), least)
    }

    /// The entry at the shortest prefix of a path, the path itself included: its number of names and its value. Takes no memory.
    ///
    /// A step is one node visited: one more than the names of that prefix, and at most one more than the path has.
    pub fn cover<L: Ledger>(&self, path: &Path, steps: &mut Steps<L>) -> Option<(usize, &V)>
        ensures value { option_map (λ seen. (seen.0, seen.1.now)) result ≡ cover_of path.now self.now }
        ensures most { steps.new ≤ steps.old + length path.now + 1 }
        ensures least { steps.old + 1 ≤ steps.new }
        ensures exact { IfSome result (λ seen. steps.new ≡ steps.old + seen.0 + 1) }
    {
        match cover_at(&self.root, path.names(), 0, steps) {
            Some((names, entry)) => Some((names, &entry.value)),
            None => None,
        }
    }

    /// Whether an entry's path overlaps a path. It costs the path's names, each with a search by halves. Takes no memory.
    pub fn overlaps(&self, path: &Path) -> bool
        ensures { result ≡ list_any (overlaps path.now) self.now }
    {
        overlaps_at(&self.root, path.names())
    }

    /// The paths of the entries that overlap a path, in order of path.
    pub fn overlapping(&self, path: &Path) -> Result<Vec<Path>, Memory>
        ensures ok { IfOk result (λ paths. paths.items ≡ map path_of (filter (overlaps path.now) self.now)) }
    {
        let mut found = Vec::new(self.alloc);
        match gather_at(&self.root, path.names(), &mut found) {
            Ok(()) => Ok(found),
            Err(Memory) => Err(Memory),
        }
    }

    /// The law of the list: it stands in strict order of path, so that each path stands once. It does nothing.
    pub fn is_in_order(&self)
        ensures { ascends self.now ≡ true }
    {
        let _root = &self.root;
    }
}

// The value of an entry.
fn value_kept<V: Drop>(entry: Option<Entry<V>>) -> Option<V>
    ensures { result ≡ option_map value_of entry }
{
    match entry {
        Some(entry) => Some(entry.value),
        None => None,
    }
}

// What a put answers, by the values alone.
fn values_put<V: Drop>(answer: Result<Option<Entry<V>>, Entry<V>>) -> Result<Option<V>, V>
    ensures { result ≡ value_put answer }
{
    match answer {
        Ok(old) => Ok(value_kept(old)),
        Err(entry) => Err(entry.value),
    }
}

// An entry as a pair.
fn parts<V>(found: Option<&Entry<V>>) -> Option<(&Path, &V)>
    ensures { option_map (λ seen. (seen.0.now, seen.1.now)) result ≡ option_map both (option_copied found.entry) }
{
    match found {
        Some(entry) => Some((&entry.path, &entry.value)),
        None => None,
    }
}

// An entry, if it is at or below a path.
fn if_under<'a, V>(path: &Path, found: Option<&'a Entry<V>>) -> Option<&'a Entry<V>>
    ensures { option_copied result ≡ kept_if (is_under path.now) (option_copied found.entry) }
{
    match found {
        Some(entry) => {
            if path.is_prefix(&entry.path) {
                return Some(entry);
            }
            None
        }
        None => None,
    }
}
