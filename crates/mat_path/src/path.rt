ghost use Rattle.std.specs.Prelude.{◌≡◌, ◌++◌, true, not, IfOk};
ghost use Rattle.std.specs.Option.{option_map};
ghost use Rattle.std.proofs.Common.{rules};
ghost use Rattle.std.specs.Cmp.{partial_order_from_own_ties};
ghost use Rattle.std.specs.Cmp.Rules.{comparing};
ghost use Rattle.std.specs.Ordering.{as_partial_cmp};
ghost use Rattle.mat_path.specs.Order.{same_names_ties};
ghost use Rattle.mat_path.specs.Names.{joined, is_path, same_names, path_cmp, path_of, is_prefix, overlap, rest_below};

use crate::memory::Memory;
use crate::name::Name;
use crate::rel::Rel;
use crate::{name, reading};
use std::alloc::Global;
use std::cmp::Ordering;
use std::marker::Model;

/// Why a text is no path. An offset counts bytes from the start of the text.
#[derive(Clone, Copy, Debug, PartialEq, Eq)]
pub enum PathRefusal {
    /// The text has no byte.
    Empty,
    /// A byte outside 0x21 to 0x7e, or a slash that is the first byte, the last one, or behind a slash.
    BadByte(usize),
    /// A name `.` or `..` begins here.
    Dots(usize),
    /// A name of more than 255 bytes begins here.
    LongName(usize),
    /// More than 1,024 bytes, or more than 64 names.
    Long,
    /// Want of memory.
    NoMemory,
}

/// Why two lists of names don't join.
#[derive(Clone, Copy, Debug, PartialEq, Eq)]
pub enum JoinRefusal {
    /// The joined names are too many, or their text is too long.
    Long,
    /// Want of memory.
    NoMemory,
}

/// 1 to 64 names, in a text of at most 1,024 bytes, ordered as a list of names.
#[derive(Debug, Drop)]
pub struct Path {
    names: Vec<Name>,
}

impl Model for Path {
    ghost use Rattle.std.specs.Prelude.{◌≡◌, ℕ, List, true};
    ghost use Rattle.mat_path.specs.Names.{is_path};

    ghost Value = { List (List ℕ) };

    ghost view = { λ p. p.names.items };

    ghost invariant = { λ p. is_path p.names.items ≡ true };
}

impl Path {
    ghost use Rattle.std.specs.Prelude.{None, ℕ, ◌<◌, length};
    ghost use Rattle.std.specs.Option.{OnSome};
    ghost use Rattle.mat_path.specs.declared.path.PathRefusal.{PathRefusal};
    ghost use Rattle.mat_path.specs.Names.{pieces};
    ghost use Rattle.mat_path.specs.Faults.{refusal_of, refused, too_long, fault_at, first_fault};

    /// The names in order. Takes no memory.
    pub fn names(&self) -> &[Name]
        ensures value { result.now ≡ self.now }
        ensures path { is_path self.now ≡ true }
    {
        self.names.as_slice()
    }

    /// Whether the names of this path begin those of the other. Takes no memory.
    pub fn is_prefix(&self, other: &Path) -> bool
        ensures { result ≡ is_prefix self.now other.now }
    {
        other.names.as_slice().starts_with(self.names.as_slice())
    }

    /// Whether one of the two is a prefix of the other. Takes no memory.
    pub fn overlaps(&self, other: &Path) -> bool
        ensures { result ≡ overlap self.now other.now }
    {
        self.is_prefix(other) || other.is_prefix(self)
    }

    /// The names of the other path behind those of this one, where this one is its prefix. Takes no memory.
    pub fn below<'a>(&self, other: &'a Path) -> Option<&'a [Name]>
        ensures { option_map (λ rest. rest.now) result ≡ rest_below self.now other.entry.now }
    {
        if self.is_prefix(other) {
            Some(&other.names.as_slice()[self.names.len()..])
        } else {
            None
        }
    }

    /// The same path once more.
    pub fn copy(&self) -> Result<Path, Memory>
        ensures ok { IfOk result (λ path. path ≡ self.now) }
    {
        let names = name::copied(*self.names.allocator(), self.names.as_slice())?;
        Ok(Path { names })
    }

    /// The path that a text spells, or the first of these that holds: `Empty`, `Long` for more than 1,024 bytes, the fault of the
    /// lowest offset, `Long` for more than 64 names.
    pub fn read(alloc: Global, bytes: &[u8]) -> Result<Path, PathRefusal>
        ensures ok { IfOk result (λ path. path_of bytes.now ≡ Some path) }
        ensures only { OnSome (refused result) (path_of bytes.now ≡ None) }
        ensures exact { refused result ≡ refusal_of bytes.now }
    {
        let names = reading::path_names(alloc, bytes)?;
        Ok(Path { names })
    }

    /// A text is a path exactly where it has no refusal, and of its faults the one with the lowest offset is told.
    pub fn refusals_are_exact(text: &[u8])
        ensures spelled { refusal_of text.now ≡ None → path_of text.now ≡ Some (pieces text.now) }
        ensures refused { (refusal : PathRefusal) → refusal_of text.now ≡ Some refusal → path_of text.now ≡ None }
        ensures lowest { (at : ℕ) (fault : PathRefusal) → at < length text.now → fault_at text.now at ≡ Some fault → ((k : ℕ) → k < at → fault_at text.now k ≡ None) → first_fault text.now ≡ Some fault }
    {
        let _ = text;
    }

    /// The text of the path, which is read as this path again.
    pub fn write(&self) -> Result<Vec<u8>, Memory>
        ensures ok { IfOk result (λ text. text.items ≡ joined self.now) }
        ensures again { path_of (joined self.now) ≡ Some self.now }
    {
        name::joined(*self.names.allocator(), self.names.as_slice())
    }

    /// Whether the names of this path and then those of the rel are a path. Takes no memory.
    pub fn can_join(&self, rel: &Rel) -> bool
        ensures { result ≡ is_path (self.now ++ rel.now) }
    {
        reading::can_join(self.names(), rel.names())
    }

    /// The path of the names of this one and then those of the rel, or `Long` where these are no path.
    pub fn join(&self, rel: &Rel) -> Result<Path, JoinRefusal>
        ensures ok { IfOk result (λ path. path ≡ self.now ++ rel.now) }
        ensures exact { too_long result ≡ not (is_path (self.now ++ rel.now)) }
    {
        if !self.can_join(rel) {
            return Err(JoinRefusal::Long);
        }
        match name::both(*self.names.allocator(), self.names(), rel.names()) {
            Ok(names) => Ok(Path { names }),
            Err(Memory) => Err(JoinRefusal::NoMemory),
        }
    }
}

impl PartialEq for Path {
    ghost eq = { same_names };

    ghost laws = { Prim.search (comparing, rules) };

    fn eq(&self, other: &Path) -> bool {
        self.names.as_slice() == other.names.as_slice()
    }
}

impl Eq for Path {
    ghost laws = { Prim.search (comparing, rules) };
}

impl Ord for Path {
    ghost cmp = { path_cmp };

    ghost total = { Prim.search (comparing, rules) };

    ghost matches_partial_cmp = { Prim.search (comparing, rules) };

    ghost matches_eq = { same_names_ties };

    fn cmp(&self, other: &Path) -> Ordering {
        self.names.as_slice().cmp(other.names.as_slice())
    }
}

impl PartialOrd for Path {
    ghost partial_cmp = { as_partial_cmp path_cmp };

    ghost laws = { partial_order_from_own_ties (Prim.search (comparing, rules)) same_names_ties };

    fn partial_cmp(&self, other: &Path) -> Option<Ordering> {
        Some(self.cmp(other))
    }
}
