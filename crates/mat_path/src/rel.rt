ghost use Rattle.std.specs.Prelude.{◌≡◌, true, [], IfOk};
ghost use Rattle.std.proofs.Common.{rules};
ghost use Rattle.std.specs.Cmp.{partial_order_from_own_ties};
ghost use Rattle.std.specs.Cmp.Rules.{comparing};
ghost use Rattle.std.specs.Ordering.{as_partial_cmp};
ghost use Rattle.mat_path.specs.Order.{same_names_ties};
ghost use Rattle.mat_path.specs.Names.{is_rel, same_names, path_cmp, rel_text};

use crate::memory::Memory;
use crate::name::Name;
use crate::path::{JoinRefusal, PathRefusal};
use crate::{name, reading};
use std::alloc::Global;
use std::cmp::Ordering;
use std::marker::Model;

/// A path or the empty one, which is written `.`: at most 64 names in a text of at most 1,024 bytes.
#[derive(Debug, Drop)]
pub struct Rel {
    names: Vec<Name>,
}

impl Model for Rel {
    ghost use Rattle.std.specs.Prelude.{◌≡◌, ℕ, List, true};
    ghost use Rattle.mat_path.specs.Names.{is_rel};

    ghost Value = { List (List ℕ) };

    ghost view = { λ r. r.names.items };

    ghost invariant = { λ r. is_rel r.names.items ≡ true };
}

impl Rel {
    ghost use Rattle.std.specs.Prelude.{◌++◌, not, Some, None, is_some, is_none};
    ghost use Rattle.std.specs.Option.{OnSome};
    ghost use Rattle.mat_path.specs.Names.{rel_of};
    ghost use Rattle.mat_path.specs.Faults.{rel_refusal, refused, too_long};

    /// The empty rel. Takes no memory yet.
    pub fn root(alloc: Global) -> Rel
        ensures { result ≡ [] }
    {
        Rel {
            names: Vec::new(alloc),
        }
    }

    /// The names in order. Takes no memory.
    pub fn names(&self) -> &[Name]
        ensures value { result.now ≡ self.now }
        ensures rel { is_rel self.now ≡ true }
    {
        self.names.as_slice()
    }

    /// The rel of these names.
    pub fn of(alloc: Global, names: &[Name]) -> Result<Rel, Memory>
        requires { is_rel names.now ≡ true }
        ensures ok { IfOk result (λ rel. rel ≡ names.now) }
    {
        let names = name::copied(alloc, names)?;
        Ok(Rel { names })
    }

    /// The rel that a text spells: `.` is the empty one. It is refused as a path is.
    pub fn read(alloc: Global, bytes: &[u8]) -> Result<Rel, PathRefusal>
        ensures ok { IfOk result (λ rel. rel_of bytes.now ≡ Some rel) }
        ensures only { OnSome (refused result) (rel_of bytes.now ≡ None) }
        ensures exact { refused result ≡ rel_refusal bytes.now }
    {
        if bytes == b".".as_slice() {
            return Ok(Rel::root(alloc));
        }
        let names = reading::path_names(alloc, bytes)?;
        Ok(Rel { names })
    }

    /// Whether the names of this rel and then those of the other are a rel. Takes no memory.
    pub fn can_join(&self, rel: &Rel) -> bool
        ensures { result ≡ is_rel (self.now ++ rel.now) }
    {
        reading::can_join(self.names(), rel.names())
    }

    /// The rel of the names of this one and then those of the other, or `Long` where these are no rel.
    pub fn join(&self, rel: &Rel) -> Result<Rel, JoinRefusal>
        ensures ok { IfOk result (λ joined. joined ≡ self.now ++ rel.now) }
        ensures exact { too_long result ≡ not (is_rel (self.now ++ rel.now)) }
    {
        if !self.can_join(rel) {
            return Err(JoinRefusal::Long);
        }
        match name::both(*self.names.allocator(), self.names(), rel.names()) {
            Ok(names) => Ok(Rel { names }),
            Err(Memory) => Err(JoinRefusal::NoMemory),
        }
    }

    /// The same rel once more.
    pub fn copy(&self) -> Result<Rel, Memory>
        ensures ok { IfOk result (λ rel. rel ≡ self.now) }
    {
        let names = name::copied(*self.names.allocator(), self.names.as_slice())?;
        Ok(Rel { names })
    }

    /// A text is a rel exactly where it has no refusal.
    pub fn refusals_are_exact(text: &[u8])
        ensures { is_some (rel_of text.now) ≡ is_none (rel_refusal text.now) }
    {
        let _ = text;
    }

    /// The text of the rel, `.` for the empty one. It is read as this rel again.
    pub fn write(&self) -> Result<Vec<u8>, Memory>
        ensures ok { IfOk result (λ text. text.items ≡ rel_text self.now) }
        ensures again { rel_of (rel_text self.now) ≡ Some self.now }
    {
        let alloc = *self.names.allocator();
        if self.names.is_empty() {
            return Ok(Vec::from_slice(alloc, b".")?);
        }
        name::joined(alloc, self.names.as_slice())
    }
}

impl PartialEq for Rel {
    ghost eq = { same_names };

    ghost laws = { Prim.search (comparing, rules) };

    fn eq(&self, other: &Rel) -> bool {
        self.names.as_slice() == other.names.as_slice()
    }
}

impl Eq for Rel {
    ghost laws = { Prim.search (comparing, rules) };
}

impl Ord for Rel {
    ghost cmp = { path_cmp };

    ghost total = { Prim.search (comparing, rules) };

    ghost matches_partial_cmp = { Prim.search (comparing, rules) };

    ghost matches_eq = { same_names_ties };

    fn cmp(&self, other: &Rel) -> Ordering {
        self.names.as_slice().cmp(other.names.as_slice())
    }
}

impl PartialOrd for Rel {
    ghost partial_cmp = { as_partial_cmp path_cmp };

    ghost laws = { partial_order_from_own_ties (Prim.search (comparing, rules)) same_names_ties };

    fn partial_cmp(&self, other: &Rel) -> Option<Ordering> {
        Some(self.cmp(other))
    }
}
