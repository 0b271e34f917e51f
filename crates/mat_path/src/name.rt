ghost use Rattle.std.specs.Prelude.{◌≡◌, ◌++◌, ◌∷◌, true, IfOk, OnOk};
ghost use Rattle.std.proofs.Common.{rules};
ghost use Rattle.std.specs.Cmp.{partial_order_from_own_ties};
ghost use Rattle.std.specs.Cmp.Rules.{comparing};
ghost use Rattle.std.specs.Ordering.{as_partial_cmp};
ghost use Rattle.mat_path.specs.Names.{is_name, same_name, name_cmp, joined};

use crate::memory::Memory;
use crate::path::PathRefusal;
use crate::reading;
use std::alloc::Global;
use std::cmp::Ordering;
use std::marker::Model;

/// One name of a path: 1 to 255 bytes of 0x21 to 0x7e without a slash, and neither `.` nor `..`.
#[derive(Debug, Drop)]
pub struct Name {
    bytes: Vec<u8>,
}

impl Model for Name {
    ghost use Rattle.std.specs.Prelude.{◌≡◌, ℕ, List, true};
    ghost use Rattle.mat_path.specs.Names.{is_name};

    ghost Value = { List ℕ };

    ghost view = { λ n. n.bytes.items };

    ghost invariant = { λ n. is_name n.bytes.items ≡ true };
}

impl Name {
    ghost use Rattle.std.specs.Prelude.{false, is_none};
    ghost use Rattle.std.specs.Option.{OnSome};
    ghost use Rattle.mat_path.specs.Faults.{name_refusal, refused};

    /// The bytes of the name. Takes no memory.
    pub fn bytes(&self) -> &[u8]
        ensures value { result.now ≡ self.now }
        ensures name { is_name self.now ≡ true }
    {
        self.bytes.as_slice()
    }

    /// The name that these bytes are, or the first of these that holds: `Empty`, `Long`, the fault of the lowest offset. A slash is
    /// a `BadByte` at its offset.
    pub fn read(alloc: Global, bytes: &[u8]) -> Result<Name, PathRefusal>
        ensures ok { IfOk result (λ name. name ≡ bytes.now) }
        ensures only { OnSome (refused result) (is_name bytes.now ≡ false) }
        ensures exact { refused result ≡ name_refusal bytes.now }
    {
        match reading::name_refusal(bytes) {
            Some(refusal) => Err(refusal),
            None => match named(alloc, bytes) {
                Ok(name) => Ok(name),
                Err(Memory) => Err(PathRefusal::NoMemory),
            },
        }
    }

    /// Whether these bytes are a name. Takes no memory.
    pub fn is_name(bytes: &[u8]) -> bool
        ensures { result ≡ is_name bytes.now }
    {
        Name::refusals_are_exact(bytes);
        reading::name_refusal(bytes).is_none()
    }

    /// A text is a name exactly where it has no refusal.
    pub fn refusals_are_exact(text: &[u8])
        ensures { is_name text.now ≡ is_none (name_refusal text.now) }
    {
        let _ = text;
    }

    /// The same name once more.
    pub fn copy(&self) -> Result<Name, Memory>
        ensures ok { IfOk result (λ name. name ≡ self.now) }
    {
        let bytes = Vec::from_slice(*self.bytes.allocator(), self.bytes.as_slice())?;
        Ok(Name { bytes })
    }
}

/// The name of these bytes.
pub(crate) fn named(alloc: Global, bytes: &[u8]) -> Result<Name, Memory>
    requires { is_name bytes.now ≡ true }
    ensures ok { IfOk result (λ name. name ≡ bytes.now) }
{
    let bytes = Vec::from_slice(alloc, bytes)?;
    Ok(Name { bytes })
}

/// The same names once more.
pub(crate) fn copied(alloc: Global, names: &[Name]) -> Result<Vec<Name>, Memory>
    ensures ok { IfOk result (λ copies. copies.items ≡ names.now) }
{
    let mut copies = Vec::new(alloc);
    for name in names {
        copies.push(name.copy()?)?;
    }
    Ok(copies)
}

/// The same names once more, those of one list and then those of another.
pub(crate) fn both(alloc: Global, front: &[Name], back: &[Name]) -> Result<Vec<Name>, Memory>
    ensures ok { IfOk result (λ copies. copies.items ≡ front.now ++ back.now) }
{
    let mut copies = copied(alloc, front)?;
    for name in back {
        copies.push(name.copy()?)?;
    }
    Ok(copies)
}

/// Puts a slash and a name behind a text.
fn append(text: &mut Vec<u8>, name: &Name) -> Result<(), Memory>
    ensures { OnOk result (text.new.items ≡ text.old.items ++ (47 ∷ name.now)) }
{
    text.push(b'/')?;
    text.extend_from_slice(name.bytes())?;
    Ok(())
}

/// The text of a name and those behind it.
fn joined_from(alloc: Global, first: &Name, rest: &[Name]) -> Result<Vec<u8>, Memory>
    ensures ok { IfOk result (λ text. text.items ≡ joined (first.now ∷ rest.now)) }
{
    let mut text = Vec::from_slice(alloc, first.bytes())?;
    for name in rest {
        append(&mut text, name)?;
    }
    Ok(text)
}

/// The text of these names, with a slash between each two.
pub(crate) fn joined(alloc: Global, names: &[Name]) -> Result<Vec<u8>, Memory>
    ensures ok { IfOk result (λ text. text.items ≡ joined names.now) }
{
    match names.split_first() {
        Some((first, rest)) => joined_from(alloc, first, rest),
        None => Ok(Vec::new(alloc)),
    }
}

impl PartialEq for Name {
    ghost eq = { same_name };

    ghost laws = { Prim.search (comparing, rules) };

    fn eq(&self, other: &Name) -> bool {
        self.bytes.as_slice() == other.bytes.as_slice()
    }
}

impl Eq for Name {
    ghost laws = { Prim.search (comparing, rules) };
}

impl Ord for Name {
    ghost cmp = { name_cmp };

    ghost total = { Prim.search (comparing, rules) };

    ghost matches_partial_cmp = { Prim.search (comparing, rules) };

    ghost matches_eq = { Prim.search (comparing, rules) };

    fn cmp(&self, other: &Name) -> Ordering {
        self.bytes.as_slice().cmp(other.bytes.as_slice())
    }
}

impl PartialOrd for Name {
    ghost partial_cmp = { as_partial_cmp name_cmp };

    ghost laws = { partial_order_from_own_ties (Prim.search (comparing, rules)) (Prim.search (comparing, rules)) };

    fn partial_cmp(&self, other: &Name) -> Option<Ordering> {
        Some(self.cmp(other))
    }
}
