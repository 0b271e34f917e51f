ghost use Rattle.std.specs.Prelude.{◌≡◌, true, IfOk};
ghost use Rattle.std.proofs.Common.{rules};
ghost use Rattle.std.specs.Cmp.{partial_order_from_own_ties};
ghost use Rattle.std.specs.Cmp.Rules.{comparing};
ghost use Rattle.std.specs.Ordering.{as_partial_cmp};
ghost use Rattle.mat_path.specs.Names.{is_target, same_name, name_cmp};

use crate::memory::Memory;
use crate::path::PathRefusal;
use crate::reading;
use std::alloc::Global;
use std::cmp::Ordering;
use std::marker::Model;

/// What a link leads to: 1 to 1,024 bytes of 0x21 to 0x7e, slashes and dots among them.
#[derive(Debug, Drop)]
pub struct Target {
    bytes: Vec<u8>,
}

impl Model for Target {
    ghost use Rattle.std.specs.Prelude.{◌≡◌, ℕ, List, true};
    ghost use Rattle.mat_path.specs.Names.{is_target};

    ghost Value = { List ℕ };

    ghost view = { λ t. t.bytes.items };

    ghost invariant = { λ t. is_target t.bytes.items ≡ true };
}

impl Target {
    ghost use Rattle.std.specs.Prelude.{false, is_none};
    ghost use Rattle.std.specs.Option.{OnSome};
    ghost use Rattle.mat_path.specs.Faults.{target_refusal, refused};

    /// The target that these bytes are, or the first of these that holds: `Empty`, `Long`, the first `BadByte`.
    pub fn read(alloc: Global, bytes: &[u8]) -> Result<Target, PathRefusal>
        ensures ok { IfOk result (λ target. target ≡ bytes.now) }
        ensures only { OnSome (refused result) (is_target bytes.now ≡ false) }
        ensures exact { refused result ≡ target_refusal bytes.now }
    {
        match reading::target_refusal(bytes) {
            Some(refusal) => Err(refusal),
            None => match Vec::from_slice(alloc, bytes) {
                Ok(bytes) => Ok(Target { bytes }),
                Err(_) => Err(PathRefusal::NoMemory),
            },
        }
    }

    /// Whether these bytes are a target. Takes no memory.
    pub fn is_target(bytes: &[u8]) -> bool
        ensures { result ≡ is_target bytes.now }
    {
        Target::refusals_are_exact(bytes);
        reading::target_refusal(bytes).is_none()
    }

    /// A text is a target exactly where it has no refusal.
    pub fn refusals_are_exact(text: &[u8])
        ensures { is_target text.now ≡ is_none (target_refusal text.now) }
    {
        let _ = text;
    }

    /// The bytes of the target. Takes no memory.
    pub fn bytes(&self) -> &[u8]
        ensures value { result.now ≡ self.now }
        ensures target { is_target self.now ≡ true }
    {
        self.bytes.as_slice()
    }

    /// The same target once more.
    pub fn copy(&self) -> Result<Target, Memory>
        ensures ok { IfOk result (λ target. target ≡ self.now) }
    {
        let bytes = Vec::from_slice(*self.bytes.allocator(), self.bytes.as_slice())?;
        Ok(Target { bytes })
    }
}

impl PartialEq for Target {
    ghost eq = { same_name };

    ghost laws = { Prim.search (comparing, rules) };

    fn eq(&self, other: &Target) -> bool {
        self.bytes.as_slice() == other.bytes.as_slice()
    }
}

impl Eq for Target {
    ghost laws = { Prim.search (comparing, rules) };
}

impl Ord for Target {
    ghost cmp = { name_cmp };

    ghost total = { Prim.search (comparing, rules) };

    ghost matches_partial_cmp = { Prim.search (comparing, rules) };

    ghost matches_eq = { Prim.search (comparing, rules) };

    fn cmp(&self, other: &Target) -> Ordering {
        self.bytes.as_slice().cmp(other.bytes.as_slice())
    }
}

impl PartialOrd for Target {
    ghost partial_cmp = { as_partial_cmp name_cmp };

    ghost laws = { partial_order_from_own_ties (Prim.search (comparing, rules)) (Prim.search (comparing, rules)) };

    fn partial_cmp(&self, other: &Target) -> Option<Ordering> {
        Some(self.cmp(other))
    }
}
