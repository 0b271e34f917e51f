ghost use Rattle.std.specs.Prelude.{◌≡◌, [], is_ok, if◌then◌else◌, OnOk};
ghost use Rattle.stale_pick.specs.Picks.{fed, why_stays};

use crate::picked::{Picked, Spared, Why};
use mat_model::{Gone, Holding, Row};
use mat_path::{Items, Memory};
use std::alloc::Global;
use std::marker::Model;

/// A pick that is fed row by row, seen as its cutoff, the rows that go, and those that stay.
#[derive(Debug, Drop)]
pub struct Picker {
    cutoff: u64,
    gone: Vec<Gone>,
    kept: Vec<Spared>,
}

impl Model for Picker {
    ghost use Rattle.stale_pick.specs.Picks.{Picking};

    ghost Value = { Picking };

    ghost view = { λ picker. record { cutoff = picker.cutoff; gone = picker.gone.items; kept = picker.kept.items } };
}

/// Why a row stays, if it does.
fn why_stays<H: Holding>(row: &Row, holds: &H, cutoff: u64) -> Option<Why>
    ensures { result ≡ why_stays cutoff (H.holds holds.now) row.now }
{
    if !row.stands {
        return Some(Why::NotStanding);
    }
    if holds.held(&row.path) {
        return Some(Why::Held);
    }
    if row.last >= cutoff {
        return Some(Why::Used);
    }
    None
}

impl Picker {
    /// The pick of no row, at a cutoff. Takes no memory.
    pub fn new(alloc: Global, cutoff: u64) -> Picker
        ensures { result ≡ record { cutoff = cutoff; gone = []; kept = [] } }
    {
        Picker {
            cutoff,
            gone: Vec::new(alloc),
            kept: Vec::new(alloc),
        }
    }

    /// Takes one row more. For want of memory nothing changes.
    pub fn feed<H: Holding>(&mut self, row: &Row, holds: &H) -> Result<(), Memory>
        ensures { self.new ≡ (if is_ok result then fed (H.holds holds.now) row.now self.old else self.old) }
    {
        let path = row.path.copy()?;
        match why_stays(row, holds, self.cutoff) {
            None => {
                let bytes = row.tree.bytes();
                self.gone.push(Gone { path, bytes })?;
            }
            Some(why) => self.kept.push(Spared { path, why })?,
        }
        Ok(())
    }

    /// Ends the pick. Takes no memory.
    pub fn done(self) -> Picked
        ensures gone { result.gone ≡ self.gone }
        ensures kept { result.kept ≡ self.kept }
    {
        Picked {
            gone: Items::of(self.gone),
            kept: Items::of(self.kept),
        }
    }
}
