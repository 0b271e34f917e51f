// A core starts.
ghost use Rattle.std.specs.Prelude.{◌≡◌, [], IfErr, IfOk};
ghost use Rattle.restart_scan.specs.Scans.{AnswersTold};
ghost use Rattle.mat_core.specs.Begun.{AreFound, IsBack, IsStarted, opening_of};
ghost use Rattle.mat_core.specs.Cores.{AreLimits};

use crate::base::Base;
use crate::core_::Core;
use crate::parts::Parts;
use keep_port::Keeper;
use mat_model::Limits;
use region_port::Disk;
use restart_scan::{Entrance, ScanRefusal, scan};
use std::alloc::Global;
use std::snapshot::Snapshot;

/// Why a core didn't start, with its devices as they are then.
#[derive(Drop)]
pub struct Shut<D, K> {
    pub why: ScanRefusal,
    pub disk: D,
    pub keeper: K,
}

impl<D: Disk, K: Keeper> Core<D, K> {
    /// Starts over a disk that lends nothing and a state store: with the rows of the store that belong to the folder of the entrance, as rows that
    /// stand. With a check those are lost, and removed from the store, whose trees the disk hasn't. The disk has what it had.
    pub fn start(
        alloc: Global,
        mut disk: D,
        mut keeper: K,
        limits: Limits,
        entrance: Entrance,
    ) -> Result<Core<D, K>, Shut<D, K>>
        requires none_lent { D.lent disk ≡ [] }
        requires limits { AreLimits limits }
        ensures started { IfOk result (λ core. IsStarted limits entrance disk keeper core) }
        ensures answers { AnswersTold limits.rows entrance.identity (K.kept keeper) (opening_of result) }
        ensures found { IfOk result (λ core. AreFound entrance.identity entrance.check core.base.opening.value (record { content = D.content disk; lent = D.lent disk; rough = D.rough disk; faults = D.fault_count disk; watch = D.watch disk }) (record { content = D.content core.disk; lent = D.lent core.disk; rough = D.rough core.disk; faults = D.fault_count core.disk; watch = D.watch core.disk }) (record { rows = K.kept keeper; faults = K.fault_count keeper; watch = K.watch keeper }) (record { rows = K.kept core.keeper; faults = K.fault_count core.keeper; watch = K.watch core.keeper })) }
        ensures back { IfErr result (λ shut. IsBack (record { content = D.content disk; lent = D.lent disk; rough = D.rough disk; faults = D.fault_count disk; watch = D.watch disk }) (record { content = D.content shut.disk; lent = D.lent shut.disk; rough = D.rough shut.disk; faults = D.fault_count shut.disk; watch = D.watch shut.disk })) }
    {
        let told = Snapshot::of(&disk);
        let stored = Snapshot::of(&keeper);
        let opening = match scan(alloc, &mut keeper, &mut disk, limits.rows, entrance) {
            Ok(opening) => opening,
            Err(why) => return Err(Shut { why, disk, keeper }),
        };
        let base = Base {
            limits,
            identity: entrance.identity,
            check: entrance.check,
            opening: Snapshot::of(&opening),
            disk: told,
            keeper: stored,
        };
        match Parts::opened(alloc, base, disk, keeper, opening) {
            Ok(parts) => Ok(Core { parts }),
            Err((disk, keeper)) => Err(Shut {
                why: ScanRefusal::NoMemory,
                disk,
                keeper,
            }),
        }
    }
}
