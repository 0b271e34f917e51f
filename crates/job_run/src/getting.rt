// The steps of a make that read the next piece of a file.
ghost use Rattle.std.specs.Prelude.{◌≡◌, ◌≤◌, ◌+◌, ℕ, List, Option, Some, None, length};
ghost use Rattle.mat_digest.specs.Digests.{digest_of};
ghost use Rattle.job_run.specs.CourseStages.{Leads, making_course};
ghost use Rattle.job_run.specs.Pieces.{asked_for, most_bytes};
ghost use Rattle.job_run.specs.Readings.{HasGiven, judged};
ghost use Rattle.job_run.specs.Stages.{IsMaking, making_cost};
ghost use Rattle.job_run.specs.States.{Continues, failure_of, region_of};
ghost use Rattle.job_run.specs.StoreCalls.{IsStoreCall};
ghost use Rattle.fetch_port.specs.Fetches.{Blobs, GivesPiece, held_at};
ghost use Rattle.job_run.specs.Stages.{acts_asks};
ghost use Rattle.job_run.specs.States.{state_asks};
ghost use Rattle.job_run.specs.Steps.{FetchingFrom, state_fetching, store_call};
ghost use Rattle.job_run.specs.StoreCalls.{IsFrom};

use crate::acts;
use crate::failure::fault;
use crate::going::stop;
use crate::pieces::asked_for;
use crate::reading::{Reading, Taken};
use crate::states::{Doing, Filing, Filling, Making, Order, Source, State};
use fetch_port::{Fetched, Fetcher};
use mat_model::{Device, Outcome};
use region_port::Region;

/// A make whose file goes on so.
pub(crate) fn filled<R: Region>(region: R, order: Order, filing: Filing, how: Filling) -> Making<R>
    ensures region { result.region ≡ region }
    ensures order { result.order ≡ order }
    ensures doing { result.doing ≡ Doing.File filing how }
{
    let doing = Doing::File(filing, how);
    Making {
        region,
        order,
        doing,
    }
}

/// What a piece that the store gave leads to.
fn take_fetched<R: Region>(
    region: R,
    order: Order,
    filing: Filing,
    reading: Reading,
    piece: Vec<u8>,
) -> State<R>
    requires stands { IsMaking (R.place region) (R.part region) order (Doing.File filing (Filling.Due Source.Store reading)) }
    requires short { length piece.items ≤ asked_for filing.digest.size reading.at }
    ensures region { region_of result ≡ Some region }
    ensures failure { (given : List ℕ) → HasGiven reading given → failure_of result ≡ judged filing.digest given piece.items }
    ensures goes { Continues (R.place region) order.tree order.lent (making_cost order (Doing.File filing (Filling.Due Source.Store reading))) result }
    ensures asks { state_asks result ≤ acts_asks order.method order.left.items }
    ensures from { (blobs : Option Blobs) → GivesPiece (held_at blobs filing.digest) reading.at (asked_for filing.digest.size reading.at) piece.items → IsFrom blobs filing.digest reading → FetchingFrom blobs (state_fetching result) }
    ensures course { Leads store_call (making_course order (Doing.File filing (Filling.Due Source.Store reading))) result }
{
    let at = reading.at;
    let from = Source::Store;
    match reading.take(&filing.digest, piece.as_slice()) {
        Taken::More(reading) => {
            let more = Some(reading);
            let how = Filling::Got {
                from,
                at,
                piece,
                more,
            };
            State::Making(filled(region, order, filing, how))
        }
        Taken::Last => {
            let more = None;
            let how = Filling::Got {
                from,
                at,
                piece,
                more,
            };
            State::Making(filled(region, order, filing, how))
        }
        Taken::Wrong(found) => {
            let wanted = filing.digest;
            stop(region, Outcome::Corrupt { wanted, found })
        }
    }
}

/// Reads the next piece of a file in the store.
pub(crate) fn fetch<R: Region, F: Fetcher>(
    region: R,
    order: Order,
    filing: Filing,
    reading: Reading,
    fetcher: &mut F,
) -> State<R>
    requires { IsMaking (R.place region) (R.part region) order (Doing.File filing (Filling.Due Source.Store reading)) }
    ensures region { region_of result ≡ Some region }
    ensures same { F.holds fetcher.new ≡ F.holds fetcher.old }
    ensures call { IsStoreCall filing.digest reading (F.holds fetcher.old) (F.fault_count fetcher.old) (F.fault_count fetcher.new) (F.fetches fetcher.old) (F.fetches fetcher.new) (F.watch fetcher.old) (F.watch fetcher.new) (failure_of result) }
    ensures goes { Continues (R.place region) order.tree order.lent (making_cost order (Doing.File filing (Filling.Due Source.Store reading))) result }
    ensures asks { state_asks result ≤ acts_asks order.method order.left.items }
    ensures from { IsFrom (F.holds fetcher.old) filing.digest reading → FetchingFrom (F.holds fetcher.old) (state_fetching result) }
    ensures course { Leads store_call (making_course order (Doing.File filing (Filling.Due Source.Store reading))) result }
{
    let before = fetcher.faults();
    let most = asked_for(filing.digest.size, reading.at);
    match fetcher.fetch_piece(&filing.digest, reading.at, most) {
        Fetched::Bytes(piece) => take_fetched(region, order, filing, reading, piece.into_vec()),
        Fetched::Absent => stop(region, Outcome::Missing(filing.digest)),
        Fetched::Failed => stop(region, fault(Device::Store, before, fetcher.faults())),
        Fetched::NoMemory => stop(region, Outcome::NoMemory),
    }
}
