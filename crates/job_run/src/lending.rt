// The step of a make that reads the next piece of a file in the part that is lent.
ghost use Rattle.std.specs.Prelude.{◌≡◌, ◌≤◌, ◌⊎◌, ℕ, List, Option, Some, None, length, ◌+◌};
ghost use Rattle.region_port.specs.States.{loan_region, loan_tree};
ghost use Rattle.job_run.specs.CourseStages.{Leads, LendsOn, making_course, state_course};
ghost use Rattle.job_run.specs.Courses.{IsOther};
ghost use Rattle.job_run.specs.Failures.{IsDiskCall};
ghost use Rattle.job_run.specs.Pieces.{asked_for};
ghost use Rattle.job_run.specs.declared.reading.Reading.{Reading};
ghost use Rattle.job_run.specs.Stages.{IsMaking, making_cost};
ghost use Rattle.job_run.specs.States.{Continues, failure_of, region_of};
ghost use Rattle.job_run.specs.Steps.{loan_call};
ghost use Rattle.fetch_port.specs.Fetches.{Blobs};
ghost use Rattle.job_run.specs.Orders.{own_supply};
ghost use Rattle.job_run.specs.Stages.{acts_asks, own_asks};
ghost use Rattle.job_run.specs.States.{state_asks};
ghost use Rattle.job_run.specs.Steps.{FetchingFrom, state_fetching};

use crate::acts;
use crate::failure::fault;
use crate::getting::filled;
use crate::going::stop;
use crate::pieces::asked_for;
use crate::reading::{Reading, Taken};
use crate::states::{Doing, Filing, Filling, Order, Source, State};
use mat_model::{Device, Outcome};
use mat_path::Rel;
use region_port::{Got, ReadLoan, Region};

/// A make whose file is begun again, with the row's own bytes.
fn again<R: Region>(region: R, order: Order, filing: Filing) -> State<R>
    requires { (rel : List (List ℕ)) × (reading : Reading) × IsMaking (R.place region) (R.part region) order (Doing.File filing (Filling.Due (Source.Loan rel) reading)) }
    ensures region { region_of result ≡ Some region }
    ensures failure { failure_of result ≡ None }
    ensures goes { (rel : List (List ℕ)) (reading : Reading) → IsMaking (R.place region) (R.part region) order (Doing.File filing (Filling.Due (Source.Loan rel) reading)) → Continues (R.place region) order.tree order.lent (making_cost order (Doing.File filing (Filling.Due (Source.Loan rel) reading))) result }
    ensures asks { state_asks result ≤ own_asks (own_supply order.method) + acts_asks order.method order.left.items }
    ensures from { (blobs : Option Blobs) → FetchingFrom blobs (state_fetching result) }
    ensures course { (rel : List (List ℕ)) (reading : Reading) → Leads loan_call (making_course order (Doing.File filing (Filling.Due (Source.Loan rel) reading))) result }
{
    let how = acts::begin(acts::own_supply(&order.method));
    State::Making(filled(region, order, filing, how))
}

/// What a piece of the lent part leads to.
fn take_lent<R: Region>(
    region: R,
    order: Order,
    filing: Filing,
    rel: Rel,
    reading: Reading,
    piece: Vec<u8>,
) -> State<R>
    requires stands { IsMaking (R.place region) (R.part region) order (Doing.File filing (Filling.Due (Source.Loan rel) reading)) }
    requires short { length piece.items ≤ asked_for filing.digest.size reading.at }
    ensures region { region_of result ≡ Some region }
    ensures failure { failure_of result ≡ None }
    ensures goes { Continues (R.place region) order.tree order.lent (making_cost order (Doing.File filing (Filling.Due (Source.Loan rel) reading))) result }
    ensures asks { state_asks result ≤ own_asks (own_supply order.method) + acts_asks order.method order.left.items }
    ensures from { (blobs : Option Blobs) → FetchingFrom blobs (state_fetching result) }
    ensures course { Leads loan_call (making_course order (Doing.File filing (Filling.Due (Source.Loan rel) reading))) result }
    ensures kept { ((state_course result).from ≡ (making_course order (Doing.File filing (Filling.Due (Source.Loan rel) reading))).from) ⊎ IsOther filing.digest reading (Got.Bytes piece.items) }
{
    let at = reading.at;
    match reading.take(&filing.digest, piece.as_slice()) {
        Taken::More(reading) => {
            let from = Source::Loan(rel);
            let more = Some(reading);
            let how = Filling::Got {
                from,
                at,
                piece,
                more,
            };
            State::Making(filled(region, order, filing, how))
        }
        Taken::Last => {
            let from = Source::Loan(rel);
            let more = None;
            let how = Filling::Got {
                from,
                at,
                piece,
                more,
            };
            State::Making(filled(region, order, filing, how))
        }
        Taken::Wrong(_) => again(region, order, filing),
    }
}

/// Reads the next piece of a file in the part that is lent.
pub(crate) fn read<R: Region>(
    region: R,
    order: Order,
    filing: Filing,
    rel: Rel,
    reading: Reading,
    loan: &mut ReadLoan<R>,
) -> State<R>
    requires { IsMaking (R.place region) (R.part region) order (Doing.File filing (Filling.Due (Source.Loan rel) reading)) }
    ensures region { region_of result ≡ Some region }
    ensures tree { loan_tree loan.new ≡ loan_tree loan.old }
    ensures place { R.place (loan_region loan.new) ≡ R.place (loan_region loan.old) }
    ensures part { R.part (loan_region loan.new) ≡ R.part (loan_region loan.old) }
    ensures rough { R.rough (loan_region loan.new) ≡ R.rough (loan_region loan.old) }
    ensures call { IsDiskCall (R.fault_count (loan_region loan.old)) (R.fault_count (loan_region loan.new)) (R.watch (loan_region loan.old)) (R.watch (loan_region loan.new)) (failure_of result) }
    ensures goes { Continues (R.place region) order.tree order.lent (making_cost order (Doing.File filing (Filling.Due (Source.Loan rel) reading))) result }
    ensures asks { state_asks result ≤ own_asks (own_supply order.method) + acts_asks order.method order.left.items }
    ensures from { (blobs : Option Blobs) → FetchingFrom blobs (state_fetching result) }
    ensures course { Leads loan_call (making_course order (Doing.File filing (Filling.Due (Source.Loan rel) reading))) result }
    ensures lent { LendsOn (Some loan.old) (making_course order (Doing.File filing (Filling.Due (Source.Loan rel) reading))) (Some reading) result }
{
    let before = loan.faults();
    let most = asked_for(filing.digest.size, reading.at);
    match loan.read_piece(&rel, reading.at, most) {
        Got::Bytes(piece) => take_lent(region, order, filing, rel, reading, piece.into_vec()),
        Got::Absent => again(region, order, filing),
        Got::Failed => stop(region, fault(Device::Disk, before, loan.faults())),
        Got::NoMemory => stop(region, Outcome::NoMemory),
    }
}
