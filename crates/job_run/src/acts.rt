// Which act comes next, and how the bytes of a file come.
ghost use Rattle.std.specs.Prelude.{◌≡◌, ◌≤◌, ◌+◌, ℕ, List, length, take, drop, Option};
ghost use Rattle.mat_tree.specs.declared.flat.Flat.{Flat};
ghost use Rattle.job_run.specs.Begun.{Begins, BeginsFrom};
ghost use Rattle.job_run.specs.CourseStages.{acts_duties, doing_duties};
ghost use Rattle.job_run.specs.Orders.{IsLeft, acts_cost, held_bytes, origin_bytes, own_supply, supply_cost};
ghost use Rattle.write_plan.specs.Plans.{origin_supply};
ghost use Rattle.job_run.specs.Pieces.{most_bytes};
ghost use Rattle.job_run.specs.Stages.{acts_asks, doing_asks, doing_cost, filling_asks, filling_cost, supply_asks};
ghost use Rattle.job_run.specs.Steps.{FetchingFrom, doing_fetching, filling_fetching};
ghost use Rattle.fetch_port.specs.Fetches.{Blobs};
ghost use Rattle.mat_digest.specs.declared.digest.Digest.{Digest};
ghost use Rattle.write_plan.specs.declared.method.Method.{Method};

use crate::pieces::MOST_BYTES;
use crate::reading::Reading;
use crate::states::{Doing, Filing, Filling, Order, Source};
use write_plan::{Act, Method, Origin, Supply};

/// The bytes that a copied row holds.
fn origin_bytes(origin: &Origin) -> &[u8]
    ensures { result.now ≡ origin_bytes origin.now }
{
    match origin {
        Origin::Inline(bytes) => bytes.as_slice(),
        Origin::Store => b"",
    }
}

/// The bytes that a row holds; where it holds none, these are none.
pub(crate) fn held_bytes(method: &Method) -> &[u8]
    ensures { result.now ≡ held_bytes method.now }
{
    match method {
        Method::Write(bytes) => bytes.as_slice(),
        Method::Fetch => b"",
        Method::Copy { origin, .. } => origin_bytes(origin),
    }
}

/// The piece of held bytes from an offset on.
pub(crate) fn held_piece(bytes: &[u8], at: usize) -> &[u8]
    requires { at ≤ length bytes.now }
    ensures { result.now ≡ take most_bytes (drop at bytes.now) }
{
    let rest = &bytes[at..];
    if rest.len() <= MOST_BYTES as usize {
        return rest;
    }
    &rest[..MOST_BYTES as usize]
}

/// Where a copied row's own bytes come from.
fn origin_supply(origin: &Origin) -> Supply
    ensures { result ≡ origin_supply origin.now }
{
    match origin {
        Origin::Inline(_) => Supply::Held,
        Origin::Store => Supply::Store,
    }
}

/// Where a row's own bytes come from.
pub(crate) fn own_supply(method: &Method) -> Supply
    ensures { result ≡ own_supply method.now }
{
    match method {
        Method::Write(_) => Supply::Held,
        Method::Fetch => Supply::Store,
        Method::Copy { origin, .. } => origin_supply(origin),
    }
}

/// How the bytes of a file come first.
#[tactic(auto, using(crate::proofs::Given::none_given))]
pub(crate) fn begin(from: Supply) -> Filling
    ensures begins { BeginsFrom from result }
    ensures cost { (size : ℕ) → filling_cost size result ≡ supply_cost size from }
    ensures asks { (way : Method) → filling_asks way result ≡ supply_asks way from }
    ensures from { (blobs : Option Blobs) (wanted : Digest) → FetchingFrom blobs (filling_fetching wanted result) }
{
    match from {
        Supply::Empty => Filling::Held { at: 0 },
        Supply::Held => Filling::Held { at: 0 },
        Supply::Store => Filling::Due {
            from: Source::Store,
            reading: Reading::new(),
        },
        Supply::Loan(rel) => Filling::Due {
            from: Source::Loan(rel),
            reading: Reading::new(),
        },
    }
}

/// Takes the next act.
pub(crate) fn next(order: &mut Order) -> Doing
    requires { (nodes : List Flat) × IsLeft order.old nodes }
    ensures same { (order.new.tree ≡ order.old.tree) × (order.new.method ≡ order.old.method) × (order.new.lent ≡ order.old.lent) }
    ensures begins { (nodes : List Flat) → IsLeft order.old nodes → Begins nodes order.new result }
    ensures cost { doing_cost result + acts_cost order.new.left.items ≡ acts_cost order.old.left.items }
    ensures asks { (way : Method) → doing_asks way result + acts_asks way order.new.left.items ≡ acts_asks way order.old.left.items }
    ensures from { (blobs : Option Blobs) → FetchingFrom blobs (doing_fetching result) }
    ensures duties { doing_duties result (acts_duties order.new.left.items) ≡ acts_duties order.old.left.items }
{
    match order.left.pop_front() {
        None => unreachable!(),
        Some(Act::Wipe) => unreachable!(),
        Some(Act::Dir(rel)) => Doing::Dir(rel),
        Some(Act::Link(rel, target)) => Doing::Link(rel, target),
        Some(
            Act::File {
                rel,
                digest,
                exec,
                from,
            },
        ) => Doing::File(Filing { rel, digest, exec }, begin(from)),
        Some(Act::Sync) => Doing::Sync,
    }
}
