// What a job is begun with is made ready.
ghost use Rattle.std.specs.Prelude.{◌≡◌, true, IfOk};
ghost use Rattle.std.specs.Option.{option_map};
ghost use Rattle.mat_model.specs.WorkState.{path_of_task};
ghost use Rattle.model_laws.specs.WorkRules.{IsReadAtPaths};
ghost use Rattle.write_plan.specs.Plans.{may_lend};
ghost use Rattle.mat_core.specs.Books.{way_in};
ghost use Rattle.mat_core.specs.Choosing.{source_in};
ghost use Rattle.mat_core.specs.Orders.{IsAimedAt, IsBytesOf, IsCarded, IsMaking, IsOrder, IsReady, card_for, source_from};

use crate::choosing::source_of;
use crate::copying::{copy_bytes, copy_origin};
use crate::parts::Parts;
use core_devices::Source;
use job_book::KeptBytes;
use mat_model::{Card, Row, Task};
use mat_path::{Memory, Path};
use mat_tree::Tree;
use row_book::{RowBook, Stock};
use row_bytes::write_row;
use std::alloc::Global;
use write_plan::{Act, Method, plan};

/// What a job makes: a tree, whose bytes come from where a method says, by the acts of its plan; or nothing.
#[derive(Drop)]
pub enum Aim {
    Nothing,
    Tree {
        tree: Tree,
        method: Method,
        acts: Vec<Act>,
    },
}

/// All that takes memory before the parts of a job are taken.
#[derive(Drop)]
pub struct Order {
    /// The card that the core keeps.
    pub card: Card,
    /// The one that the job has.
    pub own: Card,
    /// The paths of the kept rows that are to go.
    pub gone: Vec<Path>,
    pub aim: Aim,
    /// The part that is to be read, if one is.
    pub source: Option<Source>,
    /// The row that is stored when the job ends well: none for a wipe.
    pub kept: Option<KeptBytes>,
}

/// The path of a task.
pub(crate) fn task_path(task: &Task) -> &Path
    ensures { result.now ≡ path_of_task task.now }
{
    match task {
        Task::Make { path, .. } => path,
        Task::Wipe { path } => path,
    }
}

// The card of a job.
fn card_for(number: u64, task: &Task) -> Result<Card, Memory>
    ensures { IfOk result (λ card. card ≡ card_for number task.now) }
{
    let task = task.copy()?;
    Ok(Card { job: number, task })
}

// A method once more.
fn copy_method(alloc: Global, method: &Method) -> Result<Method, Memory>
    ensures { IfOk result (λ copy. copy ≡ method.now) }
{
    match method {
        Method::Write(bytes) => Ok(Method::Write(copy_bytes(alloc, bytes.as_slice())?)),
        Method::Fetch => Ok(Method::Fetch),
        Method::Copy {
            source,
            rest,
            stamp,
            origin,
        } => Ok(Method::Copy {
            source: source.copy()?,
            rest: rest.copy()?,
            stamp: *stamp,
            origin: copy_origin(alloc, origin)?,
        }),
    }
}

// The part of a row.
fn source_from(stock: &Stock) -> Result<Source, Memory>
    ensures { IfOk result (λ source. source ≡ source_from stock.now) }
{
    let path = stock.row.path.copy()?;
    let tree = stock.row.tree.copy()?;
    Ok(Source {
        path,
        stamp: stock.row.stamp,
        tree,
    })
}

// The part that a make by a method reads, if it reads one.
fn find_source(rows: &RowBook, method: &Method) -> Result<Option<Source>, Memory>
    ensures { IfOk result (λ source. source ≡ option_map source_from (source_in rows.now method.now)) }
{
    match source_of(rows, method) {
        Some(stock) => Ok(Some(source_from(stock)?)),
        None => Ok(None),
    }
}

// What a stock's row is made by.
fn aim_at(alloc: Global, stock: &Stock, lent: bool) -> Result<Aim, Memory>
    requires { may_lend stock.now.method lent stock.now.row.tree ≡ true }
    ensures { IfOk result (λ aim. IsAimedAt stock.now lent aim) }
{
    let acts = plan(alloc, &stock.row.tree, &stock.method, lent)?;
    let tree = stock.row.tree.copy()?;
    let method = copy_method(alloc, &stock.method)?;
    Ok(Aim::Tree { tree, method, acts })
}

// A row as the state store keeps it, by a core with an identity.
#[tactic(auto, using(crate::proofs::ReadyLemmas::written_readable))]
fn kept_bytes(alloc: Global, row: &Row, identity: u64) -> Result<KeptBytes, Memory>
    ensures { IfOk result (λ bytes. IsBytesOf identity row.now bytes) }
{
    let _names = row.path.names();
    let path = row.path.write()?;
    let body = write_row(alloc, &row.tree, identity)?;
    Ok(KeptBytes { path, body })
}

impl<D, K> Parts<D, K> {
    // What the make of a stock's row is begun with.
    fn order_make(
        &self,
        card: Card,
        own: Card,
        gone: Vec<Path>,
        stock: &Stock,
    ) -> Result<Order, Memory>
        requires { IsReadAtPaths (way_in stock.now.method) stock.now.row.tree }
        ensures cards { IfOk result (λ order. IsCarded card own gone.items order) }
        ensures makes { IfOk result (λ order. IsMaking self.now.rows self.now.base.identity stock.now order) }
    {
        let alloc = *self.history.allocator();
        let source = find_source(&self.rows, &stock.method)?;
        let aim = aim_at(alloc, stock, source.is_some())?;
        let kept = kept_bytes(alloc, &stock.row, self.base.identity)?;
        Ok(Order {
            card,
            own,
            gone,
            aim,
            source,
            kept: Some(kept),
        })
    }

    /// Makes ready what a task is begun with.
    pub(crate) fn order(&self, number: u64, task: &Task) -> Result<Order, Memory>
        requires { IsReady self.now task.now }
        ensures { IfOk result (λ order. IsOrder self.now number task.now order) }
    {
        let card = card_for(number, task)?;
        let own = card_for(number, task)?;
        let gone = self.kept.overlapping(task_path(task))?;
        match task {
            Task::Make { path, .. } => match self.rows.get(path) {
                Some(stock) => self.order_make(card, own, gone, stock),
                None => unreachable!(),
            },
            Task::Wipe { .. } => Ok(Order {
                card,
                own,
                gone,
                aim: Aim::Nothing,
                source: None,
                kept: None,
            }),
        }
    }
}
