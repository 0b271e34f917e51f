// A daemon over plain lists: its book, its history, the disk that it writes and the store that it reads.
ghost use Rattle.model_laws.specs.Laws.{declared_alone};
ghost use Rattle.std.specs.Prelude.{◌≡◌, ◌∷◌, ◌++◌, ◌+◌, ◌&&◌, ◌<◌, ◌≤◌, ◌^◌, [], ℕ, List, None, Some, find, length, true, false, IfOk, OnOk};
ghost use Rattle.std.specs.List.{list_all, list_any};
ghost use Rattle.std.specs.Option.{is_some, option_map};
ghost use Rattle.std.specs.BTreeMap.{get};
ghost use Rattle.std.specs.Ordering.{is_eq};
ghost use Rattle.mat_path.specs.Names.{path_cmp};
ghost use Rattle.mat_digest.specs.Digests.{digest_of};
ghost use Rattle.mat_digest.specs.declared.digest.Digest.{Digest as TheDigest};
ghost use Rattle.mat_tree.specs.Parts.{bare};
ghost use Rattle.mat_tree.specs.Trees.{IsTree, file_sum, file_tree, is_placed};
ghost use Rattle.mat_model.specs.declared.entries.Entry.{Entry as TheEntry};
ghost use Rattle.mat_model.specs.declared.entries.Event.TheVariants as event;
ghost use Rattle.mat_model.specs.declared.entries.Task.TheVariants as task;
ghost use Rattle.mat_model.specs.declared.requests.Asked.TheVariants as asked;
ghost use Rattle.mat_model.specs.declared.answers.Recorded.TheVariants as recorded;
ghost use Rattle.mat_model.specs.Declarations.{declare_tree, new_row};
ghost use Rattle.mat_model.specs.Gate.{is_live};
ghost use Rattle.mat_model.specs.OnDisk.{AreOnDisk};
ghost use Rattle.mat_model.specs.Requests.{ensure, enter, grant};
ghost use Rattle.mat_model.specs.Rows.{overlaps_row};
ghost use Rattle.mat_model.specs.Tickets.{is_open};
ghost use Rattle.mat_model.specs.Work.{end_make, is_declared};
ghost use Rattle.mat_model.specs.WorkState.{first_task};
ghost use Rattle.fetch_port.specs.Memory.{blobs_of, store_asks};
ghost use Rattle.region_port.specs.Disks.{disk_content, disk_loans, disk_rough};
ghost use Rattle.script_lang.specs.Bounds.{HasBounds, HasLineBounds, HasRequestBounds};
ghost use Rattle.buckd.specs.Making.{IsAtHand, is_write, shown_by};
ghost use Rattle.buckd.specs.Run.{entry_at, is_write_entry};

use crate::making::make_on_disk;
use crate::{rows, texts, tickets};
use fetch_port::{Fetcher, MemStore};
use mat_digest::Digest;
use mat_model::{
    Answer, Asked, Book, By, Entry, Event, Hold, Outcome, Recorded, Reply, Request, Row, Task,
    Ticket,
};
use mat_path::{Items, Memory, Path, Rel};
use mat_tree::{Flat, Kind, Sum, Tree, What};
use reapi_dir::sum_of;
use region_port::MemDisk;
use script_lang::{Item, Line, Said, push_not_yet, push_reply, push_unread};
use std::alloc::Global;
use std::collections::BTreeMap;
use tree_words::push_text;
use write_plan::Method;

/// The daemon: the parts of its book, where the bytes of each row come from, the history so far, the disk and the store.
#[derive(Drop)]
pub struct Daemon {
    state: Option<u64>,
    live: Vec<u32>,
    rows: Vec<Row>,
    methods: BTreeMap<Path, Method>,
    holds: Vec<Hold>,
    tickets: Vec<Ticket>,
    history: Vec<Entry>,
    disk: MemDisk,
    store: MemStore,
}

/// What is left of a run: its book, and the history that led to it.
#[derive(Debug, Drop)]
pub struct Run {
    pub book: Book,
    pub history: Items<Entry>,
}

/// The tree of one file.
fn file_tree(alloc: Global, digest: Digest) -> Result<Tree, Memory>
    ensures { IfOk result (λ tree. tree ≡ file_tree digest false) }
{
    let node = Flat {
        rel: Rel::root(alloc),
        what: What::File {
            digest,
            exec: false,
        },
    };
    let nodes = [node];
    // No line that is read has as many bytes as the limit of a file.
    if !Flat::are_small(&nodes) {
        return Err(Memory);
    }
    match Tree::from_flat(alloc, &nodes) {
        Ok(tree) => Ok(tree),
        Err(_) => Err(Memory),
    }
}

/// A row as it is declared, which doesn't stand yet.
fn new_row(alloc: Global, number: u64, path: &Path, tree: Tree) -> Result<Row, Memory>
    ensures row { IfOk result (λ row. row ≡ new_row number 0 path.now tree) }
    ensures tree { IsTree tree }
{
    let path = path.copy()?;
    let sum = sum_of(alloc, &tree)?;
    Ok(Row {
        path,
        tree,
        sum,
        stamp: number,
        stands: false,
        last: 0,
    })
}

/// Keeps where the bytes of the row at a path come from.
fn keep_method(
    methods: &mut BTreeMap<Path, Method>,
    path: &Path,
    method: Method,
) -> Result<(), Memory>
    ensures others { OnOk result ((q : List (List ℕ)) → is_eq (path_cmp path.now q) ≡ false → get path_cmp methods.new q ≡ get path_cmp methods.old q) }
    ensures found { OnOk result (get path_cmp methods.new path.now ≡ Some method) }
{
    let key = path.copy()?;
    methods.insert(key, method)?;
    Ok(())
}

/// Adds an event with its reply to a history.
fn enter_event(history: &mut Vec<Entry>, event: Event, reply: Reply) -> Result<(), Memory>
    ensures { OnOk result (history.new.items ≡ history.old.items ++ entry_at (length history.old.items) event reply ∷ []) }
{
    let by = By {
        caller: 0,
        number: history.len() as u64,
    };
    history.push(Entry {
        by,
        now: 0,
        event,
        reply,
    })?;
    Ok(())
}

/// Adds a request with its reply to a history.
fn enter_asked(history: &mut Vec<Entry>, asked: Asked, reply: &Reply) -> Result<(), Memory>
    ensures { OnOk result
        (history.new.items ≡ history.old.items ++ entry_at (length history.old.items) (event.Asked asked) reply.now ∷ []) }
{
    let reply = reply.copy(*history.allocator())?;
    enter_event(history, Event::Asked(asked), reply)
}

impl Daemon {
    ghost use Rattle.buckd.specs.Daemon.{book_of, point_of, scene_of, task_for, Makes, Serves, Steps, Tells};
    ghost use Rattle.buckd.specs.Following.{IsFollowingAt, IsFollowingRun};
    ghost use Rattle.buckd.specs.Run.{acts_of, asked_of, declared_tree, drain, idle, is_not_yet, made, make_first, start, start_point, tell, tell_item};
    ghost use Rattle.script_lang.specs.declared.items.Item.TheVariants as item;
    ghost use Rattle.buckd.specs.Sound.{kept_by, AreSynced, IsKept, IsKeptWith, IsPast, IsReady, IsSound, KeepsBook, KeepsDisk, KeepsRows};

    /// A daemon over an empty disk and an empty store, told by its parts.
    fn empty(alloc: Global) -> Daemon
        ensures point { point_of result ≡ start_point }
        ensures blobs { (digest : TheDigest) → blobs_of result.store digest ≡ None }
        ensures asks { store_asks result.store ≡ 0 }
        ensures content { disk_content result.disk ≡ bare }
        ensures ready { IsReady result }
    {
        Daemon {
            state: None,
            live: Vec::new(alloc),
            rows: Vec::new(alloc),
            methods: BTreeMap::new(alloc),
            holds: Vec::new(alloc),
            tickets: Vec::new(alloc),
            history: Vec::new(alloc),
            disk: MemDisk::new(alloc),
            store: MemStore::new(alloc),
        }
    }

    /// A daemon over an empty disk and an empty store, at the start of a history.
    pub fn new(alloc: Global) -> Daemon
        ensures start { scene_of result ≡ start }
        ensures sound { IsSound result }
    {
        Daemon::empty(alloc)
    }

    /// What is left of the daemon.
    fn into_run(self, alloc: Global) -> (Run, MemDisk)
        requires { IsReady self }
        ensures book { result.0.book ≡ (point_of self).book }
        ensures history { result.0.history ≡ (point_of self).history }
        ensures held { AreOnDisk (disk_content result.1) result.0.book.rows }
        ensures synced { AreSynced (disk_rough result.1) result.0.book.rows }
        ensures free { disk_loans result.1 ≡ [] }
        ensures shown { shown_by (disk_content result.1) ≡ (scene_of self).disk }
    {
        let Daemon {
            state,
            live,
            rows,
            methods: _,
            holds,
            tickets,
            history,
            disk,
            store: _,
        } = self;
        let book = Book {
            first: 0,
            now: 0,
            state,
            live: Items::of(live),
            waiting: Items::of(Vec::new(alloc)),
            soft: Items::of(Vec::new(alloc)),
            rows: Items::of(rows),
            holds: Items::of(holds),
            tickets: Items::of(tickets),
        };
        let history = Items::of(history);
        (Run { book, history }, disk)
    }

    /// What is left of the daemon: its run, and the disk that holds what the book says stands.
    pub fn into_parts(self, alloc: Global) -> (Run, MemDisk)
        requires { IsSound self }
        ensures book { result.0.book ≡ (point_of self).book }
        ensures history { result.0.history ≡ (point_of self).history }
        ensures held { AreOnDisk (disk_content result.1) result.0.book.rows }
        ensures synced { AreSynced (disk_rough result.1) result.0.book.rows }
        ensures free { disk_loans result.1 ≡ [] }
        ensures shown { shown_by (disk_content result.1) ≡ (scene_of self).disk }
        ensures follows { IsFollowingRun result.0 }
    {
        self.into_run(alloc)
    }

    /// The number of the next entry.
    fn number(&self) -> u64
        ensures { result ≡ length self.now.history.items }
    {
        self.history.len() as u64
    }

    /// Whether a command is live.
    fn is_live(&self, command: u32) -> bool
        ensures { result ≡ is_live command (book_of self.now) }
    {
        self.live.iter().any(|live| *live == command)
    }

    /// Whether a request isn't served yet.
    fn is_not_yet(&self, request: &Request) -> bool
        ensures { result ≡ is_not_yet request.now (book_of self.now) }
    {
        match request {
            Request::Enter { soft, refuse, .. } => *soft || (*refuse || !self.live.is_empty()),
            Request::Write { command, path, .. } => {
                self.is_live(*command) && rows::any_overlaps(self.rows.as_slice(), path)
            }
            Request::Ensure { .. } => false,
            Request::Leave { .. } => true,
            Request::Declare { command, path, .. } => {
                self.is_live(*command) && rows::any_overlaps(self.rows.as_slice(), path)
            }
            Request::Copy { .. } => true,
            Request::Matches { .. } => true,
            Request::Has { .. } => true,
            Request::Invalidate { .. } => true,
            Request::Clean { .. } => true,
            Request::Flush => true,
        }
    }

    /// A command comes that isn't soft and doesn't refuse to wait, where nobody is live.
    fn enter(&mut self, command: u32, state: u64) -> Result<Reply, Memory>
        requires alone { length self.old.live.items ≡ 0 }
        requires kept { IsKept self.old }
        ensures served { IfOk result (λ reply. Serves
            (enter (length self.old.history.items) command state false false (book_of self.old)) self.old self.new reply) }
        ensures kept { OnOk result (IsKept self.new) }
        ensures tickets { self.new.tickets ≡ self.old.tickets }
    {
        self.live.push(command)?;
        self.state = Some(state);
        Ok(Reply::Entered)
    }

    /// Declares a tree at a path that no row overlaps.
    fn declare_clear(
        &mut self,
        command: u32,
        path: &Path,
        tree: Tree,
        method: Method,
    ) -> Result<Reply, Memory>
        requires clear { list_any (overlaps_row path.now) self.old.rows.items ≡ false }
        requires kept { IsKept self.old }
        requires places { list_all (is_placed path.now) tree ≡ true }
        requires bytes { IsAtHand method tree }
        ensures served { IfOk result (λ reply. Serves
            (declared_alone (length self.old.history.items) command path.now tree (book_of self.old)) self.old self.new reply) }
        ensures kept { OnOk result ((entry : TheEntry) → is_write_entry entry ≡ is_write method → IsKeptWith (self.old.history.items ++ entry ∷ []) self.new) }
        ensures tickets { self.new.tickets ≡ self.old.tickets }
    {
        let number = self.number();
        let row = new_row(*self.history.allocator(), number, path, tree)?;
        rows::put_row(&mut self.rows, row)?;
        tickets::hold(&mut self.holds, command, path)?;
        keep_method(&mut self.methods, path, method)?;
        Ok(Reply::Declared(number))
    }

    /// Declares a tree, at a path that no row overlaps where the command is live.
    fn declare(
        &mut self,
        command: u32,
        path: &Path,
        tree: Tree,
        method: Method,
    ) -> Result<Reply, Memory>
        requires clear { (is_live command (book_of self.old) && list_any (overlaps_row path.now) self.old.rows.items) ≡ false }
        requires kept { IsKept self.old }
        requires places { list_all (is_placed path.now) tree ≡ true }
        requires bytes { IsAtHand method tree }
        ensures served { IfOk result (λ reply. Serves
            (declare_tree (length self.old.history.items) command path.now tree (book_of self.old)) self.old self.new reply) }
        ensures kept { OnOk result ((entry : TheEntry) → is_write_entry entry ≡ is_write method → IsKeptWith (self.old.history.items ++ entry ∷ []) self.new) }
        ensures tickets { self.new.tickets ≡ self.old.tickets }
    {
        if !self.is_live(command) {
            return Ok(Reply::NotLive);
        }
        self.declare_clear(command, path, tree, method)
    }

    /// Answers for a row that covers the path: it is ready, or a ticket is opened.
    fn grant(
        &mut self,
        command: u32,
        path: &Path,
        stamp: u64,
        sum: Sum,
        stands: bool,
    ) -> Result<Reply, Memory>
        ensures served { IfOk result (λ reply. Serves
            (grant (length self.old.history.items) command path.now stamp sum stands (book_of self.old)) self.old self.new reply) }
        ensures same { KeepsRows self.old self.new }
        ensures past { (number : ℕ) → IsPast number self.old → OnOk result (IsPast number self.new) }
    {
        tickets::hold(&mut self.holds, command, path)?;
        if stands {
            return Ok(Reply::Ready { stamp, sum });
        }
        let number = self.number();
        let asked = path.copy()?;
        self.tickets.push(Ticket {
            number,
            command,
            asked,
            answered: None,
        })?;
        Ok(Reply::Asked(number))
    }

    /// Asks for what covers a path.
    fn ensure(&mut self, command: u32, path: &Path) -> Result<Reply, Memory>
        requires { IsKept self.old }
        ensures served { IfOk result (λ reply.
            Serves (ensure (length self.old.history.items) command path.now (book_of self.old)) self.old self.new reply) }
        ensures kept { OnOk result (IsKept self.new) }
        ensures past { (number : ℕ) → IsPast number self.old → OnOk result (IsPast number self.new) }
    {
        if !self.is_live(command) {
            return Ok(Reply::NotLive);
        }
        match rows::cover(self.rows.as_slice(), path) {
            Some(row) => {
                let (stamp, sum, stands) = (row.stamp, row.sum, row.stands);
                let at = row.path.copy()?;
                rows::note_use(&mut self.rows, &at, 0);
                self.grant(command, path, stamp, sum, stands)
            }
            None => Ok(Reply::Undeclared),
        }
    }

    /// Serves a write and enters it into the history.
    fn serve_write(&mut self, command: u32, path: Path, bytes: Items<u8>) -> Result<Reply, Memory>
        requires clear { (is_live command (book_of self.old) && list_any (overlaps_row path) self.old.rows.items) ≡ false }
        requires kept { IsKept self.old }
        ensures served { IfOk result (λ reply.
            Steps (asked.Write command path (file_sum (digest_of bytes) false)) self.old self.new reply) }
        ensures kept { OnOk result (IsKept self.new) }
        ensures past { (number : ℕ) → IsPast number self.old → OnOk result (IsPast number self.new) }
    {
        let digest = Digest::of(bytes.as_slice());
        let tree = file_tree(*self.history.allocator(), digest)?;
        let reply = self.declare(command, &path, tree, Method::Write(bytes))?;
        let sum = Sum {
            kind: Kind::File,
            digest,
        };
        let asked = Asked::Write { command, path, sum };
        enter_asked(&mut self.history, asked, &reply)?;
        Ok(reply)
    }

    /// Serves a declaration and enters it into the history.
    fn serve_declare(&mut self, command: u32, path: Path, tree: Tree) -> Result<Reply, Memory>
        requires clear { (is_live command (book_of self.old) && list_any (overlaps_row path) self.old.rows.items) ≡ false }
        requires kept { IsKept self.old }
        requires places { list_all (is_placed path) tree ≡ true }
        ensures served { IfOk result (λ reply. Steps (asked.Declare command path tree) self.old self.new reply) }
        ensures kept { OnOk result (IsKept self.new) }
        ensures past { (number : ℕ) → IsPast number self.old → OnOk result (IsPast number self.new) }
    {
        let copy = tree.copy()?;
        let reply = self.declare(command, &path, copy, Method::Fetch)?;
        let asked = Asked::Declare {
            command,
            path,
            tree,
        };
        enter_asked(&mut self.history, asked, &reply)?;
        Ok(reply)
    }

    /// Serves a request and enters it into the history.
    fn serve(&mut self, request: Request) -> Result<Reply, Memory>
        requires served { is_not_yet request (book_of self.old) ≡ false }
        requires bounds { HasRequestBounds request }
        requires kept { IsKept self.old }
        ensures served { IfOk result (λ reply. Steps (asked_of request) self.old self.new reply) }
        ensures kept { OnOk result (IsKept self.new) }
        ensures past { (number : ℕ) → IsPast number self.old → OnOk result (IsPast number self.new) }
    {
        match request {
            Request::Enter {
                command,
                state,
                soft,
                refuse,
            } => {
                let reply = self.enter(command, state)?;
                let asked = Asked::Enter {
                    command,
                    state,
                    soft,
                    refuse,
                };
                enter_asked(&mut self.history, asked, &reply)?;
                Ok(reply)
            }
            Request::Write {
                command,
                path,
                bytes,
            } => self.serve_write(command, path, bytes),
            Request::Ensure { command, path } => {
                let reply = self.ensure(command, &path)?;
                let asked = Asked::Ensure { command, path };
                enter_asked(&mut self.history, asked, &reply)?;
                Ok(reply)
            }
            Request::Declare {
                command,
                path,
                tree,
            } => self.serve_declare(command, path, tree),
            Request::Leave { .. } => unreachable!(),
            Request::Copy { .. } => unreachable!(),
            Request::Matches { .. } => unreachable!(),
            Request::Has { .. } => unreachable!(),
            Request::Invalidate { .. } => unreachable!(),
            Request::Clean { .. } => unreachable!(),
            Request::Flush => unreachable!(),
        }
    }

    /// The path and the stamp of the row that is made first.
    fn first_make(&self) -> Result<Option<(Path, u64)>, Memory>
        ensures { IfOk result (λ make. option_map task_for make ≡ first_task idle (book_of self.now)) }
    {
        match tickets::first_row(self.rows.as_slice(), self.tickets.as_slice()) {
            Some(row) => {
                let path = row.path.copy()?;
                Ok(Some((path, row.stamp)))
            }
            None => Ok(None),
        }
    }

    /// Makes the disk have the tree of the row that was declared at a path under a stamp, unless a file has no right bytes.
    fn make_part(&mut self, path: &Path, stamp: u64) -> Result<Outcome, Memory>
        requires found { is_some (find (is_declared path.now stamp) self.old.rows.items) ≡ true }
        requires kept { IsKept self.old }
        ensures made { IfOk result (λ outcome. Makes path.now (acts_of (task.Make path.now stamp) (point_of self.old))
            (declared_tree path.now stamp self.old.rows.items) self.old self.new outcome) }
        ensures free { disk_loans self.new.disk ≡ [] }
        ensures same { KeepsBook self.old self.new }
        ensures blobs { blobs_of self.new.store ≡ blobs_of self.old.store }
    {
        let alloc = *self.history.allocator();
        match rows::declared(self.rows.as_slice(), path, stamp) {
            Some(row) => match self.methods.get(path) {
                Some(method) => make_on_disk(
                    alloc,
                    &mut self.disk,
                    &mut self.store,
                    path,
                    &row.tree,
                    method,
                ),
                None => unreachable!(),
            },
            None => unreachable!(),
        }
    }

    /// The end of a make: its row stands if it was made, and the tickets that are open on it are answered.
    fn end_make(&mut self, path: &Path, stamp: u64, outcome: Outcome) -> Reply
        ensures served { Serves
            (end_make (length self.old.history.items) path.now outcome recorded.Nothing (book_of self.old) (find (is_declared path.now stamp) self.old.rows.items))
            self.old self.new result }
        ensures same { KeepsDisk self.old self.new }
    {
        let number = self.number();
        match rows::declared(self.rows.as_slice(), path, stamp) {
            Some(row) => {
                tickets::answer_outcome(self.tickets.as_mut_slice(), row, number, outcome);
            }
            None => return Reply::Stale,
        }
        if outcome == Outcome::Made {
            rows::stand(self.rows.as_mut_slice(), path);
        }
        Reply::Fresh(Recorded::Nothing)
    }

    /// Makes the row that comes first.
    fn make(&mut self, path: Path, stamp: u64) -> Result<(), Memory>
        requires first { first_task idle (book_of self.old) ≡ Some (task.Make path stamp) }
        requires sound { IsReady self.old }
        ensures scene { OnOk result (scene_of self.new ≡ made (task.Make path stamp) (scene_of self.old)) }
        ensures sound { OnOk result (IsReady self.new) }
    {
        let job = self.number();
        let task = Task::Make {
            path: path.copy()?,
            stamp,
        };
        enter_event(&mut self.history, Event::Begin(task), Reply::Started)?;
        let outcome = self.make_part(&path, stamp)?;
        let reply = self.end_make(&path, stamp, outcome);
        enter_event(&mut self.history, Event::Done { job, outcome }, reply)
    }

    /// Makes the row of the lowest open ticket, if there is one, and says whether there was.
    fn make_first(&mut self) -> Result<bool, Memory>
        requires { IsReady self.old }
        ensures scene { OnOk result (scene_of self.new ≡ make_first (scene_of self.old)) }
        ensures none { IfOk result (λ more. more ≡ false → first_task idle (book_of self.old) ≡ None) }
        ensures sound { OnOk result (IsReady self.new) }
    {
        match self.first_make()? {
            Some((path, stamp)) => {
                self.make(path, stamp)?;
                Ok(true)
            }
            None => Ok(false),
        }
    }

    /// Makes each row that has an open ticket, the one with the lowest ticket first, until no ticket is open.
    fn drain(&mut self) -> Result<(), Memory>
        requires { IsReady self.old }
        ensures scene { OnOk result (scene_of self.new ≡ drain (scene_of self.old)) }
        ensures sound { OnOk result (IsReady self.new) }
        ensures drained { OnOk result (IsFollowingAt (point_of self.old) → list_any is_open self.new.tickets.items ≡ false) }
    {
        let count = tickets::open_count(self.tickets.as_slice());
        for done in 0..count {
            let more = self.make_first()?;
            if !more {
                return Ok(());
            }
        }
        Ok(())
    }

    /// Answers a request.
    fn tell_request(&mut self, request: Request, out: &mut Vec<u8>) -> Result<(), Memory>
        requires bounds { HasRequestBounds request }
        requires sound { IsReady self.old }
        ensures told { OnOk result (Tells (tell_item (item.Request request) (scene_of self.old)) self.new out.old.items out.new.items) }
        ensures sound { OnOk result (IsReady self.new) }
    {
        if self.is_not_yet(&request) {
            return push_not_yet(out);
        }
        let reply = self.serve(request)?;
        push_reply(out, &reply)?;
        push_text(out, b"\n")
    }

    /// Drains, and tells the tickets that were answered.
    fn tell_drain(&mut self, out: &mut Vec<u8>) -> Result<(), Memory>
        requires { IsReady self.old }
        ensures told { OnOk result (Tells (tell_item item.Drain (scene_of self.old)) self.new out.old.items out.new.items) }
        ensures sound { OnOk result (IsReady self.new) }
    {
        let before = self.number();
        self.drain()?;
        push_text(out, b"drained\n")?;
        let count = self.number().saturating_sub(before);
        texts::push_answer_lines(out, before, count, self.tickets.as_slice())
    }

    /// Tells what the disk has at and below a path.
    fn tell_show(&self, path: &Path, out: &mut Vec<u8>) -> Result<(), Memory>
        requires { IsReady self.now }
        ensures { OnOk result (Tells (tell_item (item.Show path.now) (scene_of self.now)) self.now out.old.items out.new.items) }
    {
        let nodes = self.disk.nodes(path)?;
        texts::push_said(out, Said::Shown(Items::of(nodes)))
    }

    /// Puts bytes into the store, and tells their digest.
    fn tell_blob(&mut self, bytes: Vec<u8>, out: &mut Vec<u8>) -> Result<(), Memory>
        requires { IsReady self.old }
        ensures told { OnOk result (Tells (tell_item (item.Blob bytes.items) (scene_of self.old)) self.new out.old.items out.new.items) }
        ensures sound { OnOk result (IsReady self.new) }
    {
        let digest = self.store.put(bytes)?;
        texts::push_said(out, Said::Stored(digest))
    }

    /// Puts bytes into the store under a digest that may not be theirs, and tells that digest.
    fn tell_lie(&mut self, digest: Digest, bytes: Vec<u8>, out: &mut Vec<u8>) -> Result<(), Memory>
        requires { IsReady self.old }
        ensures told { OnOk result (Tells (tell_item (item.Lie digest bytes.items) (scene_of self.old)) self.new out.old.items out.new.items) }
        ensures sound { OnOk result (IsReady self.new) }
    {
        self.store.lie(digest, bytes)?;
        texts::push_said(out, Said::Stored(digest))
    }

    /// Answers an item.
    fn tell_item(&mut self, item: Item, out: &mut Vec<u8>) -> Result<(), Memory>
        requires bounds { HasBounds 1 item }
        requires sound { IsReady self.old }
        ensures told { OnOk result (Tells (tell_item item (scene_of self.old)) self.new out.old.items out.new.items) }
        ensures sound { OnOk result (IsReady self.new) }
    {
        match item {
            Item::Request(request) => self.tell_request(request, out),
            Item::Drain => self.tell_drain(out),
            Item::Show(path) => self.tell_show(&path, out),
            Item::Blob(bytes) => self.tell_blob(bytes.into_vec(), out),
            Item::Lie { digest, bytes } => self.tell_lie(digest, bytes.into_vec(), out),
            Item::Asks => texts::push_said(out, Said::Asks(self.store.asks())),
            _ => push_not_yet(out),
        }
    }

    /// Answers a line, from a daemon that may serve.
    fn tell_line(&mut self, line: Line, out: &mut Vec<u8>) -> Result<(), Memory>
        requires bounds { HasLineBounds 1 line }
        requires sound { IsReady self.old }
        ensures told { OnOk result (Tells (tell line (scene_of self.old)) self.new out.old.items out.new.items) }
        ensures sound { OnOk result (IsReady self.new) }
    {
        match line {
            Line::Skip => Ok(()),
            Line::End => Ok(()),
            Line::Unread => push_unread(out),
            Line::Item(item) => self.tell_item(item, out),
            Line::NoMemory => Err(Memory),
        }
    }

    /// Answers a line. The history goes on as its rules have it.
    pub fn tell(&mut self, line: Line, out: &mut Vec<u8>) -> Result<(), Memory>
        requires bounds { HasLineBounds 1 line }
        requires sound { IsSound self.old }
        ensures told { OnOk result (Tells (tell line (scene_of self.old)) self.new out.old.items out.new.items) }
        ensures sound { OnOk result (IsSound self.new) }
    {
        self.tell_line(line, out)
    }
}
