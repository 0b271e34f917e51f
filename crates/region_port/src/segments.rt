ghost use Rattle.std.specs.Prelude.{◌≡◌, ◌+◌, ◌≤◌, ◌<◌, ◌∷◌, ◌++◌, [], ℕ, List, length, IfOk, OnOk, OnErr, IfSome};
ghost use Rattle.std.specs.List.{filter};
ghost use Rattle.std.specs.Vec.{vec_len, vec_capacity};
ghost use Rattle.std.specs.VecDeque.{deque_len, deque_capacity};
ghost use Rattle.mat_path.specs.Names.{is_prefix};
ghost use Rattle.region_port.specs.Entries.{is_within, is_outside};
ghost use Rattle.region_port.specs.Lists.{all_of, count_of};

use mat_path::{Memory, Path};
use std::alloc::Global;
use std::collections::VecDeque;

/// What stands at a path of its own.
pub trait Placed: Drop {
    ghost place: { Self → List (List ℕ) };

    fn place(&self) -> &Path
        ensures { result.now ≡ place self.now };
}

impl Placed for Path {
    ghost place = { λ path. path };

    fn place(&self) -> &Path {
        self
    }
}

/// Items on their way to two lists that have room for them: those at or below a path, and the others.
#[derive(Drop)]
pub struct Parted<T> {
    within: Vec<T>,
    others: Vec<T>,
}

impl<T: Placed> Parted<T> {
    fn with_room(alloc: Global, room: usize) -> Result<Parted<T>, Memory>
        ensures within { IfOk result (λ parted. parted.within.items ≡ []) }
        ensures others { IfOk result (λ parted. parted.others.items ≡ []) }
        ensures within_room { IfOk result (λ parted. vec_len parted.within + room ≤ vec_capacity parted.within) }
        ensures others_room { IfOk result (λ parted. vec_len parted.others + room ≤ vec_capacity parted.others) }
    {
        let within = Vec::with_capacity(alloc, room)?;
        let others = Vec::with_capacity(alloc, room)?;
        Ok(Parted { within, others })
    }

    /// Adds an item to the list where it belongs.
    fn add(&mut self, path: &Path, item: T)
        requires within_room { vec_len self.old.within < vec_capacity self.old.within }
        requires others_room { vec_len self.old.others < vec_capacity self.old.others }
        ensures within { self.new.within.items ≡ self.old.within.items ++ filter (is_within T.place path.now) (item ∷ []) }
        ensures others { self.new.others.items ≡ self.old.others.items ++ filter (is_outside T.place path.now) (item ∷ []) }
        ensures within_len { vec_len self.new.within ≤ vec_len self.old.within + 1 }
        ensures others_len { vec_len self.new.others ≤ vec_len self.old.others + 1 }
        ensures within_capacity { vec_capacity self.new.within ≡ vec_capacity self.old.within }
        ensures others_capacity { vec_capacity self.new.others ≡ vec_capacity self.old.others }
    {
        if path.is_prefix(item.place()) {
            self.within.push_reserved(item);
            return;
        }
        self.others.push_reserved(item);
    }

    /// Adds the items of a segment in their order.
    fn add_all(&mut self, path: &Path, segment: Vec<T>)
        requires within_room { vec_len self.old.within + vec_len segment ≤ vec_capacity self.old.within }
        requires others_room { vec_len self.old.others + vec_len segment ≤ vec_capacity self.old.others }
        ensures within { self.new.within.items ≡ self.old.within.items ++ filter (is_within T.place path.now) segment.items }
        ensures others { self.new.others.items ≡ self.old.others.items ++ filter (is_outside T.place path.now) segment.items }
        ensures within_len { vec_len self.new.within ≤ vec_len self.old.within + vec_len segment }
        ensures others_len { vec_len self.new.others ≤ vec_len self.old.others + vec_len segment }
        ensures within_capacity { vec_capacity self.new.within ≡ vec_capacity self.old.within }
        ensures others_capacity { vec_capacity self.new.others ≡ vec_capacity self.old.others }
    {
        let mut rest = VecDeque::from_vec(segment);
        'items: while let Some(item) = rest.pop_front() {
            self.add(path, item);
        }
    }
}

/// A list in segments, one behind the other, so that adding a segment moves none of its items.
#[derive(Drop)]
pub struct Segments<T> {
    pub(crate) segments: VecDeque<Vec<T>>,
}

impl<T: Placed> Segments<T> {
    pub(crate) fn new(alloc: Global) -> Segments<T>
        ensures items { all_of result.segments.items ≡ [] }
        ensures len { deque_len result.segments ≡ 0 }
    {
        Segments {
            segments: VecDeque::new(alloc),
        }
    }

    /// At least how many items there are; an answer of None comes only where no memory could hold them.
    fn total(&self) -> Option<usize>
        ensures { IfSome result (λ total. count_of self.now.segments.items ≤ total) }
    {
        let mut total: usize = 0;
        for segment in self.segments.iter() {
            total = total.checked_add(segment.len())?;
        }
        Some(total)
    }

    /// Makes room for all items in two lists, and for so many segments more than one.
    pub(crate) fn ready(&mut self, seats: usize) -> Result<Parted<T>, Memory>
        ensures within { IfOk result (λ parted. parted.within.items ≡ []) }
        ensures others { IfOk result (λ parted. parted.others.items ≡ []) }
        ensures within_room { IfOk result (λ parted. vec_len parted.within + (count_of self.old.segments.items + 1) ≤ vec_capacity parted.within) }
        ensures others_room { IfOk result (λ parted. vec_len parted.others + (count_of self.old.segments.items + 1) ≤ vec_capacity parted.others) }
        ensures seats { OnOk result (deque_len self.new.segments + (seats + 1) ≤ deque_capacity self.new.segments) }
        ensures same { self.new.segments.items ≡ self.old.segments.items }
        ensures len { deque_len self.new.segments ≡ deque_len self.old.segments }
        ensures capacity { deque_capacity self.old.segments ≤ deque_capacity self.new.segments }
    {
        let alloc = *self.segments.allocator();
        let room = self.total().ok_or(Memory)?.checked_add(1).ok_or(Memory)?;
        let places = seats.checked_add(1).ok_or(Memory)?;
        self.segments.reserve(places)?;
        Parted::with_room(alloc, room)
    }

    /// Takes out the items at and below the path, in their order, into the room that was made for them.
    pub(crate) fn take_out(&mut self, path: &Path, mut parted: Parted<T>) -> Vec<T>
        requires within { parted.within.items ≡ [] }
        requires others { parted.others.items ≡ [] }
        requires within_room { vec_len parted.within + (count_of self.old.segments.items + 1) ≤ vec_capacity parted.within }
        requires others_room { vec_len parted.others + (count_of self.old.segments.items + 1) ≤ vec_capacity parted.others }
        requires seats { deque_len self.old.segments < deque_capacity self.old.segments }
        ensures taken { result.items ≡ filter (is_within T.place path.now) (all_of self.old.segments.items) }
        ensures room { vec_len result < vec_capacity result }
        ensures kept { all_of self.new.segments.items ≡ filter (is_outside T.place path.now) (all_of self.old.segments.items) }
        ensures len { deque_len self.new.segments ≡ 1 }
        ensures capacity { deque_capacity self.new.segments ≡ deque_capacity self.old.segments }
    {
        'segments: while let Some(segment) = self.segments.pop_front() {
            parted.add_all(path, segment);
        }
        let Parted { mut within, others } = parted;
        self.segments.push_back_reserved(others);
        let places = within.len() + 1;
        within.shrink_to(places);
        within
    }

    /// Drops all items, and keeps the room for segments.
    pub(crate) fn clear(&mut self)
        ensures items { all_of self.new.segments.items ≡ [] }
        ensures len { deque_len self.new.segments ≡ 0 }
        ensures capacity { deque_capacity self.new.segments ≡ deque_capacity self.old.segments }
    {
        self.segments.clear();
    }

    /// Adds a segment behind the others.
    pub(crate) fn give_back(&mut self, segment: Vec<T>)
        requires { deque_len self.old.segments < deque_capacity self.old.segments }
        ensures items { all_of self.new.segments.items ≡ all_of self.old.segments.items ++ segment.items }
        ensures len { deque_len self.new.segments ≡ deque_len self.old.segments + 1 }
        ensures capacity { deque_capacity self.new.segments ≡ deque_capacity self.old.segments }
    {
        self.segments.push_back_reserved(segment);
    }
}
