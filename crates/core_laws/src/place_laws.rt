ghost use Rattle.std.specs.Prelude.{◌≡◌, ◌≤◌, ◌⊎◌, ℕ, List, Some};
ghost use Rattle.mat_path.specs.Covering.{covering};
ghost use Rattle.mat_model.specs.declared.book.Row.{Row};
ghost use Rattle.mat_model.specs.declared.entries.Entry.{Entry};
ghost use Rattle.mat_model.specs.declared.entries.Event.TheVariants as event;
ghost use Rattle.mat_model.specs.declared.entries.Outcome.{Outcome};
ghost use Rattle.mat_model.specs.declared.entries.Outcome.TheVariants as outcome;
ghost use Rattle.mat_model.specs.declared.entries.Task.{Task};
ghost use Rattle.mat_model.specs.declared.entries.Task.TheVariants as task;
ghost use Rattle.mat_model.specs.declared.requests.Asked.{Asked};
ghost use Rattle.mat_model.specs.History.{Point, after, next_number};
ghost use Rattle.mat_model.specs.WorkState.{Job, Lent, WorkState, refused, running, started};
ghost use Rattle.model_laws.specs.WorkRules.{IsWork, loans};
ghost use Rattle.core_laws.specs.Covered.{AreKeptAside, AreKeptPlaces, node_places, rough_places};

/// A request keeps the places of nodes, but for what is out: a removed row leaves debris, unless a job reads its part.
pub fn request_keeps_node_places()
    ensures { (point : Point) (entry : Entry) (request : Asked) → IsWork (next_number point) point.book.rows point.work →
        entry.event ≡ event.Asked request →
        AreKeptPlaces (loans point.work.jobs) (node_places point.book.rows point.work)
        (node_places (after point entry).book.rows (after point entry).work) }
{}

/// And those of rough paths.
pub fn request_keeps_rough_places()
    ensures { (point : Point) (entry : Entry) (request : Asked) → IsWork (next_number point) point.book.rows point.work →
        entry.event ≡ event.Asked request →
        AreKeptPlaces (loans point.work.jobs) (rough_places point.work) (rough_places (after point entry).work) }
{}

/// The begin of a make keeps the places of nodes, but for what is at or below its path.
pub fn begin_keeps_node_places()
    ensures { (number caller : ℕ) (path : List (List ℕ)) (stamp : ℕ) (rows : List Row) (work : WorkState) →
        AreKeptAside path (node_places rows work) (node_places rows (started number caller (task.Make path stamp) rows work)) }
{}

/// And those of rough paths.
pub fn begin_keeps_rough_places()
    ensures { (number caller : ℕ) (path : List (List ℕ)) (stamp : ℕ) (rows : List Row) (work : WorkState) →
        AreKeptAside path (rough_places work) (rough_places (started number caller (task.Make path stamp) rows work)) }
{}

/// The end of a job keeps the places of nodes, but for what is out.
pub fn end_keeps_node_places()
    ensures { (point : Point) (entry : Entry) (number : ℕ) (out : Outcome) (job : Job) → entry.event ≡ event.Done number out →
        running number point.work ≡ Some job →
        AreKeptPlaces (loans point.work.jobs) (node_places point.book.rows point.work)
        (node_places (after point entry).book.rows (after point entry).work) }
{}

/// And those of rough paths.
pub fn end_keeps_rough_places()
    ensures { (point : Point) (entry : Entry) (number : ℕ) (out : Outcome) (job : Job) → entry.event ≡ event.Done number out →
        running number point.work ≡ Some job →
        AreKeptPlaces (loans point.work.jobs) (rough_places point.work) (rough_places (after point entry).work) }
{}

/// What comes back of a make is at a place of nodes: that of the row that it made, or that is dirty then, or it is debris.
pub fn ended_make_is_node_place()
    ensures { (point : Point) (entry : Entry) (number : ℕ) (out : Outcome) (job : Job) (path : List (List ℕ)) (stamp : ℕ) →
        entry.event ≡ event.Done number out → running number point.work ≡ Some job → job.task ≡ task.Make path stamp →
        1 ≤ covering path (node_places (after point entry).book.rows (after point entry).work) }
{}

/// It is at a place of rough paths, unless the make says that it made its row.
pub fn ended_make_is_rough_place()
    ensures { (point : Point) (entry : Entry) (number : ℕ) (out : Outcome) (job : Job) (path : List (List ℕ)) (stamp : ℕ) →
        entry.event ≡ event.Done number out → running number point.work ≡ Some job → job.task ≡ task.Make path stamp →
        (out ≡ outcome.Made) ⊎ (1 ≤ covering path (rough_places (after point entry).work)) }
{}

/// What comes back of a wipe is at a place of nodes and of rough paths, unless the wipe says that it left nothing.
pub fn ended_wipe_is_place()
    ensures { (point : Point) (entry : Entry) (number : ℕ) (out : Outcome) (job : Job) (path : List (List ℕ)) →
        IsWork (next_number point) point.book.rows point.work → entry.event ≡ event.Done number out →
        running number point.work ≡ Some job → job.task ≡ task.Wipe path →
        (out ≡ outcome.Wiped)
        ⊎ ((1 ≤ covering path (node_places (after point entry).book.rows (after point entry).work))
        × (1 ≤ covering path (rough_places (after point entry).work))) }
{}

/// A part that was read comes back to a place of nodes: that of its row, or, where this is gone, it is debris.
pub fn returned_part_is_node_place()
    ensures { (point : Point) (entry : Entry) (number : ℕ) (out : Outcome) (job : Job) (part : Lent) →
        IsWork (next_number point) point.book.rows point.work → entry.event ≡ event.Done number out →
        running number point.work ≡ Some job → job.lent ≡ Some part →
        1 ≤ covering part.path (node_places (after point entry).book.rows (after point entry).work) }
{}

/// A begin that was refused keeps the places of nodes.
pub fn refused_begin_keeps_node_places()
    ensures { (begun : Task) (rows : List Row) (work : WorkState) (path : List (List ℕ)) → 1 ≤ covering path (node_places rows work) →
        1 ≤ covering path (node_places rows (refused begun work)) }
{}

/// And those of rough paths.
pub fn refused_begin_keeps_rough_places()
    ensures { (begun : Task) (work : WorkState) (path : List (List ℕ)) → 1 ≤ covering path (rough_places work) →
        1 ≤ covering path (rough_places (refused begun work)) }
{}
