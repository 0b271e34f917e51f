ghost use Rattle.std.specs.Prelude.{◌≡◌, [], false, None, Some};
ghost use Rattle.mat_digest.specs.declared.digest.Digest.{Digest};
ghost use Rattle.mat_tree.specs.Trees.{file_tree};
ghost use Rattle.mat_model.specs.declared.answers.Limit.TheVariants as limit;
ghost use Rattle.mat_model.specs.declared.answers.Reply.TheVariants as reply;
ghost use Rattle.model_examples.specs.FirstRuns.{asks, enters, writes};
ghost use Rattle.model_examples.specs.DeclareRuns.{equal_run};
ghost use Rattle.model_examples.specs.RoomRuns.{asked_once, crowded_point, declared_run, entered_run, full_next, roomy, written_run};
ghost use Rattle.mat_model.specs.History.{answer, point_of};
ghost use Rattle.mat_model.specs.Room.{full_event};
ghost use Rattle.model_examples.specs.Steps.{copies, declares, digest_a, digest_b, leaves, looks, path_p, path_q};

/// With room for the row of one path a second path is one too many, and another file at the first path is not.
pub fn one_row_is_enough()
    ensures first { full_next (record roomy { rows = 1 }) entered_run (writes 1 path_p digest_a) ≡ None }
    ensures second { (digest other : Digest) →
        full_next (record roomy { rows = 1 }) (written_run digest) (writes 1 path_q other) ≡ Some limit.Rows }
    ensures again { full_next (record roomy { rows = 1 }) (written_run digest_a) (writes 1 path_p digest_b) ≡ None }
{}

/// With room for two entries a command comes and goes, since its going is counted when it comes, and does nothing between.
pub fn two_entries_are_spent()
    ensures comes { full_next (record roomy { history = 2 }) [] (enters 1 7) ≡ None }
    ensures looks { full_next (record roomy { history = 2 }) entered_run (looks 1 path_p) ≡ Some limit.History }
    ensures goes { full_next (record roomy { history = 2 }) entered_run (leaves 1) ≡ None }
{}

/// A write counts the bytes that are held for it, and so does a copy of it, but not a declaration, whose files come from
/// the store.
pub fn held_bytes_are_counted()
    ensures written { full_next (record roomy { held = 1 }) entered_run (writes 1 path_p digest_a) ≡ None }
    ensures second { full_next (record roomy { held = 1 }) (written_run digest_a) (writes 1 path_q digest_b) ≡ Some limit.Held }
    ensures copied { full_next (record roomy { held = 1 }) (written_run digest_a) (copies 1 path_q path_p) ≡ Some limit.Held }
    ensures declared { full_next (record roomy { held = 1 }) (written_run digest_a) (declares 1 path_q (file_tree digest_b false)) ≡ None }
{}

/// A write of the file that is declared already has its bytes held where the file isn't made yet, and takes none of them
/// where it is.
pub fn kept_write_holds_bytes()
    ensures lying { full_next (record roomy { held = 0 }) declared_run (writes 1 path_p digest_a) ≡ Some limit.Held }
    ensures standing { full_next (record roomy { held = 0 }) equal_run (writes 1 path_p digest_a) ≡ None }
{}

/// A write counts its node whatever it is answered, also before it is refused to a command that isn't live.
pub fn nodes_are_counted_first()
    ensures live { (digest other : Digest) →
        full_next (record roomy { nodes = 1 }) (written_run digest) (writes 1 path_q other) ≡ Some limit.Nodes }
    ensures other { (digest other : Digest) →
        full_next (record roomy { nodes = 1 }) (written_run digest) (writes 9 path_q other) ≡ Some limit.Nodes }
{}

/// A second open ticket for a path is counted, and a second hold of a command on it is none.
pub fn tickets_are_counted()
    ensures asked { full_next (record roomy { asked = 1 }) (asked_once digest_a) (asks 1 path_p) ≡ Some limit.Asked }
    ensures same { full_next (record roomy { holds = 1 }) (asked_once digest_a) (asks 1 path_p) ≡ None }
    ensures other { full_next (record roomy { holds = 1 }) (asked_once digest_a) (writes 1 path_q digest_b) ≡ Some limit.Holds }
{}

/// With 64 commands live the next one waits, for the live state too, and with 64 that wait there is no place.
pub fn queue_has_64_places()
    ensures first { (answer (crowded_point 0) 0 (enters 200 7) reply.Started).reply ≡ reply.Queued 1 }
    ensures last { full_event roomy (crowded_point 63) 0 (enters 200 7) ≡ None }
    ensures none { full_event roomy (crowded_point 64) 0 (enters 200 7) ≡ Some limit.Waiting }
    ensures known { full_event roomy (crowded_point 64) 0 (enters 100 7) ≡ None }
{}
