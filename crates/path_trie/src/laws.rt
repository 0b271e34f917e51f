//! Laws of the lists that tries are seen as.
ghost use Rattle.std.specs.Prelude.{◌≡◌, ℕ, List, true};
ghost use Rattle.std.specs.List.{filter, find};
ghost use Rattle.path_trie.specs.Entries.{IsShortest, ascends, cut_at, is_above, is_under, spliced};
ghost use Rattle.path_trie.specs.declared.entry.Entry.{Entry as TheEntry};

/// The entry that covers a path is the one at its shortest prefix: it is one of the entries, at a prefix, and no entry is at a shorter
/// one. None covers a path exactly where no entry is at a prefix. It does nothing.
pub fn cover_is_shortest<V>()
    ensures { (path : List (List ℕ)) (entries : List (TheEntry V)) → ascends entries ≡ true → IsShortest path entries (find (is_above path) entries) }
{}

/// What is cut out of a list of entries and hung in again leaves the list as it was, whatever mark stood there meanwhile. It does nothing.
pub fn a_part_hung_back<V>()
    ensures { (path : List (List ℕ)) (mark : V) (entries : List (TheEntry V)) → ascends entries ≡ true → spliced path (filter (is_under path) entries) (cut_at path mark entries) ≡ entries }
{}
