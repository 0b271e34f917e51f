ghost use Rattle.std.specs.Prelude.{◌≡◌, ◌+◌, ◌-◌, ◌<◌, ◌^◌, true, is_ok, is_some, if◌then◌else◌};
ghost use Rattle.std.specs.List.{filter};
ghost use Rattle.path_trie.specs.Entries.{put, value_at};
ghost use Rattle.mat_model.specs.Requests.{is_hold_of_other};
ghost use Rattle.holder_book.specs.Counts.{AreCounted, count_at, with_one_less};

use mat_model::Hold;
use mat_path::{Memory, Path};
use path_trie::Trie;

// How many holds are on a path.
pub(crate) fn count_at(counts: &Trie<u64>, path: &Path) -> u64
    ensures { result ≡ count_at path.now counts.now }
{
    match counts.get(path) {
        Some(count) => *count,
        None => 0,
    }
}

// One hold more on a path. For want of memory nothing changes.
pub(crate) fn add_one(counts: &mut Trie<u64>, path: &Path) -> Result<(), Memory>
    requires { count_at path.now counts.old < 2 ^ 64 - 1 }
    ensures { counts.new ≡ (if is_ok result then put path.now (count_at path.now counts.old + 1) counts.old else counts.old) }
{
    let count = count_at(counts, path);
    match counts.insert(path, count + 1) {
        Ok(_) => Ok(()),
        Err(_) => Err(Memory),
    }
}

// One hold fewer on a path. Takes no memory.
pub(crate) fn take_one(counts: &mut Trie<u64>, path: &Path)
    ensures { counts.new ≡ with_one_less (count_at path.now counts.old) path.now counts.old }
{
    let count = count_at(counts, path);
    if count > 1 {
        put_back(counts, path, count - 1);
        return;
    }
    counts.remove(path);
}

// Another count in the place of one that stands. Takes no memory.
fn put_back(counts: &mut Trie<u64>, path: &Path, count: u64)
    requires { is_some (value_at path.now counts.old) ≡ true }
    ensures { counts.new ≡ put path.now count counts.old }
{
    let _old = counts.replace(path, count);
}

// The counts without the holds of a command. Takes no memory.
pub(crate) fn take_all(counts: &mut Trie<u64>, holds: &[Hold], command: u32)
    requires { AreCounted holds.now counts.old }
    ensures { AreCounted (filter (is_hold_of_other command) holds.now) counts.new }
{
    for hold in holds {
        if hold.command == command {
            take_one(counts, &hold.path);
        }
    }
}
