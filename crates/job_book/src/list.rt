// The jobs in order of number.
ghost use Rattle.std.specs.Prelude.{◌≡◌, ◌≤◌, true, drop, find, length, map, take, IfNone, IfSome};
ghost use Rattle.std.specs.List.{filter, list_all};
ghost use Rattle.std.specs.Option.{option_copied, option_map_or};
ghost use Rattle.mat_model.specs.Books.{are_ascending};
ghost use Rattle.job_book.specs.Numbers.{is_earlier, is_number, is_part_of, is_past, marked, marked_part, number_of, reads, IsPlaceOf};

use crate::running::{LentPart, Running};
use mat_path::Path;

// The place of the first job whose number isn't below one, found by halves.
fn place_from(list: &[Running], number: u64) -> usize
    requires { are_ascending (map number_of list.now) ≡ true }
    ensures within { result ≤ length list.now }
    ensures front { list_all (is_earlier number) (take result list.now) ≡ true }
    ensures back { list_all (is_past number) (drop result list.now) ≡ true }
{
    list.partition_point(|running| running.card.job < number)
}

// The place of the job of a number.
pub(crate) fn place_of(list: &[Running], number: u64) -> Option<usize>
    requires { are_ascending (map number_of list.now) ≡ true }
    ensures found { IfSome result (IsPlaceOf number list.now) }
    ensures absent { IfNone result (find (is_number number) list.now ≡ None) }
{
    let place = place_from(list, number);
    if place < list.len() && list[place].card.job == number {
        return Some(place);
    }
    None
}

// The job of a number.
pub(crate) fn job_at(list: &[Running], number: u64) -> Option<&Running>
    requires { are_ascending (map number_of list.now) ≡ true }
    ensures { option_copied result ≡ find (is_number number) list.now }
{
    match place_of(list, number) {
        Some(place) => Some(&list[place]),
        None => None,
    }
}

// Whether a part is that of the row at exactly a path and with a stamp.
fn is_part_of(part: &LentPart, path: &Path, stamp: u64) -> bool
    ensures { result ≡ is_part_of path.now stamp part.now }
{
    *path == part.path && part.stamp == stamp
}

// Whether a job reads the part of a row.
pub(crate) fn reads(running: &Running, path: &Path, stamp: u64) -> bool
    ensures { result ≡ reads path.now stamp running.now }
{
    match &running.lent {
        Some(part) => is_part_of(part, path, stamp),
        None => false,
    }
}

// Marks a part as cleaned, if it is that of a row.
fn mark_part(part: &mut LentPart, path: &Path, stamp: u64)
    ensures { part.new ≡ marked_part path.now stamp part.old }
{
    part.cleaned = part.cleaned || is_part_of(part, path, stamp);
}

// The same of the part that a job reads.
fn mark(running: &mut Running, path: &Path, stamp: u64)
    ensures { running.new ≡ marked path.now stamp running.old }
{
    if let Some(part) = &mut running.lent {
        mark_part(part, path, stamp);
    }
}

// The same of all jobs.
fn mark_each(list: &mut [Running], path: &Path, stamp: u64)
    ensures { list.new ≡ map (marked path.now stamp) list.old }
{
    for running in list.iter_mut() {
        mark(running, path, stamp);
    }
}

// The same of all jobs of a list.
pub(crate) fn mark_all(list: &mut Vec<Running>, path: &Path, stamp: u64)
    ensures { list.new.items ≡ map (marked path.now stamp) list.old.items }
{
    mark_each(list.as_mut_slice(), path, stamp);
}
