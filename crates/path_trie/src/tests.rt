ghost use Rattle.std.specs.Prelude.{◌≡◌, ◌<◌};

use crate::{Edit, Entry, Steps, Trie, a_part_hung_back, cover_is_shortest};
use mat_path::Path;
use std::alloc::Global;
use std::marker::Brand;
use std::sync::ledger::{Blank, Ledger};
use std::test::Fail;

/// What a trie answers to a cover, its visits counted in a ledger of this test.
fn cover_in<L: Ledger>(trie: &Trie<u64>, path: &Path, blank: Blank) -> Option<(usize, u64)>
    requires name { blank.name ≡ L.name }
    requires parts { blank.parts ≡ L.parts }
    requires some { 0 < L.parts }
{
    let mut steps: Steps<L> = Steps::new(blank);
    match trie.cover(path, &mut steps) {
        Some((names, value)) => Some((names, *value)),
        None => None,
    }
}

/// The same, where nobody reads the count.
fn cover_of(trie: &Trie<u64>, path: &Path) -> Option<(usize, u64)> {
    cover_in::<Brand>(trie, path, Blank::new(1))
}

/// The next number of a fixed row.
fn next(number: u64) -> u64 {
    number
        .wrapping_mul(6_364_136_223_846_793_005)
        .wrapping_add(1_442_695_040_888_963_407)
}

/// A path of 1 to 4 names of one letter each.
fn path_by(alloc: Global, number: u64) -> Result<Path, Fail> {
    let mut text = Vec::new(alloc);
    let mut rest = number >> 24;
    for name in 0..(1 + (number >> 60) % 4) {
        if name > 0 {
            text.push(b'/')?;
        }
        text.push(b'a' + (rest % 8) as u8)?;
        rest /= 8;
    }
    Ok(Path::read(alloc, text.as_slice())?)
}

/// The first entry of a list at a prefix of a path.
fn first_above(list: &[(Path, u64)], path: &Path) -> Option<(usize, u64)> {
    for entry in list {
        if entry.0.is_prefix(path) {
            return Some((entry.0.names().len(), entry.1));
        }
    }
    None
}

/// How many entries of a list overlap a path.
fn overlap_count(list: &[(Path, u64)], path: &Path) -> usize {
    list.iter().filter(|entry| entry.0.overlaps(path)).count()
}

/// Takes a path out where it stands, or puts a value at it: whether a trie and a list agree on it.
fn change(
    trie: &mut Trie<u64>,
    list: &mut Vec<(Path, u64)>,
    path: Path,
    value: u64,
) -> Result<bool, Fail> {
    match list.binary_search_by(|entry| entry.0.cmp(&path)) {
        Ok(place) => {
            let (_, old) = list.remove(place);
            Ok(trie.remove(&path) == Some(old))
        }
        Err(place) => {
            let fresh = trie.insert(&path, value) == Ok(None);
            list.insert(place, (path, value))?;
            Ok(fresh)
        }
    }
}

/// The value of an entry that was found.
fn value_of(found: Option<(&Path, &u64)>) -> Option<u64> {
    match found {
        Some((_, value)) => Some(*value),
        None => None,
    }
}

/// The value of an entry that was taken.
fn taken(entry: Option<Entry<u64>>) -> Option<u64> {
    match entry {
        Some(entry) => Some(entry.value),
        None => None,
    }
}

/// The value of an entry of a list.
fn listed(found: Option<&(Path, u64)>) -> Option<u64> {
    match found {
        Some((_, value)) => Some(*value),
        None => None,
    }
}

/// Whether a trie and a list agree on what covers a path and what overlaps it.
fn agree(trie: &Trie<u64>, list: &[(Path, u64)], path: &Path) -> Result<bool, Fail> {
    let count = overlap_count(list, path);
    let found = trie.overlapping(path)?;
    Ok(
        found.len() == count
            && trie.overlaps(path) == (count > 0)
            && cover_of(trie, path) == first_above(list, path),
    )
}

/// Whether a trie and a list agree on how many entries there are, which is in the middle, and which come from a path on.
fn agree_on_order(trie: &Trie<u64>, list: &[(Path, u64)], path: &Path) -> bool {
    let middle = list.len() / 2;
    trie.len() == list.len()
        && value_of(trie.at(middle)) == listed(list.get(middle))
        && value_of(trie.first_from(path)) == listed(list.iter().find(|entry| entry.0 >= *path))
        && value_of(trie.first_behind(path)) == listed(list.iter().find(|entry| entry.0 > *path))
        && value_of(trie.first_under(path))
            == listed(list.iter().find(|entry| path.is_prefix(&entry.0)))
        && value_of(trie.first_past(path))
            == listed(
                list.iter()
                    .find(|entry| entry.0 > *path && !path.is_prefix(&entry.0)),
            )
}

/// Puts another value at a path where one stands in a list, and whether the trie did so too.
fn change_value(trie: &mut Trie<u64>, list: &mut [(Path, u64)], path: &Path, value: u64) -> bool {
    match list.binary_search_by(|entry| entry.0.cmp(path)) {
        Ok(place) => {
            let old = list[place].1;
            list[place].1 = value;
            trie.replace(path, value) == Ok(old)
        }
        Err(_) => trie.replace(path, value) == Err(value),
    }
}

/// Hangs a part in where it was cut out, and whether that can be.
fn hung(trie: &mut Trie<u64>, path: &Path, part: Trie<u64>) -> bool {
    if trie.count_under(path) == 0 {
        return false;
    }
    if trie.len() > 1_000_000 || part.len() > 1_000_000 {
        return false;
    }
    trie.hang(path, part);
    true
}

/// How many entries of a list are at or below a path.
fn under_count(list: &[(Path, u64)], path: &Path) -> usize {
    list.iter().filter(|entry| path.is_prefix(&entry.0)).count()
}

/// Cuts out what a trie has at and below a path, and hangs it in again: whether the trie and the part had what a list has meanwhile.
fn cut_and_hung(trie: &mut Trie<u64>, list: &[(Path, u64)], path: &Path, mark: u64) -> bool {
    let below = under_count(list, path);
    match trie.cut(path, mark) {
        Ok(part) => {
            let parted = part.len() == below
                && value_of(part.first_under(path))
                    == listed(list.iter().find(|entry| path.is_prefix(&entry.0)))
                && trie.len().wrapping_add(below) == list.len().wrapping_add(1)
                && trie.get(path) == Some(&mark);
            parted && hung(trie, path, part)
        }
        Err(_) => false,
    }
}

/// How many entries are cut out at and below a path, and the value of the first.
fn first_cut(trie: &mut Trie<u64>, path: &Path) -> Option<(usize, Option<u64>)> {
    match trie.cut(path, 9) {
        Ok(part) => Some((part.len(), value_of(part.at(0)))),
        Err(_) => None,
    }
}

/// Puts the number of its path's names in place of each value.
struct NameCounts;

impl Edit<u64> for NameCounts {
    ghost use Rattle.std.specs.Prelude.{length};

    ghost edited = { λ counts path value. length path };

    fn edit(&self, path: &Path, _value: u64) -> u64 {
        path.names().len() as u64
    }
}

/// A trie with values at `a/b` and `c`.
fn two_values(alloc: Global) -> Result<Trie<u64>, Fail> {
    let mut trie = Trie::new(alloc);
    let _low = trie.insert(&Path::read(alloc, b"a/b")?, 1);
    let _beside = trie.insert(&Path::read(alloc, b"c")?, 2);
    Ok(trie)
}

#[test]
fn the_cover_of_a_path_below_and_above(rt: HostRuntime) -> Result<(), Fail> {
    let trie = two_values(rt.alloc())?;
    let below = Path::read(rt.alloc(), b"a/b/x/y")?;
    let above = Path::read(rt.alloc(), b"a")?;
    assert_eq!(rt; cover_of(&trie, &below), Some((2, 1)));
    assert_eq!(rt; cover_of(&trie, &above), None);
    Ok(())
}

#[test]
fn the_one_path_that_overlaps_a_folder(rt: HostRuntime) -> Result<(), Fail> {
    let trie = two_values(rt.alloc())?;
    let above = Path::read(rt.alloc(), b"a")?;
    let low = Path::read(rt.alloc(), b"a/b")?;
    let found = trie.overlapping(&above)?;
    assert_eq!(rt; found.first(), Some(&low));
    assert_eq!(rt; found.len(), 1);
    assert_eq!(rt; trie.get(&low), Some(&1));
    Ok(())
}

#[test]
fn what_is_found_from_some_paths_on(rt: HostRuntime) -> Result<(), Fail> {
    let mut trie = two_values(rt.alloc())?;
    assert_eq!(rt;
        trie.insert(&Path::read(rt.alloc(), b"a/b/c")?, 3),
        Ok(None)
    );
    let rows = [
        ("a", Some(1), Some(1), Some(1), None),
        ("a/b", Some(1), Some(3), Some(1), None),
        ("a/b/c", Some(3), Some(2), Some(3), Some(3)),
        ("a/c", Some(2), Some(2), None, None),
        ("c/x", None, None, None, None),
    ];
    for (text, from, behind, under, above) in rows {
        let path = Path::read(rt.alloc(), text.as_bytes())?;
        assert_eq!(rt; value_of(trie.first_from(&path)), from, "{text:?}");
        assert_eq!(rt; value_of(trie.first_behind(&path)), behind, "{text:?}");
        assert_eq!(rt; value_of(trie.first_under(&path)), under, "{text:?}");
        assert_eq!(rt; value_of(trie.above_from(&path, 3)), above, "{text:?}");
    }
    let top = Path::read(rt.alloc(), b"a")?;
    let low = Path::read(rt.alloc(), b"a/b")?;
    assert_eq!(rt; value_of(trie.next_under(&top, &low)), Some(3));
    assert_eq!(rt; (trie.count_under(&top), trie.is_empty()), (2, false));
    cover_is_shortest::<u8>();
    for wanted in [Some(1), Some(3), None] {
        assert_eq!(rt; taken(trie.take_under(&top)), wanted);
    }
    assert_eq!(rt; trie.len(), 1);
    Ok(())
}

#[test]
fn a_part_is_cut_out_and_another_is_hung_in(rt: HostRuntime) -> Result<(), Fail> {
    let rows = [("a", 1, Some(1)), ("a/b", 1, Some(1)), ("a/c", 0, None)];
    for (text, count, value) in rows {
        let mut trie = two_values(rt.alloc())?;
        let path = Path::read(rt.alloc(), text.as_bytes())?;
        assert_eq!(rt;
            first_cut(&mut trie, &path),
            Some((count, value)),
            "{text:?}"
        );
        assert_eq!(rt; trie.get(&path), Some(&9), "{text:?}");
        let mut other: Trie<u64> = Trie::new(rt.alloc());
        assert_eq!(rt;
            other.insert(&Path::read(rt.alloc(), b"a/c/d")?, 5),
            Ok(None)
        );
        assert!(rt; hung(&mut trie, &path, other));
        assert_eq!(rt;
            trie.count_under(&path),
            if text == "a/b" { 0 } else { 1 },
            "{text:?}"
        );
    }
    a_part_hung_back::<u8>();
    Ok(())
}

#[test]
fn values_are_changed_where_they_stand(rt: HostRuntime) -> Result<(), Fail> {
    let mut trie = two_values(rt.alloc())?;
    trie.edit(&NameCounts);
    assert_eq!(rt; trie.get(&Path::read(rt.alloc(), b"a/b")?), Some(&2));
    assert_eq!(rt; trie.get(&Path::read(rt.alloc(), b"c")?), Some(&1));
    Ok(())
}

#[test]
fn random_paths_against_a_sorted_list(rt: HostRuntime) -> Result<(), Fail> {
    let mut trie = Trie::new(rt.alloc());
    let mut list: Vec<(Path, u64)> = Vec::new(rt.alloc());
    let mut number = 1;
    for turn in 0..20_000_u64 {
        number = next(number);
        let path = path_by(rt.alloc(), number)?;
        assert!(rt; change(&mut trie, &mut list, path, turn)?);
        if turn % 64 == 0 {
            let asked = path_by(rt.alloc(), next(number))?;
            assert!(rt; agree(&trie, &list, &asked)?);
            assert!(rt; agree_on_order(&trie, &list, &asked));
            assert!(rt; change_value(&mut trie, &mut list, &asked, turn + 20_000));
            assert!(rt; cut_and_hung(&mut trie, list.as_slice(), &asked, turn));
            assert!(rt; agree_on_order(&trie, &list, &asked));
        }
    }
    Ok(())
}
