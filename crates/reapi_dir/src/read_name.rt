// The names and targets of nodes, read from the front of the bytes that are left before the offset `end`, and the order of names.
ghost use Rattle.std.specs.Prelude.{◌≡◌, ◌+◌, ◌<◌, ◌≤◌, ◌++◌, [], true, map, length, IfOk};
ghost use Rattle.std.specs.List.{list_any};
ghost use Rattle.mat_path.specs.Names.{is_name, is_target, name_cmp, same_name};
ghost use Rattle.reapi_dir.specs.Wire.{field_view};
ghost use Rattle.reapi_dir.specs.Grammar.{ascend, dir_name, file_name, is_before, link_name};
ghost use Rattle.reapi_dir.specs.Reading as Spec;

use crate::message::{DirNode, FileNode, LinkNode};
use crate::read_wire::{place, read_field};
use crate::refusal::DirRefusal;
use mat_path::{Name, Target};
use std::cmp::Ordering;

// The key of `name` of a node.
const NAME: u64 = 0x0a;
// The key of `target` of a link.
const TARGET: u64 = 0x12;

// The field of a name.
#[tactic(auto, unfolding(crate::specs::Reading::name_field_read))]
pub(crate) fn read_name(bytes: &[u8], end: usize) -> Result<(&[u8], &[u8]), DirRefusal>
    requires { length bytes.now ≤ end }
    ensures exact { field_view result ≡ Spec.name_field_read end bytes.entry.now }
    ensures parts { IfOk result (λ parts. length parts.0.now + length parts.1.now < length bytes.entry.now) }
    ensures named { IfOk result (λ parts. is_name parts.0.now ≡ true) }
{
    let (name, behind) = read_field(NAME, bytes, end)?;
    if !Name::is_name(name) {
        return Err(DirRefusal::Name(place(name, place(behind, end))));
    }
    Ok((name, behind))
}

// The field of a target.
#[tactic(auto, unfolding(crate::specs::Reading::target_read))]
pub(crate) fn read_target(bytes: &[u8], end: usize) -> Result<(&[u8], &[u8]), DirRefusal>
    requires { length bytes.now ≤ end }
    ensures exact { field_view result ≡ Spec.target_read end bytes.entry.now }
    ensures parts { IfOk result (λ parts. length parts.0.now + length parts.1.now < length bytes.entry.now) }
    ensures target { IfOk result (λ parts. is_target parts.0.now ≡ true) }
{
    let (target, behind) = read_field(TARGET, bytes, end)?;
    if !Target::is_target(target) {
        return Err(DirRefusal::Name(place(target, place(behind, end))));
    }
    Ok((target, behind))
}

// Whether a name is less than another one, by bytes.
fn is_before(a: &[u8], b: &[u8]) -> bool
    ensures { result ≡ is_before a.now b.now }
{
    a.cmp(b).is_lt()
}

// Whether a name is greater than that of the last file.
fn follows_file(files: &[FileNode], name: &[u8]) -> bool
    ensures { result ≡ Spec.follows (Spec.newest file_name files.now) name.now }
{
    match files.last() {
        Some(last) => is_before(last.name.bytes(), name),
        None => true,
    }
}

// Whether a name is greater than that of the last directory.
fn follows_dir(dirs: &[DirNode], name: &[u8]) -> bool
    ensures { result ≡ Spec.follows (Spec.newest dir_name dirs.now) name.now }
{
    match dirs.last() {
        Some(last) => is_before(last.name.bytes(), name),
        None => true,
    }
}

// Whether a name is greater than that of the last link.
fn follows_link(links: &[LinkNode], name: &[u8]) -> bool
    ensures { result ≡ Spec.follows (Spec.newest link_name links.now) name.now }
{
    match links.last() {
        Some(last) => is_before(last.name.bytes(), name),
        None => true,
    }
}

// How the name of a file compares with a name.
fn compare_file(file: &FileNode, name: &[u8]) -> Ordering
    ensures { result ≡ name_cmp file.now.name name.now }
{
    file.name.bytes().cmp(name)
}

// How the name of a directory compares with a name.
fn compare_dir(dir: &DirNode, name: &[u8]) -> Ordering
    ensures { result ≡ name_cmp dir.now.name name.now }
{
    dir.name.bytes().cmp(name)
}

// Whether a file has this name.
fn is_file(files: &[FileNode], name: &[u8]) -> bool
    requires { ascend (map file_name files.now) ≡ true }
    ensures { result ≡ list_any (same_name name.now) (map file_name files.now) }
{
    files
        .binary_search_by(|file| compare_file(file, name))
        .is_ok()
}

// Whether a directory has this name.
fn is_dir(dirs: &[DirNode], name: &[u8]) -> bool
    requires { ascend (map dir_name dirs.now) ≡ true }
    ensures { result ≡ list_any (same_name name.now) (map dir_name dirs.now) }
{
    dirs.binary_search_by(|dir| compare_dir(dir, name)).is_ok()
}

// The field of the name of a file that comes behind these.
#[tactic(auto, unfolding(crate::specs::Reading::name_read))]
pub(crate) fn read_file_name<'a>(
    files: &[FileNode],
    bytes: &'a [u8],
    end: usize,
) -> Result<(&'a [u8], &'a [u8]), DirRefusal>
    requires { length bytes.now ≤ end }
    ensures exact { field_view result ≡ Spec.name_read (Spec.newest file_name files.now) [] end bytes.entry.now }
    ensures parts { IfOk result (λ parts. length parts.0.now + length parts.1.now < length bytes.entry.now) }
    ensures named { IfOk result (λ parts. is_name parts.0.now ≡ true) }
{
    let (name, behind) = read_name(bytes, end)?;
    if !follows_file(files, name) {
        return Err(DirRefusal::Order(place(name, place(behind, end))));
    }
    Ok((name, behind))
}

// The field of the name of a directory that comes behind these, and behind the files.
#[tactic(auto, unfolding(crate::specs::Reading::name_read))]
pub(crate) fn read_dir_name<'a>(
    files: &[FileNode],
    dirs: &[DirNode],
    bytes: &'a [u8],
    end: usize,
) -> Result<(&'a [u8], &'a [u8]), DirRefusal>
    requires end { length bytes.now ≤ end }
    requires files { ascend (map file_name files.now) ≡ true }
    ensures exact { field_view result ≡ Spec.name_read (Spec.newest dir_name dirs.now) (map file_name files.now) end bytes.entry.now }
    ensures parts { IfOk result (λ parts. length parts.0.now + length parts.1.now < length bytes.entry.now) }
    ensures named { IfOk result (λ parts. is_name parts.0.now ≡ true) }
{
    let (name, behind) = read_name(bytes, end)?;
    if !follows_dir(dirs, name) || is_file(files, name) {
        return Err(DirRefusal::Order(place(name, place(behind, end))));
    }
    Ok((name, behind))
}

// Whether a file or a directory has this name.
fn is_taken(files: &[FileNode], dirs: &[DirNode], name: &[u8]) -> bool
    requires files { ascend (map file_name files.now) ≡ true }
    requires dirs { ascend (map dir_name dirs.now) ≡ true }
    ensures { result ≡ list_any (same_name name.now) (map file_name files.now ++ map dir_name dirs.now) }
{
    is_file(files, name) || is_dir(dirs, name)
}

// The field of the name of a link that comes behind these, and behind the files and directories.
#[tactic(auto, unfolding(crate::specs::Reading::name_read))]
pub(crate) fn read_link_name<'a>(
    files: &[FileNode],
    dirs: &[DirNode],
    links: &[LinkNode],
    bytes: &'a [u8],
    end: usize,
) -> Result<(&'a [u8], &'a [u8]), DirRefusal>
    requires end { length bytes.now ≤ end }
    requires files { ascend (map file_name files.now) ≡ true }
    requires dirs { ascend (map dir_name dirs.now) ≡ true }
    ensures exact { field_view result ≡ Spec.name_read (Spec.newest link_name links.now) (map file_name files.now ++ map dir_name dirs.now) end bytes.entry.now }
    ensures parts { IfOk result (λ parts. length parts.0.now + length parts.1.now < length bytes.entry.now) }
    ensures named { IfOk result (λ parts. is_name parts.0.now ≡ true) }
{
    let (name, behind) = read_name(bytes, end)?;
    if !follows_link(links, name) || is_taken(files, dirs, name) {
        return Err(DirRefusal::Order(place(name, place(behind, end))));
    }
    Ok((name, behind))
}
