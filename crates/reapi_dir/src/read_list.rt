// The three lists of a directory, each read from the front of the bytes that are left before the offset `end`, as long as its key comes.
ghost use Rattle.std.specs.Prelude.{◌≡◌, ◌⊎◌, ◌<◌, ◌≤◌, ◌++◌, [], true, map, length, IfOk, IfErr};
ghost use Rattle.mat_path.specs.Names.{is_name, is_target};
ghost use Rattle.reapi_dir.specs.Grammar.{ascend, dir_name, file_name, link_name};
ghost use Rattle.reapi_dir.specs.Reading as Spec;

use crate::message::{DirNode, FileNode, LinkNode};
use crate::read_node::{read_dir_node, read_file_node, read_link_node};
use crate::read_wire::{begins_with, place, read_field};
use crate::refusal::DirRefusal;
use mat_digest::Digest;
use mat_path::{Name, Target};
use std::alloc::{AllocFailed, Global};

// The key of `files`.
const FILES: u8 = 0x0a;
// The key of `directories`.
const DIRECTORIES: u8 = 0x12;
// The key of `symlinks`.
const SYMLINKS: u8 = 0x1a;

impl<T: Drop> From<AllocFailed<T>> for DirRefusal {
    ghost use Rattle.std.specs.Prelude.{◌≡◌};
    ghost use Rattle.reapi_dir.specs.declared.refusal.DirRefusal.TheVariants.{NoMemory};

    ghost from_gives = { λ _ e. e ≡ NoMemory };

    fn from(_: AllocFailed<T>) -> DirRefusal {
        DirRefusal::NoMemory
    }
}

// The name of bytes that are one: nothing but memory may be wanting.
fn own_name(alloc: Global, bytes: &[u8]) -> Result<Name, DirRefusal>
    requires { is_name bytes.now ≡ true }
    ensures ok { IfOk result (λ name. name ≡ bytes.now) }
    ensures err { IfErr result (λ e. e ≡ DirRefusal.NoMemory) }
{
    match Name::read(alloc, bytes) {
        Ok(name) => Ok(name),
        Err(_) => Err(DirRefusal::NoMemory),
    }
}

// The target of bytes that are one: nothing but memory may be wanting.
fn own_target(alloc: Global, bytes: &[u8]) -> Result<Target, DirRefusal>
    requires { is_target bytes.now ≡ true }
    ensures ok { IfOk result (λ target. target ≡ bytes.now) }
    ensures err { IfErr result (λ e. e ≡ DirRefusal.NoMemory) }
{
    match Target::read(alloc, bytes) {
        Ok(target) => Ok(target),
        Err(_) => Err(DirRefusal::NoMemory),
    }
}

// The next file behind these, and the bytes behind it.
#[tactic(auto, unfolding(crate::specs::Reading::next_file_read))]
fn next_file<'a>(
    alloc: Global,
    files: &[FileNode],
    bytes: &'a [u8],
    end: usize,
) -> Result<(FileNode, &'a [u8]), DirRefusal>
    requires { length bytes.now ≤ end }
    ensures ok { IfOk result (λ next. Spec.next_file_read files.now end bytes.entry.now ≡ Ok (next.0, next.1.now)) }
    ensures err { IfErr result (λ e. (e ≡ DirRefusal.NoMemory) ⊎ (Spec.next_file_read files.now end bytes.entry.now ≡ Err e)) }
    ensures shorter { IfOk result (λ next. length next.1.now < length bytes.entry.now) }
{
    let (message, behind) = read_field(u64::from(FILES), bytes, end)?;
    let (name, digest, exec) = read_file_node(files, message, place(behind, end))?;
    let name = own_name(alloc, name)?;
    Ok((FileNode { name, digest, exec }, behind))
}

// The next directory behind these, and the bytes behind it.
#[tactic(auto, unfolding(crate::specs::Reading::next_dir_read))]
fn next_dir<'a>(
    alloc: Global,
    files: &[FileNode],
    dirs: &[DirNode],
    bytes: &'a [u8],
    end: usize,
) -> Result<(DirNode, &'a [u8]), DirRefusal>
    requires end { length bytes.now ≤ end }
    requires files { ascend (map file_name files.now) ≡ true }
    ensures ok { IfOk result (λ next. Spec.next_dir_read (map file_name files.now) dirs.now end bytes.entry.now ≡ Ok (next.0, next.1.now)) }
    ensures err { IfErr result (λ e. (e ≡ DirRefusal.NoMemory) ⊎ (Spec.next_dir_read (map file_name files.now) dirs.now end bytes.entry.now ≡ Err e)) }
    ensures shorter { IfOk result (λ next. length next.1.now < length bytes.entry.now) }
{
    let (message, behind) = read_field(u64::from(DIRECTORIES), bytes, end)?;
    let (name, digest) = read_dir_node(files, dirs, message, place(behind, end))?;
    let name = own_name(alloc, name)?;
    Ok((DirNode { name, digest }, behind))
}

// The next link behind these, and the bytes behind it.
#[tactic(auto, unfolding(crate::specs::Reading::next_link_read))]
fn next_link<'a>(
    alloc: Global,
    files: &[FileNode],
    dirs: &[DirNode],
    links: &[LinkNode],
    bytes: &'a [u8],
    end: usize,
) -> Result<(LinkNode, &'a [u8]), DirRefusal>
    requires end { length bytes.now ≤ end }
    requires files { ascend (map file_name files.now) ≡ true }
    requires dirs { ascend (map dir_name dirs.now) ≡ true }
    ensures ok { IfOk result (λ next. Spec.next_link_read (map file_name files.now ++ map dir_name dirs.now) links.now end bytes.entry.now ≡ Ok (next.0, next.1.now)) }
    ensures err { IfErr result (λ e. (e ≡ DirRefusal.NoMemory) ⊎ (Spec.next_link_read (map file_name files.now ++ map dir_name dirs.now) links.now end bytes.entry.now ≡ Err e)) }
    ensures shorter { IfOk result (λ next. length next.1.now < length bytes.entry.now) }
{
    let (message, behind) = read_field(u64::from(SYMLINKS), bytes, end)?;
    let (name, target) = read_link_node(files, dirs, links, message, place(behind, end))?;
    let name = own_name(alloc, name)?;
    let target = own_target(alloc, target)?;
    Ok((LinkNode { name, target }, behind))
}

// The files, of which there may be `room`, and the bytes behind them.
pub(crate) fn read_files(
    alloc: Global,
    room: usize,
    bytes: &[u8],
    end: usize,
) -> Result<(Vec<FileNode>, &[u8]), DirRefusal>
    requires { length bytes.now ≤ end }
    ensures ok { IfOk result (λ read. Spec.files_read room [] end bytes.entry.now ≡ Ok (read.0.items, read.1.now)) }
    ensures err { IfErr result (λ e. (e ≡ DirRefusal.NoMemory) ⊎ (Spec.files_read room [] end bytes.entry.now ≡ Err e)) }
    ensures within { IfOk result (λ read. length read.1.now ≤ length bytes.entry.now) }
{
    let mut files = Vec::new(alloc);
    let mut rest = bytes;
    let mut left = room;
    'files: while begins_with(FILES, rest) {
        if left == 0 {
            return Err(DirRefusal::Many(place(rest, end)));
        }
        let (file, behind) = next_file(alloc, files.as_slice(), rest, end)?;
        files.push(file)?;
        rest = behind;
        left -= 1;
    }
    Ok((files, rest))
}

// The directories behind these files, of which there may be `room`, and the bytes behind them.
pub(crate) fn read_dirs<'a>(
    alloc: Global,
    files: &[FileNode],
    room: usize,
    bytes: &'a [u8],
    end: usize,
) -> Result<(Vec<DirNode>, &'a [u8]), DirRefusal>
    requires end { length bytes.now ≤ end }
    requires files { ascend (map file_name files.now) ≡ true }
    ensures ok { IfOk result (λ read. Spec.dirs_read (map file_name files.now) room [] end bytes.entry.now ≡ Ok (read.0.items, read.1.now)) }
    ensures err { IfErr result (λ e. (e ≡ DirRefusal.NoMemory) ⊎ (Spec.dirs_read (map file_name files.now) room [] end bytes.entry.now ≡ Err e)) }
    ensures within { IfOk result (λ read. length read.1.now ≤ length bytes.entry.now) }
{
    let mut dirs = Vec::new(alloc);
    let mut rest = bytes;
    let mut left = room;
    'dirs: while begins_with(DIRECTORIES, rest) {
        if left == 0 {
            return Err(DirRefusal::Many(place(rest, end)));
        }
        let (dir, behind) = next_dir(alloc, files, dirs.as_slice(), rest, end)?;
        dirs.push(dir)?;
        rest = behind;
        left -= 1;
    }
    Ok((dirs, rest))
}

// The links behind these files and directories, of which there may be `room`, and the bytes behind them.
pub(crate) fn read_links<'a>(
    alloc: Global,
    files: &[FileNode],
    dirs: &[DirNode],
    room: usize,
    bytes: &'a [u8],
    end: usize,
) -> Result<(Vec<LinkNode>, &'a [u8]), DirRefusal>
    requires end { length bytes.now ≤ end }
    requires files { ascend (map file_name files.now) ≡ true }
    requires dirs { ascend (map dir_name dirs.now) ≡ true }
    ensures ok { IfOk result (λ read. Spec.links_read (map file_name files.now ++ map dir_name dirs.now) room [] end bytes.entry.now ≡ Ok (read.0.items, read.1.now)) }
    ensures err { IfErr result (λ e. (e ≡ DirRefusal.NoMemory) ⊎ (Spec.links_read (map file_name files.now ++ map dir_name dirs.now) room [] end bytes.entry.now ≡ Err e)) }
    ensures within { IfOk result (λ read. length read.1.now ≤ length bytes.entry.now) }
{
    let mut links = Vec::new(alloc);
    let mut rest = bytes;
    let mut left = room;
    'links: while begins_with(SYMLINKS, rest) {
        if left == 0 {
            return Err(DirRefusal::Many(place(rest, end)));
        }
        let (link, behind) = next_link(alloc, files, dirs, links.as_slice(), rest, end)?;
        links.push(link)?;
        rest = behind;
        left -= 1;
    }
    Ok((links, rest))
}
