// The nodes of a directory, each from all the bytes of its message, which end before the offset `end` (Remote Execution API v2, `FileNode`,
// `DirectoryNode`, `SymlinkNode`).
ghost use Rattle.std.specs.Prelude.{◌≡◌, ◌≤◌, ◌++◌, true, map, length, IfOk};
ghost use Rattle.mat_path.specs.Names.{is_name, is_target};
ghost use Rattle.reapi_dir.specs.Grammar.{ascend, dir_name, file_name, link_name};
ghost use Rattle.reapi_dir.specs.Reading as Spec;

use crate::message::{DirNode, FileNode, LinkNode};
use crate::read_digest::read_digest_field;
use crate::read_name::{read_dir_name, read_file_name, read_link_name, read_target};
use crate::read_wire::{place, read_key, read_last, read_varint};
use crate::refusal::DirRefusal;
use mat_digest::Digest;
use mat_tree::GREATEST_FILE;

// The key of `is_executable`.
const IS_EXECUTABLE: u64 = 0x20;
// The greatest size of a directory.
const GREATEST_DIR: u64 = (1 << 63) - 1;

// A flag that was read at this offset: a flag that isn't set isn't written.
fn flag_at(at: usize, number: u64) -> Result<bool, DirRefusal>
    ensures { result ≡ Spec.flag_at at number }
{
    if number == 1 {
        Ok(true)
    } else {
        Err(DirRefusal::Varint(at))
    }
}

// The field of the flag, behind which nothing may stand.
#[tactic(auto, unfolding(crate::specs::Reading::exec_field_read))]
fn read_exec_field(bytes: &[u8], end: usize) -> Result<bool, DirRefusal>
    requires { length bytes.now ≤ end }
    ensures { result ≡ Spec.exec_field_read end bytes.now }
{
    let behind = read_key(IS_EXECUTABLE, bytes, end)?;
    let (number, rest) = read_varint(behind, end)?;
    let flag = flag_at(place(behind, end), number)?;
    read_last(rest, end)?;
    Ok(flag)
}

// Whether a file is executable, which it isn't where the field doesn't stand.
fn read_exec(bytes: &[u8], end: usize) -> Result<bool, DirRefusal>
    requires { length bytes.now ≤ end }
    ensures { result ≡ Spec.exec_read end bytes.now }
{
    if bytes.is_empty() {
        return Ok(false);
    }
    read_exec_field(bytes, end)
}

// A file that comes behind these.
#[tactic(auto, unfolding(crate::specs::Reading::file_read))]
pub(crate) fn read_file_node<'a>(
    files: &[FileNode],
    bytes: &'a [u8],
    end: usize,
) -> Result<(&'a [u8], Digest, bool), DirRefusal>
    requires { length bytes.now ≤ end }
    ensures exact { Spec.file_view result ≡ Spec.file_read (Spec.newest file_name files.now) end bytes.entry.now }
    ensures named { IfOk result (λ node. is_name node.0.now ≡ true) }
{
    let (name, behind) = read_file_name(files, bytes, end)?;
    let (digest, rest) = read_digest_field(GREATEST_FILE, behind, end)?;
    let exec = read_exec(rest, end)?;
    Ok((name, digest, exec))
}

// A directory that comes behind these, and behind the files.
#[tactic(auto, unfolding(crate::specs::Reading::dir_read))]
pub(crate) fn read_dir_node<'a>(
    files: &[FileNode],
    dirs: &[DirNode],
    bytes: &'a [u8],
    end: usize,
) -> Result<(&'a [u8], Digest), DirRefusal>
    requires end { length bytes.now ≤ end }
    requires files { ascend (map file_name files.now) ≡ true }
    ensures exact { Spec.dir_view result ≡ Spec.dir_read (Spec.newest dir_name dirs.now) (map file_name files.now) end bytes.entry.now }
    ensures named { IfOk result (λ node. is_name node.0.now ≡ true) }
{
    let (name, behind) = read_dir_name(files, dirs, bytes, end)?;
    let (digest, rest) = read_digest_field(GREATEST_DIR, behind, end)?;
    read_last(rest, end)?;
    Ok((name, digest))
}

// A link that comes behind these, and behind the files and directories.
#[tactic(auto, unfolding(crate::specs::Reading::link_read))]
pub(crate) fn read_link_node<'a>(
    files: &[FileNode],
    dirs: &[DirNode],
    links: &[LinkNode],
    bytes: &'a [u8],
    end: usize,
) -> Result<(&'a [u8], &'a [u8]), DirRefusal>
    requires end { length bytes.now ≤ end }
    requires files { ascend (map file_name files.now) ≡ true }
    requires dirs { ascend (map dir_name dirs.now) ≡ true }
    ensures exact { Spec.link_view result ≡ Spec.link_read (Spec.newest link_name links.now) (map file_name files.now ++ map dir_name dirs.now) end bytes.entry.now }
    ensures named { IfOk result (λ node. is_name node.0.now ≡ true) }
    ensures target { IfOk result (λ node. is_target node.1.now ≡ true) }
{
    let (name, behind) = read_link_name(files, dirs, links, bytes, end)?;
    let (target, rest) = read_target(behind, end)?;
    read_last(rest, end)?;
    Ok((name, target))
}
