// A Directory message, written.
ghost use Rattle.std.specs.Prelude.{◌≡◌, ◌++◌, IfOk, OnOk};
ghost use Rattle.std.specs.List.{flat_map};
ghost use Rattle.reapi_dir.specs.Grammar.{IsMessage, Spells};
ghost use Rattle.reapi_dir.specs.Spelling.{dir_text, file_text, link_text, spelled};

use crate::fields::{push_dir, push_file, push_link};
use crate::message::{DirMessage, DirNode, FileNode, LinkNode};
use mat_path::Memory;
use std::alloc::Global;

/// The bytes of a Directory message in their one canonical form (Remote Execution API v2, `Directory`): files, then directories, then
/// links, each in the order of its list, with the shortest varints and no field at its default. It is refused for want of memory alone.
/// Where the message meets the rules these bytes spell it, so that they are read as it.
pub fn write_dir(alloc: Global, message: &DirMessage) -> Result<Vec<u8>, Memory>
    ensures ok { IfOk result (λ bytes. bytes.items ≡ spelled message.now) }
    ensures back { IsMessage message.now → IfOk result (λ bytes. Spells bytes.items message.now) }
{
    write_all(alloc, message)
}

// The bytes of a message.
fn write_all(alloc: Global, message: &DirMessage) -> Result<Vec<u8>, Memory>
    ensures { IfOk result (λ bytes. bytes.items ≡ spelled message.now) }
{
    let mut out = Vec::new(alloc);
    push_files(&mut out, message.files.as_slice())?;
    push_dirs(&mut out, message.dirs.as_slice())?;
    push_links(&mut out, message.links.as_slice())?;
    Ok(out)
}

// Appends the fields of files.
fn push_files(out: &mut Vec<u8>, files: &[FileNode]) -> Result<(), Memory>
    ensures { OnOk result (out.new.items ≡ out.old.items ++ flat_map file_text files.now) }
{
    for file in files {
        push_file(out, &file.name, &file.digest, file.exec)?;
    }
    Ok(())
}

// Appends the fields of directories.
fn push_dirs(out: &mut Vec<u8>, dirs: &[DirNode]) -> Result<(), Memory>
    ensures { OnOk result (out.new.items ≡ out.old.items ++ flat_map dir_text dirs.now) }
{
    for dir in dirs {
        push_dir(out, &dir.name, &dir.digest)?;
    }
    Ok(())
}

// Appends the fields of links.
fn push_links(out: &mut Vec<u8>, links: &[LinkNode]) -> Result<(), Memory>
    ensures { OnOk result (out.new.items ≡ out.old.items ++ flat_map link_text links.now) }
{
    for link in links {
        push_link(out, &link.name, &link.target)?;
    }
    Ok(())
}
