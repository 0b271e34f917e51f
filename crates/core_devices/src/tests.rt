use crate::{Removal, remove_rows, return_parts, store_row, take_parts};
use keep_port::{MemKeeper, RawRow};
use mat_io::Arm;
use mat_model::Recorded;
use mat_path::{Items, Path};
use region_port::MemDisk;
use std::test::Fail;

#[test]
fn rows_come_and_go(rt: HostRuntime) -> Result<(), Fail> {
    let alloc = rt.alloc();
    let mut keeper = MemKeeper::new(alloc, Vec::new(alloc));
    let row = RawRow {
        path: Items::of(Vec::from_slice(alloc, b"out/a")?),
        body: Items::of(Vec::from_slice(alloc, b"abc")?),
        last: 1,
    };
    assert_eq!(rt; store_row(&mut keeper, row), Recorded::Kept);
    let paths = [Path::read(alloc, b"out/a")?];
    keeper.arm();
    assert_eq!(rt; remove_rows(&mut keeper, &[]), Removal::Done);
    assert_eq!(rt;
        matches!(remove_rows(&mut keeper, &paths), Removal::Failed(_)),
        true
    );
    assert_eq!(rt; remove_rows(&mut keeper, &paths), Removal::Done);
    Ok(())
}

#[test]
fn a_part_goes_and_comes(rt: HostRuntime) -> Result<(), Fail> {
    let alloc = rt.alloc();
    let path = Path::read(alloc, b"out/a")?;
    let mut disk = MemDisk::new(alloc);
    let taken = take_parts(&mut disk, &path, None)?;
    assert_eq!(rt; disk.lent(&path), true);
    return_parts(&mut disk, taken.region, None);
    assert_eq!(rt; disk.lent(&path), false);
    Ok(())
}
