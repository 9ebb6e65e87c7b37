// What a disk in memory leaves by its images, and a disk over a real file.
use io_edge::{Disk, Failed};
use node_disk::{Asked, FileDisk, Image, MemoryDisk, Range};
use std::fs;
use std::test::Fail;

/// Makes room, and writes.
fn write<D: Disk>(disk: &mut D, at: u64, octets: &[u8]) -> Result<(), Failed> {
    let Ok(()) = disk.reserve(octets.len() as u64) else {
        return Err(Failed);
    };
    let total = disk.len()?;
    if at > total {
        return Err(Failed);
    }
    disk.write_at(at, octets)
}

/// Writes `mail`, syncs, and writes `-order` over its end.
fn write_two<D: Disk>(disk: &mut D) -> Result<(), Failed> {
    write(disk, 0, b"mail")?;
    disk.sync()?;
    write(disk, 2, b"-order")
}

#[test]
fn a_restart_leaves_the_chosen_image(rt: HostRuntime) -> Result<(), Fail> {
    for (image, wanted) in [
        (Image::Nothing, b"mail".as_slice()),
        (Image::Front(3), b"ma-or".as_slice()),
        (Image::All, b"ma-order".as_slice()),
        (Image::Garbage(b'?'), b"ma??????".as_slice()),
    ] {
        let mut disk = MemoryDisk::new(rt.alloc());
        disk.leave(image)?;
        assert_eq!(rt; write_two(&mut disk), Ok(()));
        assert_eq!(rt; disk.octets(), b"ma-order".as_slice());
        assert_eq!(rt; disk.restart(), Ok(()));
        assert_eq!(rt; disk.octets(), wanted, "{image:?}");
    }
    Ok(())
}

#[test]
fn a_call_that_is_to_fail_fails(rt: HostRuntime) -> Result<(), Fail> {
    let mut disk = MemoryDisk::new(rt.alloc());
    disk.fail_at(3)?;
    assert_eq!(rt; write_two(&mut disk), Err(Failed));
    let write = Asked::Write(Range { at: 0, length: 4 });
    for (call, wanted) in disk.calls().iter().zip([Asked::Len, write, Asked::Sync]) {
        assert_eq!(rt; call.asked, wanted);
    }
    assert_eq!(rt; disk.restart(), Ok(()));
    assert_eq!(rt; disk.octets(), b"".as_slice());
    Ok(())
}

#[test]
fn a_file_keeps_what_was_written(rt: HostRuntime) -> Result<(), Fail> {
    let folder = "file-disk-test";
    let path = "file-disk-test/journal";
    let _ = fs::remove_file(&rt, path);
    let _ = fs::remove_dir(&rt, folder);
    fs::create_dir(&rt, folder)?;
    let mut disk = FileDisk::open(&rt, path)?;
    assert_eq!(rt; write_two(&mut disk), Ok(()));
    assert_eq!(rt; disk.sync(), Ok(()));
    assert_eq!(rt; disk.len(), Ok(8));
    drop(disk);
    let mut disk = FileDisk::open(&rt, path)?;
    let mut found = [1; 10];
    assert_eq!(rt; disk.read(0, &mut found), Ok(10));
    assert_eq!(rt; found, *b"ma-order\0\0");
    assert_eq!(rt; disk.restart(), Ok(()));
    drop(disk);
    fs::remove_file(&rt, path)?;
    fs::remove_dir(&rt, folder)?;
    Ok(())
}

#[test]
fn a_folder_that_takes_no_file_gives_no_disk(rt: HostRuntime) -> Result<(), Fail> {
    assert!(rt; FileDisk::open(&rt, "/proc/journal").is_err());
    Ok(())
}
