// A journal over disks that fail and tear, opened again.
ghost use Rattle.std.specs.Prelude.{◌≡◌, IfSome, []};

use disk_journal::{Journal, JournalFault, Place};
use io_edge::{Disk, PlainDisk};
use mail_base::NodeNo;
use node_disk::{Image, MemoryDisk};
use std::alloc::Global;
use std::test::Fail;

/// The payload of a Boot record of boot 1.
const BOOT: [u8; 5] = [1, 0, 0, 0, 1];

/// The journal of node 1 with that record.
const WITH_BOOT: [u8; 27] =
    *b"PORCUPN1\x00\x01\x00\x00\x00\x00\x00\x00\xA5\x00\x00\x00\x05\x01\x00\x00\x00\x01\x00";

/// Creates a journal, and appends the record of a boot.
fn create_with_boot<D: Disk>(alloc: Global, disk: &mut D) -> Result<Journal, JournalFault>
    requires { IfSome (D.seen disk.old) (λ held. held ≡ []) }
{
    let node = NodeNo::new(1).unwrap();
    let mut journal = Journal::create(alloc, disk, node)?;
    journal.append(alloc, disk, &BOOT, &[])?;
    Ok(journal)
}

/// Appends `mail` to that journal.
fn append_mail<D: Disk>(alloc: Global, disk: &mut D) -> Result<Place, JournalFault> {
    let (mut journal, _) = Journal::open(alloc, disk, NodeNo::new(1).unwrap())?;
    journal.append(alloc, disk, b"ma", b"il")
}

/// How many records the disk's journal has, and the octets of the last, as far as there are four.
fn records<D: Disk>(alloc: Global, disk: &mut D) -> Result<(usize, [u8; 4]), JournalFault> {
    let (journal, places) = Journal::open(alloc, disk, NodeNo::new(1).unwrap())?;
    let mut found = [0; 4];
    if let Some(place) = places.last() {
        journal.read(disk, *place, 0, &mut found)?;
    }
    Ok((places.len(), found))
}

#[test]
fn a_journal_is_created_and_appended_to(rt: HostRuntime) -> Result<(), Fail> {
    let alloc = rt.alloc();
    let mut disk = PlainDisk::new(alloc);
    assert!(rt; Journal::create(alloc, &mut disk, NodeNo::new(1).unwrap()).is_ok());
    assert_eq!(rt;
        disk.octets.as_slice(),
        b"PORCUPN1\x00\x01\x00\x00\x00\x00\x00\x00\x00".as_slice()
    );

    let mut disk = PlainDisk::new(alloc);
    assert!(rt; create_with_boot(alloc, &mut disk).is_ok());
    assert_eq!(rt; disk.octets.as_slice(), WITH_BOOT.as_slice());
    assert_eq!(rt; records(alloc, &mut disk), Ok((1, [1, 0, 0, 0])));
    assert!(rt; append_mail(alloc, &mut disk).is_ok());
    assert_eq!(rt; records(alloc, &mut disk), Ok((2, *b"mail")));
    Ok(())
}

/// How many records there are after an append of which this call fails, and a restart that leaves this image; and what
/// the last record holds after one append more, with the number of records then.
fn survivors(
    alloc: Global,
    call: u64,
    image: Image,
) -> Result<(usize, (usize, [u8; 4])), JournalFault> {
    let mut disk = MemoryDisk::new(alloc);
    disk.fail_at(call)?;
    disk.leave(image)?;
    create_with_boot(alloc, &mut disk)?;
    if append_mail(alloc, &mut disk).is_ok() {
        return Err(JournalFault::NotAJournal);
    }
    disk.restart()?;
    let (left, _) = records(alloc, &mut disk)?;
    append_mail(alloc, &mut disk)?;
    Ok((left, records(alloc, &mut disk)?))
}

#[test]
fn the_record_stands_or_not_whatever_fails(rt: HostRuntime) -> Result<(), Fail> {
    let images = [
        Image::Nothing,
        Image::Front(1),
        Image::All,
        Image::Garbage(0xA5),
        Image::Garbage(0),
    ];
    let without = Ok((1, (2, *b"mail")));
    let with = Ok((2, (3, *b"mail")));
    // The four calls of the second append, which come after a creation of two calls, an append of four and an opening of five.
    for (call, wanted) in [
        (12, [without; 5]),
        (13, [without; 5]),
        (14, [without, with, with, with, without]),
        (15, [without, with, with, with, without]),
    ] {
        for (image, wanted) in images.into_iter().zip(wanted) {
            let found = survivors(rt.alloc(), call, image);
            assert_eq!(rt; found, wanted, "at {call}, {image:?}");
        }
    }
    Ok(())
}

#[test]
fn a_journal_of_any_length_is_opened_or_not(rt: HostRuntime) -> Result<(), Fail> {
    let alloc = rt.alloc();
    let mut whole = Vec::from_slice(alloc, &WITH_BOOT)?;
    whole.extend_from_slice(b"xyz")?;
    for length in 0..=30 {
        let octets = Vec::from_slice(alloc, &whole[..length])?;
        let mut disk = PlainDisk { octets };
        let wanted = if length < 27 {
            Err(JournalFault::NotAJournal)
        } else {
            Ok((1, [1, 0, 0, 0]))
        };
        assert_eq!(rt; records(alloc, &mut disk), wanted, "{length} octets");
        assert_eq!(rt; disk.octets.len(), length);
    }
    Ok(())
}

#[test]
fn what_is_no_journal_is_refused(rt: HostRuntime) -> Result<(), Fail> {
    let alloc = rt.alloc();
    let mut disk = PlainDisk::new(alloc);
    assert!(rt; create_with_boot(alloc, &mut disk).is_ok());
    let second = Journal::open(alloc, &mut disk, NodeNo::new(2).unwrap()).map(|opened| opened
        .0
        .gate());
    assert_eq!(rt; second, Err(JournalFault::NotAJournal));
    let payload = vec![in alloc; 0; 16_842_753]?;
    let (mut journal, _) = match Journal::open(alloc, &mut disk, NodeNo::new(1).unwrap()) {
        Ok(opened) => opened,
        Err(_) => return Err(Fail::new("opened")),
    };
    let large = journal
        .append(alloc, &mut disk, &payload, &[])
        .map(|place| place.at);
    assert_eq!(rt; large, Err(JournalFault::TooLarge));
    Ok(())
}

/// The journal that the document of formats shows, of a cluster of one node that stored one message.
const EXAMPLE: [u8; 239] = *b"PORCUPN1\x00\x01\x00\x00\x00\x00\x00\x00\
\xA5\x00\x00\x00\x05\x01\x00\x00\x00\x01\
\xA5\x00\x00\x00\xA5\x03\x01\x00\x00\x00\x01\x00\x00\x00\x00\x00\x00\x00\x01\
Return-Path: <bob@b.example>\r\n\
Received: from c.example\r\n\
\x20by node1 with SMTP id <1.1.1@node1>;\r\n\
\x20Thu, 01 Jan 1970 00:00:00 +0000\r\n\
Subject: hi\r\n\r\nhello\r\n\
\xA5\x00\x00\x00\x25\x04\x02\x05alice\x01\x00\x00\x00\x01\x00\x00\x00\x00\x00\x00\x00\x01\
\x01\x00\x00\x00\x00\x00\x00\x00\x01\x00\x00\x00\x01\x01\x00\x01\x00";

#[test]
fn the_example_of_the_formats_is_opened(rt: HostRuntime) -> Result<(), Fail> {
    let alloc = rt.alloc();
    let octets = Vec::from_slice(alloc, &EXAMPLE)?;
    let mut disk = PlainDisk { octets };
    let Ok((journal, places)) = Journal::open(alloc, &mut disk, NodeNo::new(1).unwrap()) else {
        return Err(Fail::new("not opened"));
    };
    assert_eq!(rt; journal.gate(), 238);
    assert_eq!(rt; places.len(), 3);
    for (place, wanted) in places.iter().zip([(21, 5), (31, 165), (201, 37)]) {
        assert_eq!(rt; (place.at, place.length), wanted);
    }
    let Some(message) = places.get(1) else {
        return Err(Fail::new("no message"));
    };
    let mut found = [0; 11];
    assert_eq!(rt; journal.read(&mut disk, *message, 14, &mut found), Ok(11));
    assert_eq!(rt; found, *b"Return-Path");
    Ok(())
}
