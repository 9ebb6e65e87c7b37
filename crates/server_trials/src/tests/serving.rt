// The word `serve`: what its console is answered, mail that comes in by its doors, and each of its statuses.

use super::text_of;
use io_edge::faulty::{FaultyDoor, FaultySink, FaultySource};
use io_edge::{
    Door, MemoryYard, NamedFile, NoDoor, PlainDisk, Protocol, QuietDoor, SliceSource, VecSink,
};
use porcupine_server::porcupine;
use std::alloc::{AllocError, Global};
use std::process::Abort;
use std::sync::Wait;
use std::test::Fail;
use std::thread::Threads;
use std::time::Clock;

const PLAN_FILE: &str = "nodes = 1
copies = 1
confirm = 1
buckets = 1
postmaster = \"alice\"
folder = \"spool\"
smtp_port = 2525
pop_port = 2110
[[users]]
name = \"alice\"
secret = \"tanstaaf\"
";

/// What clients send by SMTP: a message each, of which the last client goes away in the middle.
const MAILS: [&[u8]; 3] = [
    b"HELO a.example\r\nMAIL FROM:<bob@b.example>\r\nRCPT TO:<alice>\r\nDATA\r\nthe first mail\r\n.\r\nQUIT\r\n",
    b"HELO a.example\r\nMAIL FROM:<>\r\nRCPT TO:<ALICE>\r\nRCPT TO:<nobody>\r\nDATA\r\nthe second mail\r\n.\r\n",
    b"HELO a.example\r\nMAIL FROM:<>\r\nRCPT TO:<alice>\r\nDATA\r\nthe half of a mail\r\n",
];

/// What the yard has, and which call of the outside fails, the first being 1; none where it is 0.
#[derive(Clone, Copy)]
struct Outside {
    file: &'static str,
    console: &'static [u8],
    read: u64,
    write: u64,
    stores: u64,
    doors: u64,
}

/// An outside in which nothing fails, and of which the console says `stop`.
const SOUND: Outside = Outside {
    file: "plan.toml",
    console: b"stop\n",
    read: 0,
    write: 0,
    stores: 1,
    doors: 2,
};

/// What a run left.
#[derive(Drop)]
struct Run<G> {
    status: u8,
    said: Vec<u8>,
    yard: MemoryYard<PlainDisk, G>,
}

// A yard with these doors.
fn yard_of<G: Door + Drop + Send>(
    alloc: Global,
    stores: u64,
    doors: Vec<G>,
) -> Result<MemoryYard<PlainDisk, G>, AllocError> {
    let mut disks = Vec::new(alloc);
    for _ in 0..stores {
        disks.push(PlainDisk::new(alloc))?;
    }
    let mut yard = MemoryYard::with_doors(alloc, disks, doors);
    yard.files.push(NamedFile {
        name: String::from_str(alloc, "plan.toml")?,
        octets: Vec::from_slice(alloc, PLAN_FILE.as_bytes())?,
    })?;
    yard.files.push(NamedFile {
        name: String::from_str(alloc, "zero.toml")?,
        octets: Vec::from_slice(alloc, b"nodes = 0\n")?,
    })?;
    Ok(yard)
}

// Serves over such an outside.
fn serves<G: Door + Drop + Send>(
    rt: &(impl Threads + Wait + Clock + Sync),
    alloc: Global,
    outside: Outside,
    mut yard: MemoryYard<PlainDisk, G>,
) -> Result<Run<G>, AllocError> {
    let mut words = Vec::new(alloc);
    words.push(String::from_str(alloc, "serve")?)?;
    words.push(String::from_str(alloc, outside.file)?)?;
    let mut source = FaultySource::new(SliceSource::new(outside.console), outside.read);
    let mut sink = FaultySink::new(VecSink::new(alloc), outside.write);
    let status = porcupine(rt, alloc, &words, &mut source, &mut sink, &mut yard);
    Ok(Run {
        status,
        said: sink.inner.held,
        yard,
    })
}

// Doors at which nobody is.
fn quiet_doors(alloc: Global, count: u64) -> Result<Vec<NoDoor>, AllocError> {
    let mut doors = Vec::new(alloc);
    for _ in 0..count {
        doors.push(QuietDoor::new(Vec::new(alloc)))?;
    }
    Ok(doors)
}

// Serves with such doors, and compares.
fn gives(
    rt: &(impl Abort + Threads + Wait + Clock + Sync),
    outside: Outside,
    alloc: Global,
    status: u8,
    said: &str,
) -> Result<Run<NoDoor>, Fail> {
    let yard = yard_of(alloc, outside.stores, quiet_doors(alloc, outside.doors)?)?;
    let run = serves(rt, alloc, outside, yard)?;
    assert_eq!(rt; text_of(&run.said), said);
    assert_eq!(rt; run.status, status);
    Ok(run)
}

#[test]
fn the_console_is_answered(rt: HostRuntime) -> Result<(), Fail> {
    let alloc = rt.alloc();
    let cases: [(&'static [u8], u8, &str); 6] = [
        (b"stop\nsum\n", 0, ""),
        (
            b"sum\r\nstop\r\n",
            0,
            "*0 sum acked 0 struck 0 dropped 0 lost 0\n",
        ),
        (
            b"stop it\ncrash 1\nstop\n",
            0,
            "! line 1 BadLine\n*0 node 1 down\n",
        ),
        (b"", 3, "! line 1 BadLine\n"),
        (b"stop", 3, "! line 1 BadLine\n"),
        (
            b"crash 2\nsto",
            3,
            "! line 1 NoSuchNode\n! line 2 BadLine\n",
        ),
    ];
    for (console, status, said) in cases {
        let run = gives(&rt, Outside { console, ..SOUND }, alloc, status, said)?;
        assert_eq!(rt; run.yard.closed.len(), 2);
        assert_eq!(rt; run.yard.returned.len(), 1);
    }
    Ok(())
}

#[test]
fn each_part_of_the_outside_fails(rt: HostRuntime) -> Result<(), Fail> {
    let alloc = rt.alloc();
    let sum = Outside {
        console: b"sum\nstop\n",
        ..SOUND
    };
    let cases: [(Outside, u8, &str); 9] = [
        (
            Outside {
                file: "plan",
                ..SOUND
            },
            4,
            "! read\n",
        ),
        (
            Outside {
                file: "zero.toml",
                ..SOUND
            },
            2,
            "! plan 3\n",
        ),
        (Outside { stores: 0, ..SOUND }, 6, "! disk 0 1\n"),
        (Outside { doors: 0, ..SOUND }, 8, "! doors\n"),
        (Outside { doors: 1, ..SOUND }, 8, "! doors\n"),
        (Outside { read: 1, ..SOUND }, 4, "! read\n"),
        (Outside { write: 1, ..sum }, 5, ""),
        (
            Outside {
                file: "plan",
                write: 1,
                ..SOUND
            },
            5,
            "",
        ),
        (
            Outside { read: 5, ..sum },
            4,
            "*0 sum acked 0 struck 0 dropped 0 lost 0\n! read\n",
        ),
    ];
    for (outside, status, said) in cases {
        let run = gives(&rt, outside, alloc, status, said)?;
        assert_eq!(rt; run.yard.closed.len(), run.yard.opened.len());
        assert_eq!(rt; run.yard.returned.len(), run.yard.handed.len());
    }
    Ok(())
}

#[test]
fn a_store_that_is_not_empty_is_given_back_as_it_was(rt: HostRuntime) -> Result<(), Fail> {
    let alloc = rt.alloc();
    let mut yard = yard_of(alloc, 1, quiet_doors(alloc, 2)?)?;
    if let Some(disk) = yard.left.front_mut() {
        disk.octets.extend_from_slice(b"mail")?;
    }
    let run = serves(&rt, alloc, SOUND, yard)?;
    assert_eq!(rt; run.status, 6);
    assert_eq!(rt; text_of(&run.said), "! disk 0 1\n");
    assert!(rt; run.yard.opened.is_empty());
    match run.yard.returned.last() {
        Some((_, _, disk)) => assert_eq!(rt; disk.octets.as_slice(), b"mail".as_slice()),
        None => assert!(rt; false),
    }
    Ok(())
}

#[test]
fn a_door_that_fails_is_told_before_the_console(rt: HostRuntime) -> Result<(), Fail> {
    let alloc = rt.alloc();
    // Each door fails at its first call, and the console ends early.
    let mut doors = Vec::new(alloc);
    for door in quiet_doors(alloc, 2)? {
        doors.push(FaultyDoor::new(door, 1))?;
    }
    let outside = Outside {
        console: b"sum\n",
        ..SOUND
    };
    let run = serves(&rt, alloc, outside, yard_of(alloc, 1, doors)?)?;
    assert_eq!(rt; run.status, 8);
    assert_eq!(rt;
        text_of(&run.said),
        "*0 sum acked 0 struck 0 dropped 0 lost 0\n! doors\n"
    );
    assert_eq!(rt; run.yard.closed.len(), 2);
    Ok(())
}

// How often the text stands in the octets.
fn times(octets: &[u8], text: &[u8]) -> usize {
    let mut count = 0usize;
    for at in 0..octets.len() {
        let (_, rest) = octets.split_at(at);
        if rest.starts_with(text) {
            count = count.saturating_add(1);
        }
    }
    count
}

#[test]
fn mail_that_comes_in_stands_in_the_store(rt: HostRuntime) -> Result<(), Fail> {
    let alloc = rt.alloc();
    let mut conns = Vec::new(alloc);
    for mail in MAILS {
        conns.push((SliceSource::new(mail), VecSink::new(alloc)))?;
    }
    let mut doors: Vec<NoDoor> = Vec::new(alloc);
    doors.push(QuietDoor::new(conns))?;
    doors.push(QuietDoor::new(Vec::new(alloc)))?;
    let run = serves(&rt, alloc, SOUND, yard_of(alloc, 1, doors)?)?;
    assert_eq!(rt; run.status, 0);
    match run.yard.closed.first() {
        Some((node, protocol, door)) => {
            assert_eq!(rt; *node, 1);
            assert!(rt; *protocol == Protocol::Smtp && door.conns.is_empty() && door.quiets > 0);
        }
        None => assert!(rt; false),
    }
    match run.yard.returned.last() {
        Some((_, _, disk)) => {
            assert_eq!(rt; times(&disk.octets, b"the first mail\r\n"), 1);
            assert_eq!(rt; times(&disk.octets, b"the second mail\r\n"), 1);
            assert_eq!(rt; times(&disk.octets, b"the half"), 0);
        }
        None => assert!(rt; false),
    }
    Ok(())
}
