// A disk that fails in the midst of a node's work, and the node that starts again over what is left; and journals that are there.
use super::lines::node_at;
use super::{acts, plays, started};
use node_core::{Node, NodeFault};
use node_disk::{Image, MemoryDisk};
use std::alloc::Global;
use std::process::Abort;
use std::test::Fail;

/// What a restart leaves of the writes since the last sync.
const IMAGES: [Image; 7] = [
    Image::Nothing,
    Image::All,
    Image::Front(1),
    Image::Front(6),
    Image::Front(30),
    Image::Garbage(0),
    Image::Garbage(0xA5),
];

/// A node that is to do what a line says.
struct Case<'a> {
    number: u8,
    /// What it does before.
    before: &'a [u8],
    line: &'a [u8],
    /// What it does once it has started again, whatever is left of the line.
    after: &'a [u8],
    /// How many disk calls the line takes.
    calls: u64,
}

/// What comes of the case where the call of this number of the line fails; nothing where all is as it is written.
fn falls(alloc: Global, case: &Case, call: u64, image: Image) -> Result<Vec<u8>, NodeFault> {
    let mut disk = MemoryDisk::new(alloc);
    let own = node_at(&[case.number], 0);
    Node::create(alloc, &mut disk, own)?;
    let mut node = started(alloc, &mut disk, own)?;
    let wrong = plays(alloc, &mut disk, &mut node, case.before)?;
    if !wrong.is_empty() {
        return Ok(wrong);
    }
    let made = disk.calls().len() as u64;
    disk.fail_at(made.saturating_add(call))?;
    disk.leave(image)?;
    let mut out = Vec::new(alloc);
    let did = acts(alloc, &mut disk, &mut node, case.line, &mut out);
    if call > case.calls {
        return said(alloc, did == Ok(()));
    }
    if did != Err(NodeFault::Disk) || !out.is_empty() {
        return said(alloc, false);
    }
    let mut again = started(alloc, &mut disk, own)?;
    plays(alloc, &mut disk, &mut again, case.after)
}

fn said(alloc: Global, right: bool) -> Result<Vec<u8>, NodeFault> {
    let mut wrong = Vec::new(alloc);
    if !right {
        wrong.extend_from_slice(b"not so")?;
    }
    Ok(wrong)
}

/// Each call of the line fails in turn, and the one behind the last does not.
fn falls_each(alloc: Global, case: &Case, image: Image) -> Result<Vec<u8>, NodeFault> {
    for call in 1..case.calls.saturating_add(2) {
        let wrong = falls(alloc, case, call, image)?;
        if !wrong.is_empty() {
            return Ok(wrong);
        }
    }
    Ok(Vec::new(alloc))
}

/// It falls at each call, whatever a restart leaves.
fn falls_everywhere(rt: &impl Abort, alloc: Global, case: &Case) -> Result<(), Fail> {
    for image in &IMAGES {
        let Ok(wrong) = falls_each(alloc, case, *image) else {
            panic!(rt; "the node fell");
        };
        assert_eq!(rt; str::from_utf8(&wrong)?, "");
    }
    Ok(())
}

// What each kind of work takes of its disk.
const CASES: [Case<'static>; 10] = [
    Case {
        number: b'2',
        before: b"? - 111 -- - - - - > --- -- - - -",
        line: b"F 1 111 11 3 1 1 1",
        after: b"\
F 1 111 11 3 1 1 1 > f 1 111 -- - - 1 1
? - 111 -- - - - - > 111 11 3 h o1",
        calls: 8,
    },
    Case {
        number: b'2',
        before: b"F 1 111 11 3 1 1 1 > f 1 111 -- - - 1 1",
        line: b"S 1 111 21 - 1 2 1",
        after: b"\
S 1 111 21 - 1 2 1 > s 1 111 -- - 1 2 1
? - 111 -- - - - - > 111 21 7 g o13",
        calls: 4,
    },
    Case {
        number: b'2',
        before: b"? - 111 -- - - - - > --- -- - - -",
        line: b"P 1 111 11 3 h 0 1",
        after: b"\
P 1 111 11 3 h 0 1 > A 1 111 11 3 h - 1
? - 111 -- - - - - > 111 11 3 h o1",
        calls: 8,
    },
    Case {
        number: b'2',
        before: b"P 1 111 11 3 h 0 1 > A 1 111 11 3 h - 1",
        line: b"P 1 111 21 2 g 0 1",
        after: b"\
P 1 111 21 2 g 0 1 > A 1 111 21 2 g - 1
? - 111 -- - - - - > 111 21 3 g o1",
        calls: 4,
    },
    Case {
        number: b'2',
        before: b"? - 111 -- - - - - > --- -- - - -",
        line: b"P 1 111 21 2 g 0 1",
        after: b"\
P 1 111 21 2 g 0 1 > A 1 111 21 2 g - 1
R 1 111 21 2 g 0 1 >
? - 111 -- - - - - > 111 21 2 g -",
        calls: 8,
    },
    Case {
        number: b'2',
        before: b"F 1 111 11 3 1 1 1 > f 1 111 -- - - 1 1",
        line: b"A 1 111 11 3 h 0 1",
        after: b"\
R 1 111 11 3 h 0 1 >
? - 111 -- - - - - > 111 11 3 h o
A 1 111 11 3 h 0 1 >",
        calls: 4,
    },
    Case {
        number: b'2',
        before: b"F 1 111 11 3 1 1 1 > f 1 111 -- - - 1 1",
        line: b"R 1 111 11 3 h 0 1",
        after: b"\
R 1 111 11 3 h 0 1 >
? - 111 -- - - - - > 111 11 3 h o",
        calls: 4,
    },
    Case {
        number: b'1',
        before: b"? - 111 -- - - - - > --- -- - - -",
        line: b"d - --- -- - 1 - -",
        after: b"\
a - --- -- - - 1 - > none
f 2 111 -- - - 1 1 > late",
        calls: 8,
    },
    Case {
        number: b'1',
        before: b"d - --- -- - 1 - - > F 2 111 11 3 1 1 1",
        line: b"w 3 111 -- - - - -",
        after: b"\
d - --- -- - 1 - - > F 2 121 21 3 1 1 1
a - --- -- - - 2 - > none",
        calls: 4,
    },
    Case {
        number: b'1',
        before: b"d - --- -- - 1 - - > F 2 111 11 3 1 1 1",
        line: b"v - --- 72 - - - -",
        after: b"\
? - 111 -- - - - - > 111 11 3 h o2
v - --- 83 - - - - >
V - --- -- - - - - > 3 83",
        calls: 4,
    },
];

#[test]
fn a_failing_disk_takes_the_node_down(rt: HostRuntime) -> Result<(), Fail> {
    for case in &CASES {
        falls_everywhere(&rt, rt.alloc(), case)?;
    }
    Ok(())
}
