// Groups of several nodes: coordinators whose letters interleave, nodes that stop in a round, and whole regroups.
ghost use Rattle.std.specs.Prelude.{◌≤◌, ◌<◌, IfOk};
ghost use Rattle.cluster_world.specs.Worlds.{CanMakeSteps};
ghost use Rattle.cluster_trials.specs.Disks.{octets_told};

use crate::open_fresh;
use crate::tests::steps::{holds, left_of, post_again};
use crate::tests::telling::members;
use crate::tests::{digit, make, opened, opened_over, plan_of};
use cluster_world::{OpenFault, World};
use io_edge::Disk;
use node_disk::MemoryDisk;
use std::alloc::{AllocError, Global};
use std::test::Fail;

/// A cluster of four nodes, in which two have to confirm a message, and two have a copy.
pub(super) fn four(alloc: Global) -> Result<World<MemoryDisk>, OpenFault>
    ensures { IfOk result (λ world. CanMakeSteps octets_told world) }
{
    open_fresh(alloc, plan_of(alloc, 4, 2)?, 0, 0)
}

/// How many of these rows are left once one did not answer as it is to, in a cluster of three nodes.
fn left(alloc: Global, rows: &[[u8; 6]]) -> Result<usize, OpenFault> {
    let mut world = opened(alloc, 2)?;
    Ok(left_of(alloc, &mut world, rows)?)
}

#[test]
fn coordinators_interleave(rt: HostRuntime) -> Result<(), Fail> {
    let rows = [
        // Node 1 opens 2.1, node 2 opens 2.2, and node 3 hears the later one first.
        *b"g1. g2", *b"g2. g2", *b"P4. H.", *b"P2. To", *b"P5. H.", *b"P6. H.",
        // Node 2 has promised 2.2, and so has node 1 once it hears of it: its own group is closed.
        *b"P1. To", *b"P3. H.", *b"P7. Tl", *b"P8. H.", *b"c1. ng", *b"c2. c7", *b"P9. H.",
        *b"Pa. H.",
        // An older group opens nothing, and is told of the later one.
        *b"g1. g3", *b"Pb. H.", *b"Xc. ..", *b"Pd. H.", *b"c1. c3", *b"Pe. H.",
    ];
    assert_eq!(rt; left(rt.alloc(), &rows), Ok(0));
    Ok(())
}

#[test]
fn node_stops_before_its_join_is_heard(rt: HostRuntime) -> Result<(), Fail> {
    let rows = [
        // Node 2 has promised 2.1 and answered, and stops. It is a member by its Join, and hears nothing of that.
        *b"g1. g2", *b"P1. H.", *b"C2. ..", *b"P3. H.", *b"P2. H.", *b"P4. H.", *b"c1. c7",
        *b"P5. Td", *b"P6. H.",
        // In its next boot it is no member: the Install that comes too late names its first.
        *b"S2. U2", *b"g1. g3", *b"P7. H.", *b"X8. ..", *b"c1. c1", *b"P9. Tl", *b"R1. 47",
        *b"R2. 57",
    ];
    assert_eq!(rt; left(rt.alloc(), &rows), Ok(0));
    Ok(())
}

#[test]
fn installs_name_a_boot(rt: HostRuntime) -> Result<(), Fail> {
    let rows = [
        *b"g1. g2", *b"P1. H.", *b"P3. H.", *b"X2. ..", *b"c1. c3", *b"C2. ..", *b"S2. U2",
        *b"P4. Tm", *b"R2. 37",
    ];
    assert_eq!(rt; left(rt.alloc(), &rows), Ok(0));
    Ok(())
}

#[test]
fn node_fails_in_its_promise(rt: HostRuntime) -> Result<(), Fail> {
    let alloc = rt.alloc();
    let mut fell = 0u32;
    for call in 1..40u64 {
        let Ok(mut world) = opened_over(alloc, 2, 2, call) else {
            continue;
        };
        let came = make(alloc, &mut world, b'R', b'1', b'.')?;
        if came == *b"27" {
            break;
        }
        // It answered nothing, so the next group is without it, and starts it again after that.
        assert_eq!(rt; came, *b"!2", "call {call}");
        assert!(rt; world.flying().is_some(), "call {call}");
        assert_eq!(rt;
            make(alloc, &mut world, b'R', b'1', b'.')?,
            *b"35",
            "call {call}"
        );
        assert_eq!(rt;
            make(alloc, &mut world, b'S', b'2', b'.')?,
            *b"U2",
            "call {call}"
        );
        assert_eq!(rt;
            make(alloc, &mut world, b'R', b'3', b'.')?,
            *b"47",
            "call {call}"
        );
        fell = fell.saturating_add(1);
    }
    assert!(rt; 0 < fell && fell < 20, "{fell} calls");
    Ok(())
}

#[test]
fn coordinator_stops_before_it_concludes(rt: HostRuntime) -> Result<(), Fail> {
    let rows = [
        *b"g1. g2", *b"P1. H.", *b"P2. H.", *b"C1. ..", *b"P3. Td", *b"P4. Td", *b"c1. do",
        *b"R2. 36", *b"S1. U2", *b"c1. ng", *b"R3. 47", *b"D1. B1", *b"R1. 57",
    ];
    assert_eq!(rt; left(rt.alloc(), &rows), Ok(0));
    Ok(())
}

#[test]
fn two_of_four_go_on(rt: HostRuntime) -> Result<(), Fail> {
    let alloc = rt.alloc();
    let Ok(mut world) = four(alloc) else {
        panic!(rt; "no cluster");
    };
    let rows = [
        *b"L3. ..", *b"L4. ..", *b"R1. 23", *b"D1. B1", *b"P6. H.", *b"P7. H.", *b"A11 S3",
        *b"R3. lo", *b"R4. lo", *b"R5. n?",
    ];
    assert_eq!(rt; left_of(alloc, &mut world, &rows)?, 0);
    assert!(rt; members(&world, 1) == 3 && members(&world, 2) == 3 && members(&world, 3) == 0);
    let disks = world.close();
    assert!(rt; holds(alloc, &disks, 0, b"BPEO3")?);
    assert!(rt; holds(alloc, &disks, 1, b"BPEO3")?);
    assert!(rt; holds(alloc, &disks, 2, b"BP")?);
    Ok(())
}

#[test]
fn started_node_is_let_in(rt: HostRuntime) -> Result<(), Fail> {
    let alloc = rt.alloc();
    let Ok(mut world) = opened(alloc, 2) else {
        panic!(rt; "no cluster");
    };
    // A message of the first epoch waits, and is stale once its receiver has entered the second.
    let rows = [*b"D1. B1", *b"C2. ..", *b"R2. do", *b"S2. U2"];
    assert_eq!(rt; left_of(alloc, &mut world, &rows)?, 0);
    assert!(rt; members(&world, 1) == 7 && members(&world, 2) == 0);
    assert_eq!(rt; make(alloc, &mut world, b'R', b'2', b'.')?, *b"27");
    assert!(rt; members(&world, 1) == 7 && members(&world, 2) == 7 && members(&world, 3) == 7);
    assert_eq!(rt; make(alloc, &mut world, b'P', b'1', b'.')?, *b"Ts");
    Ok(())
}

#[test]
fn full_flight_refuses_a_regroup(rt: HostRuntime) -> Result<(), Fail> {
    let alloc = rt.alloc();
    let Ok(mut world) = opened(alloc, 2) else {
        panic!(rt; "no cluster");
    };
    assert_eq!(rt; make(alloc, &mut world, b'D', b'1', b'.')?, *b"B1");
    // 65,519 letters leave room for 17, and one less for 18.
    assert!(rt; post_again(alloc, &mut world, 65_518)?);
    assert_eq!(rt; make(alloc, &mut world, b'R', b'1', b'.')?, *b"ro");
    assert_eq!(rt; make(alloc, &mut world, b'X', b'1', b'.')?, *b"..");
    assert_eq!(rt; make(alloc, &mut world, b'R', b'1', b'.')?, *b"27");
    Ok(())
}

/// What the letters of two groups lead to: node 1 opens that of 2.1, and then node 2 that of 2.2. So letters 1 and 2 are those of
/// node 1, to nodes 2 and 3, and letters 3 and 4 those of node 2, to nodes 1 and 3.
#[derive(Drop)]
struct Groups {
    // what comes on its own: the Joins of node 3; else the Installs
    joins: bool,
    sent: u64,
    // What may come next: node 1 asks node 2, as `a`, and node 3, as `b`, whose Join comes, as `j`; it concludes, as `c`, and its
    // Install comes, as `i`. Of node 2 these are `A`, `B`, `J`, `C` and `I`.
    waiting: Vec<u8>,
    // the letters that come on their own: the Join of node 3, and the first Install
    join: u64,
    later_join: u64,
    install: u64,
    later_install: u64,
    // whether the group is open
    open: bool,
    later_open: bool,
    // who has joined it
    joined: u64,
    later_joined: u64,
    // what node 3 has promised
    promised: bool,
    later_promised: bool,
    // the members that each node knows
    one: u64,
    two: u64,
    three: u64,
}

/// The row of a letter that is posted, and of what its receiver says.
fn posted(letter: u64, said: [u8; 2]) -> [u8; 6] {
    let [kind, why] = said;
    [b'P', digit(letter), b'.', b' ', kind, why]
}

/// What is said of a Join, by whether its group is open.
fn joined(open: bool) -> [u8; 2] {
    if open { *b"H." } else { *b"Tl" }
}

impl Groups {
    fn new(alloc: Global, joins: bool) -> Result<Groups, AllocError> {
        Ok(Groups {
            joins,
            sent: 4,
            waiting: b"abcABC".to_vec(alloc)?,
            join: 0,
            later_join: 0,
            install: 0,
            later_install: 0,
            open: true,
            later_open: true,
            joined: 1,
            later_joined: 2,
            promised: false,
            later_promised: false,
            one: 7,
            two: 7,
            three: 7,
        })
    }

    /// The number of the next letter.
    fn send(&mut self) -> u64 {
        self.sent = self.sent.saturating_add(1);
        self.sent
    }

    /// Node 1 asks node 2, which has promised the later epoch.
    fn ask_two(&mut self, rows: &mut Vec<[u8; 6]>) -> Result<(), AllocError> {
        rows.push(posted(1, *b"To"))?;
        let join = self.send();
        rows.push(posted(join, joined(self.open)))?;
        Ok(())
    }

    /// Node 1 asks node 3.
    fn ask_three(&mut self, rows: &mut Vec<[u8; 6]>) -> Result<(), AllocError> {
        if self.later_promised {
            rows.push(posted(2, *b"To"))?;
        } else {
            self.promised = true;
            rows.push(posted(2, *b"H."))?;
        }
        self.join = self.send();
        if self.joins {
            self.waiting.push(b'j')?;
            return Ok(());
        }
        self.join_three(rows)
    }

    /// The Join of node 3 comes to node 1. It counts where the node promised this epoch.
    fn join_three(&mut self, rows: &mut Vec<[u8; 6]>) -> Result<(), AllocError> {
        if self.open && self.promised {
            self.joined = 5;
        }
        rows.push(posted(self.join, joined(self.open)))?;
        Ok(())
    }

    /// Node 1 concludes its group, if that is open.
    fn conclude(&mut self, rows: &mut Vec<[u8; 6]>) -> Result<(), AllocError> {
        if !self.open {
            rows.push(*b"c1. ng")?;
            return Ok(());
        }
        self.open = false;
        self.one = self.joined;
        rows.push([b'c', b'1', b'.', b' ', b'c', digit(self.joined)])?;
        if self.joined == 1 {
            return Ok(());
        }
        self.install = self.send();
        if self.joins {
            self.install_three(rows)
        } else {
            self.waiting.push(b'i')?;
            Ok(())
        }
    }

    /// The Install of node 1 comes to node 3.
    fn install_three(&mut self, rows: &mut Vec<[u8; 6]>) -> Result<(), AllocError> {
        if self.later_promised {
            rows.push(posted(self.install, *b"To"))?;
            return Ok(());
        }
        self.three = self.joined;
        rows.push(posted(self.install, *b"H."))?;
        Ok(())
    }

    /// Node 2 asks node 1.
    fn later_ask_one(&mut self, rows: &mut Vec<[u8; 6]>) -> Result<(), AllocError> {
        rows.push(posted(3, *b"H."))?;
        self.open = false;
        let join = self.send();
        if self.later_open {
            self.later_joined |= 1;
        }
        rows.push(posted(join, joined(self.later_open)))?;
        Ok(())
    }

    /// Node 2 asks node 3.
    fn later_ask_three(&mut self, rows: &mut Vec<[u8; 6]>) -> Result<(), AllocError> {
        rows.push(posted(4, *b"H."))?;
        self.later_promised = true;
        self.later_join = self.send();
        if self.joins {
            self.waiting.push(b'J')?;
            return Ok(());
        }
        self.later_join_three(rows)
    }

    /// The Join of node 3 comes to node 2.
    fn later_join_three(&mut self, rows: &mut Vec<[u8; 6]>) -> Result<(), AllocError> {
        if self.later_open {
            self.later_joined |= 4;
        }
        rows.push(posted(self.later_join, joined(self.later_open)))?;
        Ok(())
    }

    /// Node 2 concludes its group.
    fn later_conclude(&mut self, rows: &mut Vec<[u8; 6]>) -> Result<(), AllocError> {
        self.later_open = false;
        self.two = self.later_joined;
        rows.push([b'c', b'2', b'.', b' ', b'c', digit(self.later_joined)])?;
        if self.later_joined == 2 {
            return Ok(());
        }
        self.later_install = self.send();
        if self.later_joined == 7 {
            self.send();
        }
        if self.joins {
            self.later_installs(rows)
        } else {
            self.waiting.push(b'I')?;
            Ok(())
        }
    }

    /// The Installs of node 2 come to their members.
    fn later_installs(&mut self, rows: &mut Vec<[u8; 6]>) -> Result<(), AllocError> {
        let mut letter = self.later_install;
        if self.later_joined & 1 == 1 {
            self.one = self.later_joined;
            rows.push(posted(letter, *b"H."))?;
            letter = letter.saturating_add(1);
        }
        if self.later_joined & 4 == 4 {
            self.three = self.later_joined;
            rows.push(posted(letter, *b"H."))?;
        }
        Ok(())
    }

    /// What comes next, as rows of steps and answers.
    fn rows(&mut self, alloc: Global, event: u8) -> Result<Vec<[u8; 6]>, AllocError> {
        let mut rows = Vec::new(alloc);
        match event {
            b'a' => self.ask_two(&mut rows)?,
            b'b' => self.ask_three(&mut rows)?,
            b'j' => self.join_three(&mut rows)?,
            b'c' => self.conclude(&mut rows)?,
            b'i' => self.install_three(&mut rows)?,
            b'A' => self.later_ask_one(&mut rows)?,
            b'B' => self.later_ask_three(&mut rows)?,
            b'J' => self.later_join_three(&mut rows)?,
            b'C' => self.later_conclude(&mut rows)?,
            _ => self.later_installs(&mut rows)?,
        }
        Ok(rows)
    }
}

/// Whether all goes as it is to, in the order that the code tells, until nothing is left that may come.
fn drive<D: Disk>(
    alloc: Global,
    world: &mut World<D>,
    groups: &mut Groups,
    code: u32,
    left: u8,
) -> Result<bool, AllocError>
    requires { CanMakeSteps D.seen world.old }
    ensures { CanMakeSteps D.seen world.new }
{
    let count = groups.waiting.len();
    if left == 0 || count == 0 {
        return Ok(count == 0);
    }
    if count > 6 {
        return Ok(false);
    }
    let choices = count as u32;
    let event = groups.waiting.remove((code % choices) as usize);
    let rows = groups.rows(alloc, event)?;
    if left_of(alloc, world, rows.as_slice())? != 0 {
        return Ok(false);
    }
    drive(alloc, world, groups, code / choices, left - 1)
}

/// Whether no smaller code tells the same order.
fn is_new(alloc: Global, groups: &mut Groups, code: u32, left: u8) -> Result<bool, AllocError> {
    let count = groups.waiting.len();
    if left == 0 || count == 0 || count > 6 {
        return Ok(code == 0);
    }
    let choices = count as u32;
    let event = groups.waiting.remove((code % choices) as usize);
    groups.rows(alloc, event)?;
    is_new(alloc, groups, code / choices, left - 1)
}

/// Whether all is as it is to be after the order that the code tells: each epoch has one membership, which each node knows that
/// installed it last.
fn goes(alloc: Global, joins: bool, code: u32) -> Result<bool, OpenFault> {
    if !is_new(alloc, &mut Groups::new(alloc, joins)?, code, 8)? {
        return Ok(true);
    }
    let mut world = opened(alloc, 2)?;
    let mut groups = Groups::new(alloc, joins)?;
    if left_of(alloc, &mut world, &[*b"g1. g2", *b"g2. g2"])? != 0 {
        return Ok(false);
    }
    if !drive(alloc, &mut world, &mut groups, code, 8)? {
        return Ok(false);
    }
    if u64::from(members(&world, 1)) != groups.one
        || u64::from(members(&world, 2)) != groups.two
        || u64::from(members(&world, 3)) != groups.three
        || world.flying().is_some()
    {
        return Ok(false);
    }
    let disks = world.close();
    Ok(
        holds(alloc, &disks, 0, b"BPEF")?
            && holds(alloc, &disks, 1, b"BPF")?
            && holds(
                alloc,
                &disks,
                2,
                if groups.promised { b"BPEF" } else { b"BPF" },
            )?,
    )
}

// Six may come at first, and as many until both groups are concluded: 6 · 6 · 6 · 5 · 4 · 3 · 2.
#[test]
fn all_orders_of_joins(rt: HostRuntime) -> Result<(), Fail> {
    for code in 0..25_920u32 {
        let goes = goes(rt.alloc(), true, code);
        assert_eq!(rt; goes, Ok(true), "at {code}");
    }
    Ok(())
}

#[test]
fn all_orders_of_installs(rt: HostRuntime) -> Result<(), Fail> {
    for code in 0..25_920u32 {
        let goes = goes(rt.alloc(), false, code);
        assert_eq!(rt; goes, Ok(true), "at {code}");
    }
    Ok(())
}
