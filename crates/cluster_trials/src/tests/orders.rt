// All orders of the first six letters of one message, with every drop.
ghost use Rattle.std.specs.Prelude.{◌≤◌};
ghost use Rattle.cluster_world.specs.Worlds.{CanMakeSteps};

use crate::tests::steps::holds;
use crate::tests::{digit, make, opened};
use cluster_world::{OpenFault, World};
use io_edge::Disk;
use std::alloc::{AllocError, Global};
use std::test::Fail;

/// How the message stands with another node.
#[derive(Clone, Copy)]
struct Standing {
    // it has the message
    here: bool,
    // and node 1 was told so
    filed: bool,
    // it never will be
    lost: bool,
    // it has acknowledged the state of the copy
    acked: bool,
    // and was told that all have
    retired: bool,
}

/// A letter in flight: its number, what it is, and the node other than node 1.
#[derive(Clone, Copy)]
struct Known {
    number: u64,
    // a File, a Push, a Filed, a PushAck or a Retire, as `F`, `U`, `f`, `a`, `R`
    kind: u8,
    other: u8,
}

/// What the letters of a message lead to.
#[derive(Drop)]
struct Course {
    copies: u8,
    sent: u64,
    // those of the first six that fly
    flying: Vec<Known>,
    two: Standing,
    three: Standing,
    retired: bool,
}

impl Course {
    fn new(alloc: Global, copies: u8) -> Course {
        let none = Standing {
            here: false,
            filed: false,
            lost: false,
            acked: false,
            retired: false,
        };
        Course {
            copies,
            sent: 0,
            flying: Vec::new(alloc),
            two: none,
            three: none,
            retired: false,
        }
    }

    fn send(&mut self, kind: u8, other: u8) -> Result<(), AllocError> {
        self.sent = self.sent.saturating_add(1);
        if self.sent <= 6 {
            let number = self.sent;
            self.flying.push(Known {
                number,
                kind,
                other,
            })?;
        }
        Ok(())
    }

    fn at(&mut self, other: u8) -> &mut Standing {
        if other == 2 {
            &mut self.two
        } else {
            &mut self.three
        }
    }

    fn all_acked(&self) -> bool {
        self.two.acked && (self.copies == 2 || self.three.acked)
    }

    fn retire(&mut self) -> Result<(), AllocError> {
        if self.retired || !self.all_acked() {
            return Ok(());
        }
        self.retired = true;
        self.send(b'R', 2)?;
        if self.copies == 3 {
            self.send(b'R', 3)?;
        }
        Ok(())
    }

    fn heard(&mut self, letter: Known) -> Result<(), AllocError> {
        match letter.kind {
            b'F' => {
                self.at(letter.other).here = true;
                self.send(b'f', letter.other)
            }
            b'U' => {
                self.at(letter.other).here = true;
                self.send(b'a', letter.other)
            }
            b'f' => {
                self.at(letter.other).filed = true;
                Ok(())
            }
            b'a' => {
                self.at(letter.other).acked = true;
                self.retire()
            }
            _ => {
                self.at(letter.other).retired = true;
                Ok(())
            }
        }
    }

    fn dropped(&mut self, letter: Known) {
        if letter.kind == b'F' || letter.kind == b'f' {
            self.at(letter.other).lost = true;
        }
    }

    /// Whether node 1 still waits for the node.
    fn waits(&self, other: Standing) -> bool {
        !other.filed && !other.lost
    }

    /// What an ask is to answer.
    fn answer(&self) -> [u8; 2] {
        let two = u64::from(self.two.filed);
        let three = u64::from(self.three.filed);
        if two + three > 0 {
            return [b'S', digit(1 + 2 * two + 4 * three)];
        }
        if self.waits(self.two) || (self.copies == 3 && self.waits(self.three)) {
            return *b"P1";
        }
        *b"F."
    }

    /// The records that a node is to have.
    fn records(&self, here: bool, retired: bool) -> &'static [u8] {
        if !here {
            return b"BP";
        }
        match (self.copies == 3, retired) {
            (false, false) => b"BPO3",
            (false, true) => b"BPO3r",
            (true, false) => b"BPO7",
            (true, true) => b"BPO7R",
        }
    }
}

/// Posts the letter, or drops it.
fn settle<D: Disk>(
    alloc: Global,
    world: &mut World<D>,
    course: &mut Course,
    letter: Known,
    drops: bool,
) -> Result<bool, AllocError>
    requires { CanMakeSteps D.seen world.old }
    ensures { CanMakeSteps D.seen world.new }
{
    let number = digit(letter.number);
    if drops {
        course.dropped(letter);
        return Ok(make(alloc, world, b'X', number, b'.')? == *b"..");
    }
    course.heard(letter)?;
    Ok(make(alloc, world, b'P', number, b'.')? == *b"H.")
}

/// Posts and drops letters in the order that the code tells, until none of the first six flies.
fn drive<D: Disk>(
    alloc: Global,
    world: &mut World<D>,
    course: &mut Course,
    code: u32,
    left: u8,
) -> Result<bool, AllocError>
    requires { CanMakeSteps D.seen world.old }
    ensures { CanMakeSteps D.seen world.new }
{
    let count = course.flying.len();
    if left == 0 || count == 0 {
        return Ok(count == 0);
    }
    if count > 6 {
        return Ok(false);
    }
    let choices = count as u32;
    let letter = course.flying.remove((code / 2 % choices) as usize);
    if !settle(alloc, world, course, letter, code % 2 == 1)? {
        return Ok(false);
    }
    drive(alloc, world, course, code / 2 / choices, left - 1)
}

/// Whether no smaller code tells the same order: of this one nothing is left once none of the first six letters flies.
fn is_new(course: &mut Course, code: u32, left: u8) -> Result<bool, AllocError> {
    let count = course.flying.len();
    if left == 0 || count == 0 || count > 6 {
        return Ok(code == 0);
    }
    let choices = count as u32;
    let letter = course.flying.remove((code / 2 % choices) as usize);
    if code % 2 == 1 {
        course.dropped(letter);
    } else {
        course.heard(letter)?;
    }
    is_new(course, code / 2 / choices, left - 1)
}

/// The letters of a message that begins, and is pushed to both other nodes; where there are two copies, twice to the one.
fn begun(alloc: Global, copies: u8) -> Result<Course, AllocError> {
    let mut course = Course::new(alloc, copies);
    course.send(b'F', 2)?;
    if copies == 3 {
        course.send(b'F', 3)?;
    }
    course.send(b'U', 2)?;
    course.send(b'U', copies)?;
    Ok(course)
}

/// The same in a world.
fn begin<D: Disk>(alloc: Global, world: &mut World<D>, copies: u8) -> Result<bool, AllocError>
    requires { CanMakeSteps D.seen world.old }
    ensures { CanMakeSteps D.seen world.new }
{
    Ok(
        make(alloc, world, b'D', b'1', b'.')? == *b"B1"
            && make(alloc, world, b'>', b'1', b'2')? == *b"L1"
            && make(alloc, world, b'>', b'1', digit(u64::from(copies)))? == *b"L1",
    )
}

/// Whether all is as it is to be after the order that the code tells.
fn goes(alloc: Global, copies: u8, code: u32) -> Result<bool, OpenFault>
    requires some { 2 ≤ copies }
    requires most { copies ≤ 3 }
{
    if !is_new(&mut begun(alloc, copies)?, code, 6)? {
        return Ok(true);
    }
    let mut world = opened(alloc, copies)?;
    let mut course = begun(alloc, copies)?;
    if !begin(alloc, &mut world, copies)? {
        return Ok(false);
    }
    if !drive(alloc, &mut world, &mut course, code, 6)? {
        return Ok(false);
    }
    if make(alloc, &mut world, b'A', b'1', b'1')? != course.answer() {
        return Ok(false);
    }
    let disks = world.close();
    let one = course.records(true, course.retired);
    let two = course.records(course.two.here, course.two.retired);
    let three = course.records(course.three.here, course.three.retired);
    Ok(
        holds(alloc, &disks, 0, one)?
            && holds(alloc, &disks, 1, two)?
            && holds(alloc, &disks, 2, three)?,
    )
}

// Where three letters fly at first, a step has six choices at most as long as answers are among the first six: 6 · 6 · 6 · 6 · 4 · 2.
#[test]
fn all_orders_of_two_copies(rt: HostRuntime) -> Result<(), Fail> {
    for code in 0..10_368u32 {
        let goes = goes(rt.alloc(), 2, code);
        assert_eq!(rt; goes, Ok(true), "at {code}");
    }
    Ok(())
}

// Where four fly, it has eight: 8 · 8 · 8 · 6 · 4 · 2.
#[test]
fn all_orders_of_three_copies(rt: HostRuntime) -> Result<(), Fail> {
    for code in 0..24_576u32 {
        let goes = goes(rt.alloc(), 3, code);
        assert_eq!(rt; goes, Ok(true), "at {code}");
    }
    Ok(())
}
