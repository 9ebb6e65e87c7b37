// Rounds that were worked by hand: nodes that form an epoch, and each refusal in its order. What a group does is a list of steps.
use mail_base::{Claim, EpochId, Member, NodeNo, NodeSet, Sequence, UserMap};
use membership::{Group, GroupFault, Install};
use std::alloc::Global;
use std::test::Fail;

/// A step of a group, and what has to come of it. An epoch is its count and its node.
#[derive(Clone, Copy)]
enum Step {
    /// A group of this epoch is opened.
    Opens(u64, u8),
    /// It hears of a group of this epoch: for the first time, once more, or not.
    Group(u64, u8, Result<bool, GroupFault>),
    /// A node joins this epoch in a boot, with a promise, and with the claim of bucket 0 since an epoch of this count where it is
    /// not 0: whether that is of the open group.
    Join {
        of: (u64, u8),
        promise: (u64, u8),
        from: (u8, u32),
        since: u64,
        heard: bool,
    },
    /// It has heard of this count.
    Heard(u64),
    /// These nodes have joined, as a mask; 0 where no group is open.
    Joined(u16),
    /// The epoch is formed with these managers of three buckets, and a node that promised it enters it too.
    Concludes(u64, u8, [u8; 3]),
    /// It has no group to conclude.
    HasNoGroup,
    /// It hears an epoch that names a node in a boot: it enters it, or refuses it so.
    Install {
        of: (u64, u8),
        names: (u8, u32),
        answer: Result<(), GroupFault>,
    },
    /// So many members are in its epoch; 0 where it has none.
    HasEntered(usize),
}

fn node(number: u8) -> Result<NodeNo, GroupFault> {
    match NodeNo::new(number) {
        Some(node) => Ok(node),
        None => Err(GroupFault::NotMember),
    }
}

fn epoch(of: (u64, u8)) -> EpochId {
    EpochId::new(of.0, of.1)
}

// A member in a boot that comes from no epoch.
fn member(from: (u8, u32)) -> Result<Member, GroupFault> {
    Ok(Member::new(node(from.0)?, from.1, EpochId::none()))
}

fn opens(alloc: Global, group: &mut Group, wanted: EpochId) -> Result<bool, GroupFault> {
    if group.heard() == u64::MAX {
        return Err(GroupFault::NotAGroup);
    }
    Ok(group.start_group(alloc)? == wanted)
}

fn joins(
    alloc: Global,
    group: &mut Group,
    of: EpochId,
    promise: EpochId,
    from: Member,
    since: u64,
) -> Result<bool, GroupFault> {
    let mut claims = Sequence::new(alloc);
    if since > 0 {
        claims.push(Claim::new(from.node, 0, EpochId::new(since, 1)))?;
    }
    match group.hear_join(alloc, of, promise, from, claims.as_slice()) {
        Ok(()) => Ok(true),
        Err(GroupFault::NotAGroup) => Ok(false),
        Err(fault) => Err(fault),
    }
}

// Whether the installed map has these managers.
fn managers_are(install: &Install, managers: &[u8; 3]) -> bool {
    install.map.rows().len() == 3
        && install
            .map
            .rows()
            .iter()
            .zip(managers.iter())
            .all(|(row, manager)| row.manager.number() == *manager)
}

fn members_in(group: &Group) -> usize {
    match group.installed() {
        Some(install) => install.members.len(),
        None => 0,
    }
}

// Whether node 2 in its first boot, once it promised the epoch, enters it where that names it, and claims its buckets.
fn second_enters(alloc: Global, formed: &Install, managers: &[u8; 3]) -> Result<bool, GroupFault> {
    let mut second = Group::new(node(2)?, 1, EpochId::none());
    let promised = second.hear_group(formed.epoch)?;
    let answer = second.hear_install(formed);
    let claims = second.claims(alloc)?.len();
    let wanted = managers.iter().filter(|manager| **manager == 2).count();
    Ok(match answer {
        Ok(()) => promised && members_in(&second) == formed.members.len() && claims == wanted,
        Err(fault) => fault == GroupFault::NotMember && claims == 0,
    })
}

fn concludes(
    alloc: Global,
    group: &mut Group,
    of: EpochId,
    managers: &[u8; 3],
) -> Result<bool, GroupFault> {
    let formed = group.conclude(alloc, 3)?;
    Ok(
        formed.epoch == of
            && managers_are(&formed, managers)
            && second_enters(alloc, &formed, managers)?,
    )
}

fn has_no_group(alloc: Global, group: &mut Group) -> bool {
    match group.conclude(alloc, 3) {
        Ok(_) => false,
        Err(fault) => fault == GroupFault::NotAGroup,
    }
}

// A membership of this epoch that names one node in a boot, without buckets.
fn install(alloc: Global, of: EpochId, names: Member) -> Result<Install, GroupFault> {
    let mut members = Sequence::new(alloc);
    members.push(names)?;
    Ok(Install::new(of, members, UserMap::from_rows(Vec::new(alloc))))
}

fn hears(
    alloc: Global,
    group: &mut Group,
    of: EpochId,
    names: Member,
) -> Result<Result<(), GroupFault>, GroupFault> {
    Ok(group.hear_install(&install(alloc, of, names)?))
}

// Whether the step does as it says.
fn does(alloc: Global, group: &mut Group, step: &Step) -> Result<bool, GroupFault> {
    match step {
        Step::Opens(count, number) => opens(alloc, group, EpochId::new(*count, *number)),
        Step::Group(count, number, answer) => {
            Ok(group.hear_group(EpochId::new(*count, *number)) == *answer)
        }
        Step::Join {
            of,
            promise,
            from,
            since,
            heard,
        } => Ok(
            joins(
                alloc,
                group,
                epoch(*of),
                epoch(*promise),
                member(*from)?,
                *since,
            )? == *heard,
        ),
        Step::Heard(count) => Ok(group.heard() == *count),
        Step::Joined(mask) => {
            Ok(group.joined().unwrap_or(NodeSet::empty()) == NodeSet::from_mask(*mask))
        }
        Step::Concludes(count, number, managers) => {
            concludes(alloc, group, EpochId::new(*count, *number), managers)
        }
        Step::HasNoGroup => Ok(has_no_group(alloc, group)),
        Step::Install { of, names, answer } => {
            Ok(hears(alloc, group, epoch(*of), member(*names)?)? == *answer)
        }
        Step::HasEntered(count) => Ok(members_in(group) == *count),
    }
}

// How many steps a node in a boot takes that has made a promise, until one does not do as it says.
fn goes(
    alloc: Global,
    of: (u8, u32),
    promise: (u64, u8),
    steps: &[Step],
) -> Result<usize, GroupFault> {
    let mut group = Group::new(node(of.0)?, of.1, epoch(promise));
    for (at, step) in steps.iter().enumerate() {
        if !does(alloc, &mut group, step)? {
            return Ok(at);
        }
    }
    Ok(steps.len())
}

const fn join(of: (u64, u8), promise: (u64, u8), from: (u8, u32), since: u64, heard: bool) -> Step {
    Step::Join {
        of,
        promise,
        from,
        since,
        heard,
    }
}

#[test]
fn forms_an_epoch(rt: HostRuntime) -> Result<(), Fail> {
    let steps = [
        Step::Opens(1, 1),
        Step::Group(1, 1, Ok(false)),
        join((1, 1), (1, 1), (2, 1), 0, true),
        Step::Joined(0b11),
        Step::Concludes(1, 1, [1, 2, 1]),
        Step::HasEntered(2),
        Step::Joined(0),
        Step::HasNoGroup,
    ];
    assert_eq!(rt; goes(rt.alloc(), (1, 1), (0, 0), &steps)?, steps.len());
    Ok(())
}

#[test]
fn hears_joins(rt: HostRuntime) -> Result<(), Fail> {
    let steps = [
        Step::HasNoGroup,
        join((7, 2), (7, 2), (1, 1), 0, false),
        Step::Opens(7, 2),
        join((7, 1), (7, 1), (1, 1), 0, false),
        // of one node the join of the later boot stays, claims and all
        join((7, 2), (7, 2), (3, 2), 0, true),
        join((7, 2), (7, 2), (3, 1), 5, true),
        // a greater promise only raises the count that was heard
        join((7, 2), (9, 1), (1, 1), 0, true),
        Step::Heard(9),
        Step::Joined(0b110),
        Step::Concludes(7, 2, [2, 3, 2]),
        // the next group is above all that was heard
        Step::Opens(10, 2),
    ];
    assert_eq!(rt; goes(rt.alloc(), (2, 4), (6, 3), &steps)?, steps.len());
    let next = [
        Step::Opens(7, 2),
        Step::Concludes(7, 2, [2, 2, 2]),
        Step::Opens(8, 2),
        join((8, 2), (8, 2), (3, 1), 0, true),
        join((8, 2), (8, 2), (3, 2), 9, true),
        Step::Concludes(8, 2, [3, 2, 2]),
    ];
    assert_eq!(rt; goes(rt.alloc(), (2, 4), (6, 3), &next)?, next.len());
    Ok(())
}

const fn names(of: (u64, u8), names: (u8, u32), answer: Result<(), GroupFault>) -> Step {
    Step::Install { of, names, answer }
}

#[test]
fn refuses_in_order(rt: HostRuntime) -> Result<(), Fail> {
    let steps = [
        Step::Group(4, 9, Err(GroupFault::OldEpoch)),
        Step::Group(5, 1, Ok(false)),
        // none of these names the node in its boot
        names((4, 9), (1, 1), Err(GroupFault::OldEpoch)),
        names((5, 2), (1, 1), Err(GroupFault::NotPromised)),
        names((5, 1), (1, 1), Err(GroupFault::NotMember)),
        names((5, 1), (2, 2), Err(GroupFault::NotMember)),
        Step::HasEntered(0),
        names((5, 1), (1, 2), Ok(())),
        Step::HasEntered(1),
        // what is installed is old, also where it does not name the node
        names((5, 1), (2, 2), Err(GroupFault::OldEpoch)),
        Step::Group(6, 1, Ok(true)),
    ];
    assert_eq!(rt; goes(rt.alloc(), (1, 2), (5, 1), &steps)?, steps.len());
    Ok(())
}
