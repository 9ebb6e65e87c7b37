// Values that were worked by hand, and each public call once.
use mail_base::{
    MsgId, Name, NameFault, Names, NodeNo, NodeSet, Octets, Plan, Secret, Stamp, Users, bucket_of,
};
use std::alloc::{AllocError, Global};
use std::test::Fail;

#[test]
fn reads_names(rt: HostRuntime) {
    let refused: [(&[u8], NameFault); 3] = [
        (b"", NameFault::Empty),
        (&[b'a'; 65], NameFault::TooLong),
        (b"a b", NameFault::BadOctet),
    ];
    for (octets, fault) in refused {
        assert!(rt; Name::read(rt.alloc(), octets).err() == Some(fault));
    }
}

#[test]
fn lowers_names(rt: HostRuntime) -> Result<(), Fail> {
    let Ok(name) = Name::read(rt.alloc(), b"Alice@Example.ORG") else {
        panic!(rt; "no name");
    };
    assert!(rt; name.octets() == b"alice@example.org".as_slice());
    let mut names = Names::new(rt.alloc());
    assert!(rt; names.is_empty());
    names.push(name.copy()?)?;
    assert!(rt; names.contains(&name) && names.len() == 1);
    assert!(rt; names.as_slice()[0] == name);
    Ok(())
}

#[test]
fn finds_buckets(rt: HostRuntime) {
    let cases: [(&[u8], u32, u32); 2] = [(b"a", 1024, 140), (b"foobar", 1024, 1000)];
    for (octets, buckets, bucket) in cases {
        let Ok(name) = Name::read(rt.alloc(), octets) else {
            panic!(rt; "no name");
        };
        assert!(rt; bucket_of(&name, buckets) == bucket);
    }
}

// A plan of one node with the one user ann, who is the postmaster.
fn plan(alloc: Global) -> Result<Plan, Fail> {
    let name = Name::spelt(alloc, b"ann")?.ok_or("no name")?;
    let secret = Secret::read(alloc, b"open sesame")?.ok_or("no secret")?;
    let mut users = Users::new(alloc);
    users.insert(name.copy()?, secret)?;
    Ok(Plan {
        nodes: 1,
        copies: 1,
        confirm: 1,
        buckets: 1,
        users,
        postmaster: name,
    })
}

// Whether the name is that of a mailbox, and of a user.
fn found(plan: &Plan, alloc: Global, name: &[u8]) -> Result<(bool, bool), AllocError> {
    let mailbox = plan.mailbox(alloc, name)?.is_some();
    Ok((mailbox, plan.user(alloc, name)?.is_some()))
}

#[test]
fn finds_mailboxes(rt: HostRuntime) -> Result<(), Fail> {
    let plan = plan(rt.alloc())?;
    let cases: [(&[u8], (bool, bool)); 3] = [
        (b"PostMaster", (true, false)),
        (b"ANN", (true, true)),
        (b"bob", (false, false)),
    ];
    for (name, wanted) in cases {
        assert!(rt; found(&plan, rt.alloc(), name)? == wanted);
    }
    Ok(())
}

// The secret of ann, where there is one for her alone.
fn secret_of(users: &Users, alloc: Global, name: &[u8]) -> Result<Option<Secret>, AllocError> {
    let Some(name) = Name::spelt(alloc, name)? else {
        return Ok(None);
    };
    match users.secret(&name) {
        Some(secret) if users.has(&name) && users.len() == 1 => Ok(Some(secret.copy()?)),
        _ => Ok(None),
    }
}

#[test]
fn finds_secrets(rt: HostRuntime) -> Result<(), Fail> {
    let alloc = rt.alloc();
    assert!(rt; Users::new(alloc).is_empty());
    let plan = plan(alloc)?;
    let Some(secret) = secret_of(&plan.users, alloc, b"ann")? else {
        panic!(rt; "no secret");
    };
    assert!(rt; secret.octets() == b"open sesame".as_slice());
    assert!(rt; secret_of(&plan.users, alloc, b"bob")?.is_none());
    Ok(())
}

#[test]
fn writes_ids(rt: HostRuntime) -> Result<(), Fail> {
    let Some(node) = NodeNo::new(16) else {
        panic!(rt; "no node");
    };
    let Some(id) = MsgId::new(node, 2, 30) else {
        panic!(rt; "no id");
    };
    assert!(rt; id.id_text(rt.alloc())?.as_str() == "16.2.30");
    assert!(rt; id.node() == node && id.boot() == 2 && id.seq() == 30);
    assert!(rt; MsgId::new(node, 2, 31) > Some(id));
    assert!(rt; Stamp::new(1, 2, 3) < Stamp::new(2, 1, 1));
    let held = Octets::from_vec(b"held".to_vec(rt.alloc())?).copy()?;
    assert!(rt; held.len() == 4 && !held.is_empty());
    assert!(rt; held.as_slice() == held.copy()?.into_vec().as_slice());
    assert!(rt; Octets::new(rt.alloc()).is_empty());
    Ok(())
}

#[test]
fn counts_nodes(rt: HostRuntime) {
    let (Some(one), Some(last)) = (NodeNo::new(1), NodeNo::new(16)) else {
        panic!(rt; "no node");
    };
    let both = NodeSet::empty().with(one).union(NodeSet::from_mask(0x8000));
    assert!(rt; both.mask() == 0x8001 && both.count() == 2);
    assert!(rt; both.has(last) && !both.without(last).has(last));
}
