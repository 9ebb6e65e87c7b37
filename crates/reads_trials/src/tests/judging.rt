// What a manager says of proofs.
use mail_base::{LoginWord, Name, NodeSet, Octets, Proof, Secret, Users, apop_digest};
use node_reads::judge;
use std::alloc::{AllocError, Global};
use std::test::Fail;

// Ann, whose secret is tulip.
fn ann(alloc: Global) -> Result<Name, AllocError> {
    match Name::spelt(alloc, b"ann")? {
        Some(name) => Ok(name),
        None => Err(AllocError),
    }
}

fn users_with_ann(alloc: Global) -> Result<Users, AllocError> {
    let mut users = Users::new(alloc);
    if let Some(secret) = Secret::read(alloc, b"tulip")? {
        users.insert(ann(alloc)?, secret)?;
    }
    Ok(users)
}

fn secret_given(alloc: Global, secret: &[u8]) -> Result<Proof, AllocError> {
    Ok(Proof::Pass(Octets::from_vec(Vec::from_slice(alloc, secret)?)))
}

// The digest of a banner and of tulip, with this banner.
fn digest_with(alloc: Global, banner: &[u8]) -> Result<Proof, AllocError> {
    Ok(Proof::Apop {
        banner: Octets::from_vec(Vec::from_slice(alloc, banner)?),
        digest: apop_digest(b"<1.2.3@node1>", b"tulip"),
    })
}

// Whether the manager names nodes 1 and 3 to ann with this proof; otherwise it says that the proof is wrong, by the stamp 0.0.0.
fn names(alloc: Global, users: &Users, proof: &Proof) -> Result<bool, AllocError> {
    let word = judge(users, &ann(alloc)?, proof, NodeSet::from_mask(5));
    match word {
        LoginWord::Named(nodes) => Ok(nodes.mask() == 5),
        LoginWord::Wrong(stamp) => Ok(stamp.count != 0 || stamp.boot != 0 || stamp.node != 0),
        _ => Err(AllocError),
    }
}

#[test]
fn proofs_are_judged(rt: HostRuntime) -> Result<(), Fail> {
    let alloc = rt.alloc();
    let users = users_with_ann(alloc)?;
    assert!(rt; names(alloc, &users, &secret_given(alloc, b"tulip")?)?);
    assert!(rt; !names(alloc, &users, &secret_given(alloc, b"lotus")?)?);
    assert!(rt; !names(alloc, &users, &secret_given(alloc, b"")?)?);
    assert!(rt; names(alloc, &users, &digest_with(alloc, b"<1.2.3@node1>")?)?);
    assert!(rt; !names(alloc, &users, &digest_with(alloc, b"<1.2.4@node1>")?)?);
    assert!(rt; !names(alloc, &users, &digest_with(alloc, b"")?)?);
    // Nobody has a secret.
    let nobody = Users::new(alloc);
    assert!(rt; !names(alloc, &nobody, &secret_given(alloc, b"tulip")?)?);
    Ok(())
}
