// Payloads worked by hand: what is read of each, and that it is written again.
use mail_base::{Key, ObjState, Value};
use record_form::{DiskEntry, read_record, record_into};
use std::alloc::{AllocError, Global};
use std::test::Fail;

/// The deletion of message 1.1.1 of `alice`, with the stamp (2, 1, 1), in a plan of two nodes.
const DELETION: &[u8; 37] =
    b"\x04\x02\x05alice\x01\0\0\0\x01\0\0\0\0\0\0\0\x01\x02\0\0\0\0\0\0\0\x02\0\0\0\x01\x01\0\x03";

/// The profile of `ann` with the secret `open`, as no node changed it yet, for all sixteen nodes.
const PROFILE: &[u8; 27] = b"\x04\x01\x03ann\x03\0\0\0\0\0\0\0\0\0\0\0\0\0\xff\xff\x04open";

/// Places of the deletion, and octets that must not stand there.
const DELETION_FAULTS: [(usize, u8); 24] = [
    (0, 0),
    (0, 1),
    (0, 6),
    (1, 0),
    (1, 1),
    (1, 3),
    (2, 0),
    (2, 4),
    (2, 6),
    (2, 65),
    (3, b'A'),
    (3, b'@'),
    (4, b'<'),
    (4, b' '),
    (4, 0x7f),
    (8, 0),
    (8, 17),
    (12, 0),
    (20, 0),
    (21, 0),
    (21, 3),
    (21, 4),
    (34, 17),
    (36, 0),
];

/// The same of the profile.
const PROFILE_FAULTS: [(usize, u8); 9] = [
    (1, 2),
    (2, 0),
    (3, b'>'),
    (6, 1),
    (6, 2),
    (22, 0),
    (22, 5),
    (23, 0x1f),
    (26, 0x7f),
];

// What is read of the payload, spelt again; nothing where nothing is read.
fn read_and_written(alloc: Global, payload: &[u8]) -> Result<Option<Vec<u8>>, AllocError> {
    let Some(entry) = read_record(alloc, payload)? else {
        return Ok(None);
    };
    let mut out = Vec::new(alloc);
    record_into(alloc, &mut out, &entry)?;
    Ok(Some(out))
}

// Whether the payload is read, and written again as it was.
fn is_kept(alloc: Global, payload: &[u8]) -> Result<bool, AllocError> {
    match read_and_written(alloc, payload)? {
        Some(out) => Ok(out.as_slice() == payload),
        None => Ok(false),
    }
}

// Whether nothing is read of the payload.
fn is_refused(alloc: Global, payload: &[u8]) -> Result<bool, AllocError> {
    Ok(read_record(alloc, payload)?.is_none())
}

// The payload with another octet at this place.
fn changed(alloc: Global, payload: &[u8], at: usize, octet: u8) -> Result<Vec<u8>, AllocError> {
    let mut other = payload.to_vec(alloc)?;
    if at < other.len() {
        other[at] = octet;
    }
    Ok(other)
}

// A profile with this name and this secret, of at most 255 octets each.
fn profile(alloc: Global, name: &[u8], secret: &[u8]) -> Result<Vec<u8>, AllocError> {
    let mut payload = b"\x04\x01".to_vec(alloc)?;
    payload.push(name.len().min(255) as u8)?;
    payload.extend_from_slice(name)?;
    let base = PROFILE.as_slice();
    payload.extend_from_slice(&base[6..22])?;
    payload.push(secret.len().min(255) as u8)?;
    payload.extend_from_slice(secret)?;
    Ok(payload)
}

#[test]
fn reads_and_writes(rt: HostRuntime) -> Result<(), Fail> {
    let good: [&[u8]; 8] = [
        b"\x01\0\0\0\x01",
        b"\x01\xff\xff\xff\xff",
        b"\x02\0\0\0\0\0\0\0\0\x01",
        b"\x02\xff\xff\xff\xff\xff\xff\xff\xff\x10",
        b"\x03\x01\0\0\0\x01\0\0\0\0\0\0\0\x01",
        b"\x03\x10\xff\xff\xff\xff\xff\xff\xff\xff\xff\xff\xff\xff",
        DELETION,
        PROFILE,
    ];
    for (at, payload) in good.iter().enumerate() {
        assert!(rt; is_kept(rt.alloc(), payload)?, "at {at}");
    }
    for (at, octet) in [
        (0, 5),
        (7, b'.'),
        (8, 16),
        (21, 1),
        (34, 0),
        (34, 16),
        (35, 128),
    ] {
        let payload = changed(rt.alloc(), DELETION, at, octet)?;
        assert!(rt; is_kept(rt.alloc(), &payload)?, "at {at}");
    }
    Ok(())
}

#[test]
fn refuses_other_payloads(rt: HostRuntime) -> Result<(), Fail> {
    let bad: [&[u8]; 14] = [
        b"",
        b"\0",
        b"\x01\0\0\0\0",
        b"\x01\0\0\x01",
        b"\x01\0\0\0\x01\0",
        b"\x02\0\0\0\0\0\0\0\x01\0",
        b"\x02\0\0\0\0\0\0\0\x01\x11",
        b"\x02\0\0\0\0\0\0\0\x01\x01\0",
        b"\x03\x01\0\0\0\x01\0\0\0\0\0\0\0",
        b"\x03\0\0\0\0\x01\0\0\0\0\0\0\0\x01",
        b"\x03\x11\0\0\0\x01\0\0\0\0\0\0\0\x01",
        b"\x03\x01\0\0\0\0\0\0\0\0\0\0\0\x01",
        b"\x03\x01\0\0\0\x01\0\0\0\0\0\0\0\0",
        b"\x06\0\0\0\x01",
    ];
    for (at, payload) in bad.iter().enumerate() {
        assert!(rt; is_refused(rt.alloc(), payload)?, "at {at}");
    }
    for (at, octet) in DELETION_FAULTS {
        let payload = changed(rt.alloc(), DELETION, at, octet)?;
        assert!(rt; is_refused(rt.alloc(), &payload)?, "at {at}");
    }
    for (at, octet) in PROFILE_FAULTS {
        let payload = changed(rt.alloc(), PROFILE, at, octet)?;
        assert!(rt; is_refused(rt.alloc(), &payload)?, "at {at}");
    }
    Ok(())
}

#[test]
fn bounds_names_and_secrets(rt: HostRuntime) -> Result<(), Fail> {
    for (name, secret, read) in [
        (1, 1, true),
        (64, 64, true),
        (65, 64, false),
        (64, 65, false),
        (0, 64, false),
        (64, 0, false),
    ] {
        let payload = profile(rt.alloc(), &[b'a'; 65][..name], &[b' '; 65][..secret])?;
        assert!(rt; is_kept(rt.alloc(), &payload)? == read, "name of {name}");
        assert!(rt; is_refused(rt.alloc(), &payload)? != read, "name of {name}");
    }
    Ok(())
}

#[test]
fn wants_all_octets_and_no_more(rt: HostRuntime) -> Result<(), Fail> {
    for payload in [DELETION.as_slice(), PROFILE.as_slice()] {
        for len in 0..payload.len() {
            assert!(rt; is_refused(rt.alloc(), &payload[..len])?, "of {len}");
        }
        let mut longer = payload.to_vec(rt.alloc())?;
        longer.push(0)?;
        assert!(rt; is_refused(rt.alloc(), &longer)?);
    }
    Ok(())
}

// The parts of a stamp, and the mask of the targets.
fn add_numbers(out: &mut String, alloc: Global, state: &ObjState) -> Result<(), AllocError> {
    let (stamp, mask) = (state.stamp, state.targets.mask());
    out.push_str(&format!(in alloc; " {}.{}.{} {mask}", stamp.count, stamp.boot, stamp.node)?)
}

fn add_text(out: &mut String, octets: &[u8]) -> Result<(), AllocError> {
    for x in octets {
        out.push(char::from(*x))?;
    }
    Ok(())
}

// Whose object it is and which, what stands of it, and the numbers of the state.
fn object_text(alloc: Global, key: &Key, state: &ObjState) -> Result<String, AllocError> {
    let mut out = String::new(alloc);
    match key {
        Key::Message(user, id) => {
            add_text(&mut out, user.octets())?;
            out.push_str(" ")?;
            out.push_str(&id.id_text(alloc)?)?;
        }
        Key::Profile(user) => add_text(&mut out, user.octets())?,
    }
    out.push_str(" ")?;
    match &state.value {
        Value::Here => out.push_str("here")?,
        Value::Gone => out.push_str("gone")?,
        Value::Secret(secret) => add_text(&mut out, secret.octets())?,
    }
    add_numbers(&mut out, alloc, state)?;
    Ok(out)
}

fn entry_text(alloc: Global, entry: &DiskEntry) -> Result<String, AllocError> {
    match entry {
        DiskEntry::Boot { boot } => format!(in alloc; "boot {boot}"),
        DiskEntry::Promise { epoch } => {
            format!(in alloc; "promise {}.{}", epoch.count, epoch.node)
        }
        DiskEntry::Octets { id, length } => {
            format!(in alloc; "octets {} {length}", id.id_text(alloc)?)
        }
        DiskEntry::State { key, state } => object_text(alloc, key, state),
        DiskEntry::Retired { key, state } => {
            format!(in alloc; "retired {}", object_text(alloc, key, state)?)
        }
    }
}

// What the payload is read as; nothing where nothing is read.
fn read_as(alloc: Global, payload: &[u8]) -> Result<String, AllocError> {
    match &read_record(alloc, payload)? {
        Some(entry) => entry_text(alloc, entry),
        None => Ok(String::new(alloc)),
    }
}

#[test]
fn reads_what_is_spelt(rt: HostRuntime) -> Result<(), Fail> {
    let cases: [(&[u8], &str); 4] = [
        (b"\x01\x01\x02\x03\x04", "boot 16909060"),
        (b"\x02\0\0\0\0\0\0\x01\x02\x03", "promise 258.3"),
        (DELETION, "alice 1.1.1 gone 2.1.1 3"),
        (PROFILE, "ann open 0.0.0 65535"),
    ];
    for (at, (payload, wanted)) in cases.iter().enumerate() {
        let text = read_as(rt.alloc(), payload)?;
        assert!(rt; text.as_str() == *wanted, "at {at}");
    }
    let retired = changed(rt.alloc(), DELETION, 0, 5)?;
    assert!(rt; read_as(rt.alloc(), &retired)?.as_str() == "retired alice 1.1.1 gone 2.1.1 3");
    Ok(())
}

// A message's octets end with the payload: the journal bounds it, and not the grammar.
#[test]
fn counts_the_octets_of_a_message(rt: HostRuntime) -> Result<(), Fail> {
    for (len, wanted) in [
        (14, "octets 2.7.256 0"),
        (15, "octets 2.7.256 1"),
        (16_842_752, "octets 2.7.256 16842738"),
        (16_842_753, "octets 2.7.256 16842739"),
    ] {
        let mut payload = b"\x03\x02\0\0\0\x07\0\0\0\0\0\0\x01\0".to_vec(rt.alloc())?;
        payload.resize(len, b'x')?;
        let text = read_as(rt.alloc(), &payload)?;
        assert!(rt; text.as_str() == wanted, "of {len}");
    }
    Ok(())
}
