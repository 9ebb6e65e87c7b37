// Plan files: those that break a rule, those of the greatest size, and one that is good.
use cluster_config::{ConfigFault, ServePlan, read_plan};
use mail_base::Name;
use std::alloc::{AllocError, Global};
use std::process::Abort;
use std::test::Fail;

/// What a good file has for each rule from 2 on.
const GOOD: &[u8] = b"2 # a plan file
3 nodes = 3
4 copies = 2|confirm = 2
5 buckets = 64
6 shards = 1
7 users = [{ name = \"Alice@example.org\", secret = \"tanstaaf\" }, { name = \"bob\", secret = \" \" }]
8 postmaster = \"ALICE@example.org\"
9 folder = \"spool\"|smtp_port = 2525|pop_port = 2110
";

/// A rule, and what breaks it. A file has it in place of what a good one has for the rule.
const BAD: &[u8] = b"2 node = 3
2 Nodes = 3
2 port = 25
2 shard = 1
2 users_ = []
2 \"\" = 1
2 [users2]
3 # no nodes
3 nodes = 0
3 nodes = 17
3 nodes = -1
3 nodes = 3.0
3 nodes = \"3\"
3 nodes = true
3 nodes = [3]
3 nodes = 18446744073709551616e0
3 nodes = 9223372036854775807
4 # neither
4 copies = 2
4 confirm = 2
4 copies = 4|confirm = 1
4 copies = 1|confirm = 2
4 copies = 2|confirm = 0
4 copies = 0|confirm = 0
4 copies = -2|confirm = -2
4 copies = 2.0|confirm = 2
4 copies = \"2\"|confirm = 2
5 # no buckets
5 buckets = 0
5 buckets = 1025
5 buckets = -64
5 buckets = 64.0
5 buckets = \"64\"
6 shards = 0
6 shards = 2
6 shards = 16
6 shards = 17
6 shards = -1
6 shards = 1.0
6 shards = \"1\"
7 users = 1
7 users = \"alice\"
7 users = {}
7 users = [1]
7 users = [{}]
7 users = [{ name = \"alice\" }]
7 users = [{ secret = \"tanstaaf\" }]
7 users = [{ name = \"\", secret = \"x\" }]
7 users = [{ name = \"a b\", secret = \"x\" }]
7 users = [{ name = \"@a\", secret = \"x\" }]
7 users = [{ name = \"a<b\", secret = \"x\" }]
7 users = [{ name = 1, secret = \"x\" }]
7 users = [{ name = \"alice\", secret = 1 }]
7 users = [{ name = \"alice\", secret = \"\" }]
7 users = [{ name = \"alice\", secret = \"a\\tb\" }]
7 users = [{ name = \"alice\", secret = \"\xC3\xA4\" }]
7 users = [{ name = \"\xC3\xA4\", secret = \"x\" }]
7 users = [{ name = \"alice\", secret = \"x\" }, { name = \"alice\", secret = \"x\" }]
7 users = [{ name = \"alice\", secret = \"x\" }, { name = \"bob\", secret = \"x\" }, { name = \"ALICE\", secret = \"y\" }]
7 users = [{ name = \"aaaaaaaaaaaaaaaaaaaaaaaaaaaaaaaaaaaaaaaaaaaaaaaaaaaaaaaaaaaaaaaaa\", secret = \"x\" }]
7 users = [{ name = \"alice\", secret = \"aaaaaaaaaaaaaaaaaaaaaaaaaaaaaaaaaaaaaaaaaaaaaaaaaaaaaaaaaaaaaaaaa\" }]
8 # no postmaster
8 postmaster = \"\"
8 postmaster = \"carol\"
8 postmaster = \"alice\"
8 postmaster = 1
8 postmaster = [\"bob\"]
9 # nothing
9 smtp_port = 2525|pop_port = 2110
9 folder = \"\"|smtp_port = 2525|pop_port = 2110
9 folder = 1|smtp_port = 2525|pop_port = 2110
9 folder = \"spool\"|pop_port = 2110
9 folder = \"spool\"|smtp_port = 2525
9 folder = \"spool\"|smtp_port = 0|pop_port = 2110
9 folder = \"spool\"|smtp_port = 2525|pop_port = 0
9 folder = \"spool\"|smtp_port = -1|pop_port = 2110
9 folder = \"spool\"|smtp_port = 65536|pop_port = 2110
9 folder = \"spool\"|smtp_port = 65534|pop_port = 2110
9 folder = \"spool\"|smtp_port = 2525|pop_port = 65534
9 folder = \"spool\"|smtp_port = 2525|pop_port = 2525
9 folder = \"spool\"|smtp_port = 2525|pop_port = 2527
9 folder = \"spool\"|smtp_port = 2527|pop_port = 2525
9 folder = \"spool\"|smtp_port = \"2525\"|pop_port = 2110
9 folder = \"spool\"|smtp_port = 2525.0|pop_port = 2110
";

/// What is also good for a rule.
const ALSO_GOOD: &[u8] = b"3 nodes = 16
3 nodes = 0x3
3 nodes = +3
4 copies = 3|confirm = 1
4 copies = 1|confirm = 1
4 copies = 3|confirm = 3
5 buckets = 1
5 buckets = 1_024
6 # no shards
8 postmaster = \"bob\"
8 postmaster = 'BOB'
9 folder = \" \"|smtp_port = 1|pop_port = 4
9 folder = \"spool\"|smtp_port = 2525|pop_port = 2528
9 folder = \"spool\"|smtp_port = 2528|pop_port = 2525
9 folder = \"spool\"|smtp_port = 65533|pop_port = 65530
9 folder = \"\xC3\xA4\"|smtp_port = 2525|pop_port = 2110
";

/// Documents as they stand that break rule 1 or 2, or have no users.
const WHOLE: &[u8] = b"3 # an empty file
3 # no keys|
1 nodes
1 nodes = |
1 nodes = 3|nodes = 3
1 = 3
1 nodes = 3 copies = 2
1 folder = \"spool
1 [users
1 [[users]
1 users = [1, 2
2 [nodes]|x = 1|[more]
2 nodes = 3|[[users]]|name = \"alice\"|secret = \"x\"|mail = 1
2 nodes = 99|[[users]]|Name = \"alice\"
3 [users]|mail = 1
8 nodes = 1|copies = 1|confirm = 1|buckets = 1|folder = \"x\"|smtp_port = 1|pop_port = 2|postmaster = \"alice\"
8 nodes = 1|copies = 1|confirm = 1|buckets = 1|folder = \"x\"|smtp_port = 1|pop_port = 2
0 nodes = 1|copies = 1|confirm = 1|buckets = 1|folder = \"x\"|smtp_port = 1|pop_port = 2|postmaster = \"alice\"|[[users]]|name = \"alice\"|secret = \"x\"
";

/// A row of a table: the number of a rule, and lines of a file.
#[derive(Clone, Copy)]
struct Row<'a> {
    rule: u8,
    lines: &'a [u8],
}

// The rows of a table.
fn rows_of<'a>(alloc: Global, table: &'a [u8]) -> Result<Vec<Row<'a>>, AllocError> {
    let mut rows = Vec::new(alloc);
    for line in table.split(|octet| *octet == b'\n') {
        if let [digit, _, lines @ ..] = line {
            rows.push(Row {
                rule: digit.wrapping_sub(b'0'),
                lines,
            })?;
        }
    }
    Ok(rows)
}

// Appends the lines of a row, of which a bar parts one from the next.
fn add_lines(file: &mut Vec<u8>, lines: &[u8]) -> Result<(), AllocError> {
    for octet in lines {
        file.push(if *octet == b'|' { b'\n' } else { *octet })?;
    }
    file.push(b'\n')?;
    Ok(())
}

// The good file, but for these rows.
fn file_with(alloc: Global, good: &[Row<'_>], changes: &[Row<'_>]) -> Result<Vec<u8>, AllocError> {
    let mut file = Vec::new(alloc);
    for row in good {
        let mut lines = row.lines;
        for change in changes {
            if change.rule == row.rule {
                lines = change.lines;
            }
        }
        add_lines(&mut file, lines)?;
    }
    Ok(file)
}

// The number of the rule that the octets break first: 0 where they keep all, and 10 where memory ran out.
fn broken_by(alloc: Global, octets: &[u8]) -> u8 {
    match read_plan(alloc, octets) {
        Ok(_) => 0,
        Err(fault) => fault.rule().unwrap_or(10),
    }
}

// Reads the good file, but for these rows: it breaks this rule first.
fn breaks(
    rt: &impl Abort,
    alloc: Global,
    good: &[Row<'_>],
    changes: &[Row<'_>],
    rule: u8,
) -> Result<(), Fail> {
    let file = file_with(alloc, good, changes)?;
    let found = broken_by(alloc, &file);
    if found != rule {
        let text = String::from_utf8_lossy(alloc, &file)?;
        assert_eq!(rt; found, rule, "{text}");
    }
    Ok(())
}

#[test]
fn names_the_rule_that_is_broken(rt: HostRuntime) -> Result<(), Fail> {
    let alloc = rt.alloc();
    let good = rows_of(alloc, GOOD)?;
    breaks(&rt, alloc, &good, &[], 0)?;
    for row in rows_of(alloc, BAD)? {
        breaks(&rt, alloc, &good, &[row], row.rule)?;
    }
    for row in rows_of(alloc, ALSO_GOOD)? {
        breaks(&rt, alloc, &good, &[row], 0)?;
    }
    Ok(())
}

#[test]
fn names_the_lower_rule_of_two(rt: HostRuntime) -> Result<(), Fail> {
    let alloc = rt.alloc();
    let good = rows_of(alloc, GOOD)?;
    let bad = rows_of(alloc, BAD)?;
    for lower in &bad {
        for higher in &bad {
            if lower.rule.checked_add(1) == Some(higher.rule) {
                breaks(&rt, alloc, &good, &[*lower, *higher], lower.rule)?;
            }
        }
    }
    Ok(())
}

#[test]
fn reads_whole_files(rt: HostRuntime) -> Result<(), Fail> {
    let alloc = rt.alloc();
    for row in rows_of(alloc, WHOLE)? {
        let mut file = Vec::new(alloc);
        add_lines(&mut file, row.lines)?;
        assert_eq!(rt; broken_by(alloc, &file), row.rule);
    }
    assert_eq!(rt; broken_by(alloc, b""), 3);
    assert_eq!(rt; broken_by(alloc, b"# \xFF\nnodes = 3\n"), 1);
    assert_eq!(rt; broken_by(alloc, b"\xC3"), 1);
    assert_eq!(rt; broken_by(alloc, b"nodes = 3\0"), 1);
    Ok(())
}

// A file with a line that is none of TOML breaks rule 1, whatever rule another line breaks.
#[test]
fn names_rule_1_before_all_others(rt: HostRuntime) -> Result<(), Fail> {
    let alloc = rt.alloc();
    let good = rows_of(alloc, GOOD)?;
    for row in rows_of(alloc, BAD)? {
        let mut file = file_with(alloc, &good, &[row])?;
        add_lines(&mut file, b"nodes")?;
        assert_eq!(rt; broken_by(alloc, &file), 1);
    }
    Ok(())
}

// The good file with this line, and so many octets, the last of them a comment.
fn padded(alloc: Global, line: &[u8], size: usize) -> Result<Vec<u8>, AllocError> {
    let good = rows_of(alloc, GOOD)?;
    let mut file = file_with(alloc, &good, &[])?;
    add_lines(&mut file, line)?;
    file.push(b'#')?;
    file.resize(size, b'x')?;
    Ok(file)
}

// One octet more breaks rule 1, also where a key that is not known breaks rule 2.
#[test]
fn takes_a_file_of_the_greatest_size(rt: HostRuntime) -> Result<(), Fail> {
    let alloc = rt.alloc();
    assert_eq!(rt; broken_by(alloc, &padded(alloc, b"", 1_048_576)?), 0);
    assert_eq!(rt; broken_by(alloc, &padded(alloc, b"", 1_048_577)?), 1);
    assert_eq!(rt;
        broken_by(alloc, &padded(alloc, b"port = 25", 1_048_577)?),
        1
    );
    Ok(())
}

// A file with so many users, of which `u0` is the postmaster.
fn with_users(alloc: Global, count: u32) -> Result<Vec<u8>, AllocError> {
    let mut file = Vec::new(alloc);
    add_lines(
        &mut file,
        b"nodes = 1|copies = 1|confirm = 1|buckets = 1|folder = \"x\"|smtp_port = 1|pop_port = 2|postmaster = \"u0\"",
    )?;
    for number in 0..count {
        let user = format!(in alloc; "[[users]]\nname = \"u{number}\"\nsecret = \"s\"\n")?;
        file.extend_from_slice(user.as_bytes())?;
    }
    Ok(file)
}

#[test]
fn takes_so_many_users_and_no_more(rt: HostRuntime) -> Result<(), Fail> {
    let alloc = rt.alloc();
    assert_eq!(rt; broken_by(alloc, &with_users(alloc, 4096)?), 0);
    assert_eq!(rt; broken_by(alloc, &with_users(alloc, 4097)?), 7);
    Ok(())
}

// The plan of a good file, field by field.
fn is_the_good_plan(rt: &impl Abort, alloc: Global, read: &ServePlan) -> Result<(), Fail> {
    let plan = &read.plan;
    assert_eq!(rt;
        (plan.nodes, plan.copies, plan.confirm, plan.buckets),
        (3, 2, 2, 64)
    );
    assert_eq!(rt;
        (read.shards, read.smtp_port, read.pop_port),
        (1, 2525, 2110)
    );
    assert_eq!(rt; read.folder.as_str(), "spool");
    assert!(rt; plan.postmaster.octets() == b"alice@example.org".as_slice());
    assert_eq!(rt; plan.users.len(), 2);
    let bob = Name::spelt(alloc, b"Bob")?.expect(rt, "a name");
    let secret = plan.users.secret(&bob).expect(rt, "a user");
    assert!(rt; secret.octets() == b" ".as_slice());
    Ok(())
}

#[test]
fn reads_what_the_file_says(rt: HostRuntime) -> Result<(), Fail> {
    let alloc = rt.alloc();
    let good = rows_of(alloc, GOOD)?;
    let file = file_with(alloc, &good, &[])?;
    match read_plan(alloc, &file) {
        Ok(read) => is_the_good_plan(&rt, alloc, &read),
        Err(_) => panic!(&rt; "a good plan file"),
    }
}

#[test]
fn numbers_its_rules(rt: HostRuntime) {
    assert_eq!(rt; ConfigFault::Document.rule(), Some(1));
    assert_eq!(rt; ConfigFault::NoMemory.rule(), None);
}
