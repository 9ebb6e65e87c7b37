// A message for a hundred mailboxes: each of their readers finds it, and the one that is too many does not.

use super::Script;
use super::store::Journal;
use std::alloc::{AllocError, Global};
use std::test::Fail;

const PLAN: &[u8] = b"\
nodes 1
copies 1 1
buckets 16
postmaster u001
";

const HELO_MAIL: &[u8] = b"\
go
open smtp 1
  1 220 node1 Porcupine ready
say 1 HELO c.example
  1 250 node1
say 1 MAIL FROM:<bob@b.example>
  1 250 sender ok
";

const REST: &[u8] = b"\
say 1 RCPT TO:<u101>
  1 452 too many recipients
say 1 RCPT TO:<u001>
  1 250 recipient ok
say 1 RCPT TO:<U100>
  1 250 recipient ok
say 1 RCPT TO:<postmaster>
  1 250 recipient ok
say 1 RCPT TO:<nobody>
  1 550 no such mailbox
say 1 DATA
  1 354 end with a line that is a single period
say 1 to many
say 1 .
  1 250 stored
say 1 MAIL FROM:<>
  1 250 sender ok
say 1 RCPT TO:<u101>
  1 250 recipient ok
say 1 QUIT
  1 221 node1 closing
  * 1 closed
";

// What each reader says and hears: its session stands for each `#`, and its name for each `~`.
const READS: &[u8] = b"\
open pop 1
  # +OK node1 ready <1.#.0@node1>
say # USER ~
  # +OK send PASS
say # PASS x
  # +OK maildrop open
say # STAT
";

const ONE: &[u8] = b"  # +OK 1 138\n";

const NONE: &[u8] = b"  # +OK 0 0\n";

const LEAVES: &[u8] = b"\
say # QUIT
  # +OK bye
  * # closed
";

// Adds the template, with this session for each `#` and this name for each `~`.
fn fill(script: &mut Script, template: &[u8], session: u64, name: &str) -> Result<(), AllocError> {
    let number = session.to_string(script.alloc)?;
    let mut text = Vec::new(script.alloc);
    for octet in template {
        match octet {
            b'#' => text.extend_from_slice(number.as_bytes())?,
            b'~' => text.extend_from_slice(name.as_bytes())?,
            _ => text.push(*octet)?,
        }
    }
    script.add(&text)
}

// The names u001 to u101.
fn names(alloc: Global) -> Result<Vec<String>, Fail> {
    let mut names = Vec::new(alloc);
    for number in 1..102u8 {
        names.push(format!(in alloc; "u{number:03}")?)?;
    }
    Ok(names)
}

// Adds the plan, the message, and what each of them reads.
fn tell(script: &mut Script, names: &[String]) -> Result<(), AllocError> {
    script.add(PLAN)?;
    for name in names {
        fill(script, b"user ~ x\n", 0, name)?;
    }
    script.add(HELO_MAIL)?;
    for name in names.iter().take(100) {
        fill(
            script,
            b"say 1 RCPT TO:<~>\n  1 250 recipient ok\n",
            0,
            name,
        )?;
    }
    script.add(REST)?;
    for (session, name) in (2..103u64).zip(names) {
        fill(script, READS, session, name)?;
        fill(
            script,
            if session <= 101 { ONE } else { NONE },
            session,
            name,
        )?;
        fill(script, LEAVES, session, name)?;
    }
    script.add(b"end\n")
}

// The journal of the message.
fn stored(alloc: Global, names: &[String]) -> Result<Journal, Fail> {
    let mut users = Vec::new(alloc);
    for name in names.iter().take(100) {
        users.push(name.as_bytes())?;
    }
    let mut journal = Journal::new(alloc)?;
    journal.message(b"bob@b.example", b"c.example", &users, b"to many\r\n")?;
    Ok(journal)
}

#[test]
fn a_hundred_recipients_are_taken(rt: HostRuntime) -> Result<(), Fail> {
    let names = names(rt.alloc())?;
    let journal = stored(rt.alloc(), &names)?;
    let mut script = Script::new(rt.alloc(), &[])?;
    tell(&mut script, &names)?;
    let run = script.run(&rt, 0)?;
    journal.is_held(&rt, run.disk.octets());
    Ok(())
}
