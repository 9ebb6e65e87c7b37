//! Connections over a desk that plays what it is told to.
mod edges;
mod filing;
mod rows;
mod staged;
mod tables;
mod users;

use edges::{CutSource, FullSink};
use io_edge::faulty::{FaultySink, FaultySource};
use io_edge::{OpenGate, Sink, SliceSource, Source, VecSink};
use mail_base::{NodeNo, Plan};
use session_gate::{Served, serve_pop, serve_smtp};
use staged::{StagedDesk, StagedPass};
use std::alloc::{AllocError, Global};
use std::sync::Wait;
use std::test::Fail;
use tables::{POP, SMTP};

const LONG_MAIL: &[u8] = b"220 node1 Porcupine ready\r\n500 line too long\r\n221 node1 closing\r\n";

const LONG_READ: &[u8] =
    b"+OK node1 ready <3.12.1000000000@node1>\r\n-ERR line too long\r\n+OK bye\r\n";

// Serves a connection at node 1, and says how it ended.
fn serve<S: Source, K: Sink, R: Wait>(
    rt: &R,
    alloc: Global,
    pop: bool,
    desk: &StagedDesk,
    pass: &mut StagedPass,
    plan: &Plan,
    source: &mut S,
    sink: &mut K,
) -> Option<Served> {
    let node = NodeNo::new(1)?;
    Some(if pop {
        serve_pop(
            rt, alloc, &OpenGate, desk, pass, plan, node, 12, source, sink,
        )
    } else {
        serve_smtp(
            rt, alloc, &OpenGate, desk, pass, plan, node, 12, source, sink,
        )
    })
}

// How often calls that are played so are pending.
fn pending(script: &[u8]) -> u64 {
    let mut count = 0u64;
    for play in script {
        if *play == b'l' {
            count = count.saturating_add(2);
        }
    }
    count
}

// A letter is posted each time that a call is pending.
#[test]
fn connections_are_served_as_the_tables_say(rt: HostRuntime) -> Result<(), Fail> {
    let plan = users::plan(rt.alloc())?;
    for (pop, cases) in [(false, &SMTP[..]), (true, &POP[..])] {
        for case in cases {
            let desk = StagedDesk {
                up: true,
                script: case.script,
            };
            let mut pass = StagedPass::new();
            let mut source = SliceSource::new(case.says);
            let mut sink = VecSink::new(rt.alloc());
            let served = serve(
                &rt,
                rt.alloc(),
                pop,
                &desk,
                &mut pass,
                &plan,
                &mut source,
                &mut sink,
            );
            assert!(rt; served == Some(case.served));
            assert!(rt; sink.held.as_slice() == case.hears);
            assert!(rt; pass.tally.leaves == case.leaves && pass.posts == pending(case.script));
        }
    }
    Ok(())
}

fn add_line(out: &mut Vec<u8>, line: &[u8]) -> Result<(), AllocError> {
    out.extend_from_slice(line)?;
    out.extend_from_slice(b"\r\n")
}

// What a table of rows says, and what is heard: the greeting, and the lines that are indented.
fn parted(alloc: Global, greeting: &[u8], rows: &[u8]) -> Result<(Vec<u8>, Vec<u8>), AllocError> {
    let mut says = Vec::new(alloc);
    let mut hears = greeting.to_vec(alloc)?;
    for line in rows.split_inclusive(|octet| *octet == b'\n') {
        let line = line.strip_suffix(b"\n").unwrap_or(line);
        match line.strip_prefix(b"  ") {
            Some(reply) => add_line(&mut hears, reply)?,
            None => add_line(&mut says, line)?,
        }
    }
    Ok((says, hears))
}

// What is written to a client that says this, by a desk that plays its calls so.
fn heard<R: Wait>(
    rt: &R,
    alloc: Global,
    pop: bool,
    script: &[u8],
    says: &[u8],
) -> Result<Vec<u8>, Fail> {
    let plan = users::plan(alloc)?;
    let desk = StagedDesk { up: true, script };
    let mut pass = StagedPass::new();
    let mut source = SliceSource::new(says);
    let mut sink = VecSink::new(alloc);
    let served = serve(
        rt,
        alloc,
        pop,
        &desk,
        &mut pass,
        &plan,
        &mut source,
        &mut sink,
    );
    if served == Some(Served::Ended) {
        Ok(sink.held)
    } else {
        Err("not ended")?
    }
}

#[test]
fn each_row_has_its_reply(rt: HostRuntime) -> Result<(), Fail> {
    let alloc = rt.alloc();
    for (pop, script, greeting, table) in [
        (false, &b""[..], rows::SMTP_GREETING, rows::SMTP),
        (true, &b""[..], rows::POP_GREETING, rows::POP),
        (true, &b"fsfx"[..], rows::POP_GREETING, rows::POP_FAILING),
    ] {
        let (says, hears) = parted(alloc, greeting, table)?;
        let written = heard(&rt, alloc, pop, script, &says)?;
        assert!(rt; written.as_slice() == hears.as_slice());
    }
    Ok(())
}

// A line of 1,025 octets, and then QUIT.
#[test]
fn a_long_line_has_its_reply(rt: HostRuntime) -> Result<(), Fail> {
    let alloc = rt.alloc();
    let mut says = Vec::new(alloc);
    for _ in 0..1023 {
        says.push(b'x')?;
    }
    says.extend_from_slice(b"\r\nQUIT\r\n")?;
    let mail = heard(&rt, alloc, false, b"", &says)?;
    assert!(rt; mail.as_slice() == LONG_MAIL);
    let read = heard(&rt, alloc, true, b"", &says)?;
    assert!(rt; read.as_slice() == LONG_READ);
    Ok(())
}

// A message to 100 recipients; one more is not taken.
#[test]
fn a_hundred_recipients_are_taken(rt: HostRuntime) -> Result<(), Fail> {
    let alloc = rt.alloc();
    let mut says = b"HELO c\r\nMAIL FROM:<a>\r\n".to_vec(alloc)?;
    let mut hears = b"220 node1 Porcupine ready\r\n250 node1\r\n250 sender ok\r\n".to_vec(alloc)?;
    for number in 1..102u16 {
        says.extend_from_slice(b"RCPT TO:<")?;
        says.extend_from_slice(&users::numbered(number))?;
        says.extend_from_slice(b">\r\n")?;
        hears.extend_from_slice(if number > 100 {
            b"452 too many recipients\r\n"
        } else {
            b"250 recipient ok\r\n"
        })?;
    }
    says.extend_from_slice(b"DATA\r\nx\r\n.\r\nQUIT\r\n")?;
    hears.extend_from_slice(tables::TAKEN)?;
    let written = heard(&rt, alloc, false, b"", &says)?;
    assert!(rt; written.as_slice() == hears.as_slice());
    Ok(())
}

// A text of 16,777,217 octets, told in lines of 65 and one of 2.
#[test]
fn a_text_has_a_greatest_length(rt: HostRuntime) -> Result<(), Fail> {
    let alloc = rt.alloc();
    let mut says = tables::BEGINS.to_vec(alloc)?;
    for _ in 0..258_111u32 {
        says.extend_from_slice(&[b'x'; 63])?;
        says.extend_from_slice(b"\r\n")?;
    }
    says.extend_from_slice(b"\r\n.\r\nQUIT\r\n")?;
    let written = heard(&rt, alloc, false, b"", &says)?;
    assert!(rt; written.as_slice() == tables::TOO_LARGE);
    Ok(())
}

// Whichever write fails, a prefix was written; and no call is begun once one has failed.
#[test]
fn any_write_may_fail(rt: HostRuntime) -> Result<(), Fail> {
    let alloc = rt.alloc();
    let plan = users::plan(alloc)?;
    let desk = StagedDesk {
        up: true,
        script: b"",
    };
    for (pop, case) in [(false, &SMTP[0]), (true, &POP[0])] {
        let mut pass = StagedPass::new();
        let mut whole = false;
        for failing in 1..8 {
            let mut source = SliceSource::new(case.says);
            let mut sink = FaultySink::new(VecSink::new(alloc), failing);
            let served = serve(
                &rt,
                alloc,
                pop,
                &desk,
                &mut pass,
                &plan,
                &mut source,
                &mut sink,
            );
            let written = sink.inner;
            whole = written.held.as_slice() == case.hears;
            assert!(rt; case.hears.starts_with(written.held.as_slice()));
            assert!(rt;
                served
                    == Some(if whole {
                        Served::Ended
                    } else {
                        Served::WriteFault
                    })
            );
        }
        assert!(rt; whole);
    }
    Ok(())
}

// A source that fails after some octets: what was said to these is written, and a session that was let in leaves.
#[test]
fn a_source_may_fail_later(rt: HostRuntime) -> Result<(), Fail> {
    let alloc = rt.alloc();
    let plan = users::plan(alloc)?;
    let desk = StagedDesk {
        up: true,
        script: b"",
    };
    for (pop, says, hears, leaves) in [
        (
            false,
            &b"HELO c\r\nMAIL"[..],
            &b"220 node1 Porcupine ready\r\n250 node1\r\n"[..],
            0,
        ),
        (
            true,
            &b"USER alice\r\nPASS sesame\r\nDELE 1\r\n"[..],
            &b"+OK node1 ready <3.12.1000000000@node1>\r\n+OK send PASS\r\n+OK maildrop open\r\n+OK message 1 deleted\r\n"[..],
            1,
        ),
    ] {
        let mut pass = StagedPass::new();
        let mut source = FaultySource::new(SliceSource::new(says), 2);
        let mut sink = VecSink::new(alloc);
        let served = serve(
            &rt,
            alloc,
            pop,
            &desk,
            &mut pass,
            &plan,
            &mut source,
            &mut sink,
        );
        assert!(rt; served == Some(Served::ReadFault));
        assert!(rt; sink.held.as_slice() == hears);
        assert!(rt; pass.tally.leaves == leaves && pass.tally.dropped == 0);
    }
    Ok(())
}

// Each cut of the octets of a session into two reads gives the same.
#[test]
fn octets_may_come_in_two_reads(rt: HostRuntime) -> Result<(), Fail> {
    let plan = users::plan(rt.alloc())?;
    let desk = StagedDesk {
        up: true,
        script: b"",
    };
    for (pop, case) in [(false, &SMTP[0]), (true, &POP[0])] {
        for at in 1..case.says.len() {
            let mut pass = StagedPass::new();
            let (front, back) = case.says.split_at(at);
            let mut source = CutSource { front, back };
            let mut sink = VecSink::new(rt.alloc());
            let served = serve(
                &rt,
                rt.alloc(),
                pop,
                &desk,
                &mut pass,
                &plan,
                &mut source,
                &mut sink,
            );
            assert!(rt; served == Some(Served::Ended));
            assert!(rt; sink.held.as_slice() == case.hears);
        }
    }
    Ok(())
}

#[test]
fn ends_are_told_apart(rt: HostRuntime) -> Result<(), Fail> {
    let plan = users::plan(rt.alloc())?;
    let alloc = rt.alloc();
    let desk = StagedDesk {
        up: true,
        script: b"",
    };
    for pop in [false, true] {
        let mut pass = StagedPass::new();
        let mut source = FaultySource::new(SliceSource::new(b"NOOP\r\n"), 1);
        let mut sink = VecSink::new(alloc);
        let served = serve(
            &rt,
            alloc,
            pop,
            &desk,
            &mut pass,
            &plan,
            &mut source,
            &mut sink,
        );
        assert!(rt; served == Some(Served::ReadFault));
        let mut source = SliceSource::new(b"NOOP\r\n");
        let mut sink = FaultySink::new(VecSink::new(alloc), 1);
        let served = serve(
            &rt,
            alloc,
            pop,
            &desk,
            &mut pass,
            &plan,
            &mut source,
            &mut sink,
        );
        assert!(rt; served == Some(Served::WriteFault));
        let mut sink = FullSink { faults: 0 };
        let served = serve(
            &rt,
            alloc,
            pop,
            &desk,
            &mut pass,
            &plan,
            &mut source,
            &mut sink,
        );
        assert!(rt; served == Some(Served::WriteFault) && sink.faults == 1);
        let gone = StagedDesk {
            up: false,
            script: b"",
        };
        let mut sink = VecSink::new(alloc);
        let served = serve(
            &rt,
            alloc,
            pop,
            &gone,
            &mut pass,
            &plan,
            &mut source,
            &mut sink,
        );
        assert!(rt; served == Some(Served::Ended) && sink.held.is_empty());
        assert!(rt; pass.tally.down == 1 && source.rest.len() == 6);
    }
    Ok(())
}
