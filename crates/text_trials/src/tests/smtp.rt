// Lines, and what RFC 5321 and our profile of it make of them.
use smtp_wire::{
    Command, SmtpFault, blanks_at_end_mean_nothing, case_of_verb_means_nothing, names_are_read,
    read_command, recipients_are_read, routes_are_left_out, senders_are_read,
};
use std::alloc::AllocError;

#[test]
fn reads_commands(rt: HostRuntime) {
    let client = Ok(Command::Helo {
        name: b"c.example",
        extended: false,
    });
    let bob = Ok(Command::Mail {
        sender: b"bob@b.example",
        size: None,
    });
    let nobody = Ok(Command::Mail {
        sender: b"",
        size: None,
    });
    let alice = Ok(Command::Rcpt { path: b"alice" });
    let lines: [(&[u8], Result<Command, SmtpFault>); 18] = [
        (b"HELO c.example", client),
        (b"helo c.example", client),
        (b"HeLo   c.example  \t", client),
        (b"MAIL FROM:<bob@b.example>", bob),
        (b"mail from:   <bob@b.example>", bob),
        (b"mAiL    fRoM:<bob@b.example>\t ", bob),
        (b"MAIL   FROM:<>", nobody),
        (
            b"MAIL FROM:<@a,@b:bob@c>",
            Ok(Command::Mail {
                sender: b"bob@c",
                size: None,
            }),
        ),
        (
            b"MAIL FROM:<\"a b\"@c>",
            Ok(Command::Mail {
                sender: b"\"a b\"@c",
                size: None,
            }),
        ),
        (b"RCPT TO:<alice>", alice),
        (b"RCPT TO:<@a:alice>", alice),
        (
            b"rcpt to: <Alice@Example.ORG>",
            Ok(Command::Rcpt {
                path: b"Alice@Example.ORG",
            }),
        ),
        (
            b"Rcpt   To:<POSTMASTER>",
            Ok(Command::Rcpt {
                path: b"POSTMASTER",
            }),
        ),
        (b"DATA", Ok(Command::Data)),
        (b"data \t", Ok(Command::Data)),
        (b"QUIT", Ok(Command::Quit)),
        (b"quit\t", Ok(Command::Quit)),
        (b"Quit  ", Ok(Command::Quit)),
    ];
    for (at, (line, wanted)) in lines.iter().enumerate() {
        assert_eq!(rt; read_command(line), *wanted, "at {at}");
    }
}

#[test]
fn refuses_lines(rt: HostRuntime) {
    let bad: [&[u8]; 20] = [
        b"HELO",
        b"HELO ",
        b"HELO a b",
        b"HELO \x80",
        b"HELO\t",
        b"MAIL",
        b"MAIL FROM:",
        b"MAIL FROM:bob",
        b"MAIL FROM:<bob",
        b"MAIL FROM :<bob>",
        b"MAIL TO:<bob>",
        b"MAIL FROM:<@a:>",
        b"MAIL FROM:<@a>",
        b"MAIL FROM:<bob>x",
        b"MAIL FROM:<bo<b>",
        b"MAIL FROM:<bo\tb>",
        b"RCPT TO:<>",
        b"RCPT TO:<@a:>",
        b"DATA x",
        b"QUIT now",
    ];
    for (at, line) in bad.iter().enumerate() {
        assert_eq!(rt; read_command(line), Err(SmtpFault::BadArgument), "at {at}");
    }
    let unknown: [&[u8]; 8] = [
        b"",
        b" ",
        b" HELO x",
        b"HELOX y",
        b"MAILFROM:<bob>",
        b"NOO",
        b"RSETS",
        b"DATA\tx",
    ];
    for (at, line) in unknown.iter().enumerate() {
        assert_eq!(rt; read_command(line), Err(SmtpFault::UnknownVerb), "at {at}");
    }
}

#[test]
fn reads_parameters(rt: HostRuntime) {
    let client = Ok(Command::Helo {
        name: b"c.example",
        extended: true,
    });
    let bob = |size| {
        Ok(Command::Mail {
            sender: b"bob".as_slice(),
            size,
        })
    };
    let most = 99_999_999_999_999_999_999;
    let lines: [(&[u8], Result<Command, SmtpFault>); 16] = [
        (b"EHLO c.example", client),
        (b"eHlO   c.example\t", client),
        (b"MAIL FROM:<bob> SIZE=0", bob(Some(0))),
        (
            b"MAIL FROM:<bob>  size=99999999999999999999",
            bob(Some(most)),
        ),
        (b"MAIL FROM:<bob> BODY=7BIT", bob(None)),
        (
            b"MAIL FROM:<bob> SIZE=00000000000000000007 body=8bitmime ",
            bob(Some(7)),
        ),
        (b"MAIL FROM:<bob> BODY=8BITMIME   Size=1", bob(Some(1))),
        (
            b"MAIL FROM:<@a,@b:bob> SIZE=18446744073709551616",
            bob(Some(18_446_744_073_709_551_616)),
        ),
        (b"RSET", Ok(Command::Rset)),
        (b"rset \t", Ok(Command::Rset)),
        (b"NOOP", Ok(Command::Noop)),
        (b"noop any  thing", Ok(Command::Noop)),
        (b"NOOP \x00", Ok(Command::Noop)),
        (b"VRFY alice", Ok(Command::Vrfy)),
        (b"vrfy  a b", Ok(Command::Vrfy)),
        (b"VRFY \tx", Ok(Command::Vrfy)),
    ];
    for (at, (line, wanted)) in lines.iter().enumerate() {
        assert_eq!(rt; read_command(line), *wanted, "at {at}");
    }
}

#[test]
fn faults_come_from_the_left(rt: HostRuntime) {
    let lines: [(SmtpFault, &[u8]); 27] = [
        (SmtpFault::BadArgument, b"EHLO"),
        (SmtpFault::BadArgument, b"EHLO a b"),
        (SmtpFault::BadArgument, b"RSET x"),
        (SmtpFault::BadArgument, b"VRFY \t"),
        (SmtpFault::BadArgument, b"MAIL FROM:<bob> SIZE"),
        (SmtpFault::BadArgument, b"MAIL FROM:<bob> SIZE="),
        (SmtpFault::BadArgument, b"MAIL FROM:<bob> SIZE=1x"),
        (
            SmtpFault::BadArgument,
            b"MAIL FROM:<bob> SIZE=100000000000000000000",
        ),
        (SmtpFault::BadArgument, b"MAIL FROM:<bob> SIZE=1 SIZE=1"),
        (SmtpFault::BadArgument, b"MAIL FROM:<bob> BODY"),
        (SmtpFault::BadArgument, b"MAIL FROM:<bob> BODY=8BIT"),
        (
            SmtpFault::BadArgument,
            b"MAIL FROM:<bob> BODY=7BIT SIZE=1 BODY=7BIT",
        ),
        (SmtpFault::BadArgument, b"MAIL FROM:<bob> SIZE= X=1"),
        (SmtpFault::BadArgument, b"MAIL FROM:<bob> X\x01=1"),
        (SmtpFault::BadArgument, b"MAIL FROM:<bob>\tSIZE=1"),
        (SmtpFault::BadArgument, b"MAIL FROM:<@a> X=1"),
        (SmtpFault::BadArgument, b"RCPT TO:<a>x"),
        (SmtpFault::BadArgument, b"RCPT TO:<a> \x7F"),
        (SmtpFault::BadParameter, b"MAIL FROM:<bob> X=1 SIZE="),
        (SmtpFault::BadParameter, b"MAIL FROM:<bob> SIZE=1 AUTH=<>"),
        (SmtpFault::BadParameter, b"MAIL FROM:<bob> =1"),
        (SmtpFault::BadParameter, b"RCPT TO:<a> NOTIFY=NEVER \x7F"),
        (SmtpFault::BadParameter, b"RCPT TO:<a> SIZE=1"),
        (SmtpFault::NotDone, b"EXPN"),
        (SmtpFault::NotDone, b"expn list"),
        (SmtpFault::NotDone, b"HELP"),
        (SmtpFault::NotDone, b"help \x00"),
    ];
    for (at, (fault, line)) in lines.iter().enumerate() {
        assert_eq!(rt; read_command(line), Err(*fault), "at {at}");
    }
}

#[test]
fn no_octet_is_a_verb(rt: HostRuntime) {
    for octet in 0..=255u8 {
        assert_eq!(rt;
            read_command(&[octet]),
            Err(SmtpFault::UnknownVerb),
            "at {octet}"
        );
    }
}

#[test]
fn keeps_limits(rt: HostRuntime) -> Result<(), AllocError> {
    for (verb, most) in [
        (b"HELO ".as_slice(), 255),
        (b"MAIL FROM:<".as_slice(), 512),
        (b"RCPT TO:<@a:".as_slice(), 512),
    ] {
        for length in [most, most + 1] {
            let mut line = Vec::from_slice(rt.alloc(), verb)?;
            for _ in 0..length {
                line.push(b'x')?;
            }
            if most == 512 {
                line.push(b'>')?;
            }
            assert_eq!(rt;
                read_command(&line).is_ok(),
                length == most,
                "at {length} of {most}"
            );
        }
    }
    Ok(())
}

#[test]
fn laws_are_said() {
    names_are_read();
    senders_are_read();
    recipients_are_read();
    routes_are_left_out();
    blanks_at_end_mean_nothing();
    case_of_verb_means_nothing();
}
