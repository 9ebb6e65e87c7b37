// Lines, and what RFC 1939 and our profile of it make of them.
use pop_wire::{
    PopCommand, PopFault, apop_digest, blanks_at_end_mean_nothing, case_of_verb_means_nothing,
    larger_numbers_are_bad, more_spaces_mean_nothing, names_are_read, numbers_are_read,
    other_verbs_are_unknown, read_command, secrets_are_read, two_arguments_are_too_many,
};
use std::alloc::AllocError;

#[test]
fn reads_commands(rt: HostRuntime) {
    let bob = Ok(PopCommand::User { name: b"Bob" });
    let space = Ok(PopCommand::Pass { secret: b" " });
    let all = Ok(PopCommand::List { number: None });
    let seven = Ok(PopCommand::List { number: Some(7) });
    let last = Ok(PopCommand::Uidl {
        number: Some(u32::MAX),
    });
    let lines: [(&[u8], Result<PopCommand, PopFault>); 33] = [
        (b"USER Bob", bob),
        (b"user Bob \t", bob),
        (b"uSeR   Bob", bob),
        (b"PASS  ", space),
        (b"pass  ", space),
        (b"PASS \t", Ok(PopCommand::Pass { secret: b"\t" })),
        (
            b"PASS   a  b\t ",
            Ok(PopCommand::Pass {
                secret: b"  a  b\t ",
            }),
        ),
        (
            b"pAsS \x00\xFF",
            Ok(PopCommand::Pass {
                secret: b"\x00\xFF",
            }),
        ),
        (
            b"APOP Mrose c4c9334bac560ecc979e58001b3e22fb",
            Ok(PopCommand::Apop {
                name: b"Mrose",
                digest: MROSE,
            }),
        ),
        (
            b"aPoP  mrose   C4C9334BAC560ECC979E58001B3E22FB \t",
            Ok(PopCommand::Apop {
                name: b"mrose",
                digest: MROSE,
            }),
        ),
        (b"STAT", Ok(PopCommand::Stat)),
        (b"stat\t ", Ok(PopCommand::Stat)),
        (b"LIST", all),
        (b"LIST  ", all),
        (b"list\t", all),
        (b"LIST 7", seven),
        (b"List   7\t", seven),
        (b"LIST 0000000007", seven),
        (b"UIDL", Ok(PopCommand::Uidl { number: None })),
        (b"UIDL 4294967295", last),
        (b"uidl  4294967295  ", last),
        (b"RETR 0", Ok(PopCommand::Retr { number: 0 })),
        (b"retr  12 ", Ok(PopCommand::Retr { number: 12 })),
        (b"DELE 1", Ok(PopCommand::Dele { number: 1 })),
        (b"dele  0 ", Ok(PopCommand::Dele { number: 0 })),
        (b"Quit ", Ok(PopCommand::Quit)),
        (
            b"TOP 1 0",
            Ok(PopCommand::Top {
                number: 1,
                lines: 0,
            }),
        ),
        (
            b"top  0007   4294967295 \t",
            Ok(PopCommand::Top {
                number: 7,
                lines: u32::MAX,
            }),
        ),
        (b"NOOP", Ok(PopCommand::Noop)),
        (b"noop \t", Ok(PopCommand::Noop)),
        (b"RSET", Ok(PopCommand::Rset)),
        (b"CAPA", Ok(PopCommand::Capa)),
        (b"cApA  ", Ok(PopCommand::Capa)),
    ];
    for (at, (line, wanted)) in lines.iter().enumerate() {
        assert_eq!(rt; read_command(line), *wanted, "at {at}");
    }
}

// The digest of RFC 1939, section 7.
const MROSE: [u8; 16] = [
    0xC4, 0xC9, 0x33, 0x4B, 0xAC, 0x56, 0x0E, 0xCC, 0x97, 0x9E, 0x58, 0x00, 0x1B, 0x3E, 0x22, 0xFB,
];

#[test]
fn digests_are_those_of_the_rfc(rt: HostRuntime) {
    let banner = b"<1896.697170952@dbc.mtview.ca.us>";
    assert_eq!(rt; apop_digest(banner, b"tanstaaf"), MROSE);
    assert!(rt; apop_digest(b"", b"tanstaaf") != MROSE);
    assert!(rt; apop_digest(b"tanstaaf", banner) != MROSE);
}

#[test]
fn refuses_arguments(rt: HostRuntime) {
    let arguments: [&[u8]; 42] = [
        b"USER",
        b"USER \t",
        b"USER a b",
        b"USER @a",
        b"USER a<b",
        b"USER <a>",
        b"USER a\tb",
        b"USER a\x7F",
        b"PASS",
        b"PASS ",
        b"PASS\t",
        b"PASS\t ",
        b"APOP",
        b"APOP mrose",
        b"APOP mrose ",
        b"APOP c4c9334bac560ecc979e58001b3e22fb",
        b"APOP @ c4c9334bac560ecc979e58001b3e22fb",
        b"APOP mrose c4c9334bac560ecc979e58001b3e22f",
        b"APOP mrose c4c9334bac560ecc979e58001b3e22fb0",
        b"APOP mrose c4c9334bac560ecc979e58001b3e22fg",
        b"APOP mrose c4c9334bac560ecc979e58001b3e22fb x",
        b"STAT 1",
        b"STAT \tx",
        b"LIST 1 2",
        b"LIST x y",
        b"LIST \t 1",
        b"UIDL 1  2",
        b"RETR",
        b"RETR  ",
        b"retr\t",
        b"RETR 1 x",
        b"DELE",
        b"DELE 1 2",
        b"QUIT now",
        b"TOP",
        b"TOP 1",
        b"TOP x",
        b"TOP 1 2 3",
        b"TOP 1 2  x",
        b"NOOP x",
        b"RSET 1",
        b"CAPA all",
    ];
    for (at, line) in arguments.iter().enumerate() {
        assert_eq!(rt; read_command(line), Err(PopFault::BadArgument), "at {at}");
    }
}

#[test]
fn refuses_numbers_and_verbs(rt: HostRuntime) {
    let numbers: [&[u8]; 16] = [
        b"LIST x",
        b"LIST -1",
        b"LIST +1",
        b"LIST 1\t2",
        b"UIDL 4294967296",
        b"UIDL 00000000001",
        b"UIDL 1.",
        b"RETR 9999999999",
        b"RETR 18446744073709551617",
        b"RETR \t1",
        b"retr :",
        b"DELE 4294967296",
        b"TOP x 1",
        b"TOP 1 x",
        b"TOP 1 4294967296",
        b"TOP 1 \t2",
    ];
    for (at, line) in numbers.iter().enumerate() {
        assert_eq!(rt; read_command(line), Err(PopFault::BadNumber), "at {at}");
    }
    let verbs: [&[u8]; 16] = [
        b"",
        b" ",
        b"\t",
        b" STAT",
        b"USERS bob",
        b"USE bob",
        b"PASS\tx",
        b"PASS\t x",
        b"LIST\t1",
        b"RETR1",
        b"QUIT\tnow",
        b"DELE\t1",
        b"TOP\t1 0",
        b"APOP\tbob 0",
        b"NOO",
        b"RSETS",
    ];
    for (at, line) in verbs.iter().enumerate() {
        assert_eq!(rt; read_command(line), Err(PopFault::UnknownVerb), "at {at}");
    }
}

#[test]
fn no_octet_is_a_verb(rt: HostRuntime) {
    for octet in 0..=255u8 {
        assert_eq!(rt;
            read_command(&[octet]),
            Err(PopFault::UnknownVerb),
            "at {octet}"
        );
    }
}

#[test]
fn keeps_limits_of_names(rt: HostRuntime) -> Result<(), AllocError> {
    for length in [64, 65] {
        let mut line = Vec::from_slice(rt.alloc(), b"USER ")?;
        for _ in 0..length {
            line.push(b'x')?;
        }
        assert_eq!(rt; read_command(&line).is_ok(), length == 64, "at {length}");
    }
    Ok(())
}

#[test]
fn laws_are_said() {
    names_are_read();
    secrets_are_read();
    numbers_are_read();
    larger_numbers_are_bad();
    two_arguments_are_too_many();
    blanks_at_end_mean_nothing();
    more_spaces_mean_nothing();
    case_of_verb_means_nothing();
    other_verbs_are_unknown();
}
