// Each public call on a few octets.
use line_words::{
    behind_word, first_word, has_space, is_word, len_before, number, split_verb, trimmed, unspaced,
};

#[test]
fn cuts_lines(rt: HostRuntime) {
    let lines: [(&[u8], &[u8], &[u8], &[u8], &[u8]); 6] = [
        (b"", b"", b"", b"", b""),
        (b" \t", b"", b"", b"", b"\t"),
        (b"DATA", b"DATA", b"DATA", b"", b""),
        (b"a  b\t ", b"a  b", b"a", b"  b", b" b\t "),
        (b" a", b" a", b"", b" a", b"a"),
        (b"a\tb c", b"a\tb c", b"a\tb", b" c", b"c"),
    ];
    for (at, (line, kept, verb, rest, behind)) in lines.iter().enumerate() {
        let (first, others) = split_verb(trimmed(line));
        assert!(rt; trimmed(line) == *kept, "at {at}");
        assert!(rt; first == *verb && others == *rest, "at {at}");
        assert!(rt; behind_word(line) == *behind, "at {at}");
    }
}

#[test]
fn knows_words(rt: HostRuntime) {
    let pairs: [(&[u8], &[u8], bool); 5] = [
        (b"quit", b"QUIT", true),
        (b"QuIt", b"QUIT", true),
        (b"quits", b"QUIT", false),
        (b"qui", b"QUIT", false),
        (b"", b"", true),
    ];
    for (at, (octets, word, same)) in pairs.iter().enumerate() {
        assert_eq!(rt; is_word(octets, word), *same, "at {at}");
    }
}

#[test]
fn finds_spaces(rt: HostRuntime) {
    let cases: [(&[u8], &[u8], &[u8], bool); 4] = [
        (b"", b"", b"", false),
        (b"  ", b"", b"", true),
        (b"  ann s0", b"", b"ann s0", true),
        (b"\tann", b"\tann", b"\tann", false),
    ];
    for (at, (octets, first, others, some)) in cases.iter().enumerate() {
        assert!(rt;
            first_word(octets) == *first && unspaced(octets) == *others,
            "at {at}"
        );
        assert_eq!(rt; has_space(octets), *some, "at {at}");
    }
    assert_eq!(rt; len_before(b':', b"@a,@b:c:d"), 5);
    assert_eq!(rt; len_before(b':', b"@a"), 2);
}

#[test]
fn reads_numbers(rt: HostRuntime) {
    let cases: [(&[u8], Option<u64>); 9] = [
        (b"0", Some(0)),
        (b"00000000000000000007", Some(7)),
        (b"18446744073709551615", Some(u64::MAX)),
        (b"18446744073709551616", None),
        (b"99999999999999999999", None),
        (b"000000000000000000007", None),
        (b"", None),
        (b"1:", None),
        (b"/1", None),
    ];
    for (at, (word, value)) in cases.iter().enumerate() {
        assert_eq!(rt; number(word), *value, "at {at}");
    }
}
