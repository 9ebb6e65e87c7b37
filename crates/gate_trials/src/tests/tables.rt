// What clients say, how the desk plays their calls, and what is written.
use session_gate::Served;

pub(super) struct Case<'a> {
    pub(super) script: &'a [u8],
    pub(super) says: &'a [u8],
    pub(super) hears: &'a [u8],
    pub(super) served: Served,
    // how many Leaves are begun
    pub(super) leaves: u64,
}

// A message, told once.
const MAIL: &[u8] = b"HELO c\r\nMAIL FROM:<a>\r\nRCPT TO:<alice>\r\nDATA\r\nx\r\n.\r\nQUIT\r\n";

const STORED: &[u8] =
    b"220 node1 Porcupine ready\r\n250 node1\r\n250 sender ok\r\n250 recipient ok\r\n354 end with a line that is a single period\r\n250 stored\r\n221 node1 closing\r\n";

const NOT_STORED: &[u8] =
    b"220 node1 Porcupine ready\r\n250 node1\r\n250 sender ok\r\n250 recipient ok\r\n354 end with a line that is a single period\r\n451 not stored, try again\r\n221 node1 closing\r\n";

// What is heard once a hundred recipients were taken.
pub(super) const TAKEN: &[u8] =
    b"354 end with a line that is a single period\r\n250 stored\r\n221 node1 closing\r\n";

// A message as far as its text, and what is heard of one whose text is too large.
pub(super) const BEGINS: &[u8] = b"HELO c\r\nMAIL FROM:<a>\r\nRCPT TO:<alice>\r\nDATA\r\n";

pub(super) const TOO_LARGE: &[u8] =
    b"220 node1 Porcupine ready\r\n250 node1\r\n250 sender ok\r\n250 recipient ok\r\n354 end with a line that is a single period\r\n552 message too large\r\n221 node1 closing\r\n";

const MAIL_DOWN: &[u8] =
    b"220 node1 Porcupine ready\r\n250 node1\r\n250 sender ok\r\n250 recipient ok\r\n354 end with a line that is a single period\r\n421 node1 down\r\n";

const MAIL_CUT: &[u8] =
    b"220 node1 Porcupine ready\r\n250 node1\r\n250 sender ok\r\n250 recipient ok\r\n354 end with a line that is a single period\r\n";

pub(super) const SMTP: [Case<'static>; 10] = [
    Case {
        script: b"s",
        says: MAIL,
        hears: STORED,
        served: Served::Ended,
        leaves: 0,
    },
    Case {
        script: b"l",
        says: MAIL,
        hears: STORED,
        served: Served::Ended,
        leaves: 0,
    },
    Case {
        script: b"f",
        says: MAIL,
        hears: NOT_STORED,
        served: Served::Ended,
        leaves: 0,
    },
    Case {
        script: b"w",
        says: MAIL,
        hears: NOT_STORED,
        served: Served::Ended,
        leaves: 0,
    },
    Case {
        script: b"W",
        says: MAIL,
        hears: NOT_STORED,
        served: Served::Ended,
        leaves: 0,
    },
    Case {
        script: b"d",
        says: MAIL,
        hears: MAIL_DOWN,
        served: Served::Ended,
        leaves: 0,
    },
    Case {
        script: b"D",
        says: MAIL,
        hears: MAIL_DOWN,
        served: Served::Ended,
        leaves: 0,
    },
    Case {
        script: b"n",
        says: MAIL,
        hears: MAIL_CUT,
        served: Served::NoMemory,
        leaves: 0,
    },
    Case {
        script: b"N",
        says: MAIL,
        hears: MAIL_CUT,
        served: Served::NoMemory,
        leaves: 0,
    },
    Case {
        script: b"",
        says: b"HELO c\r\nNO",
        hears: b"220 node1 Porcupine ready\r\n250 node1\r\n",
        served: Served::Ended,
        leaves: 0,
    },
];

// A client that logs in, reads message 1, marks message 2 and quits.
const READ: &[u8] = b"USER alice\r\nPASS sesame\r\nRETR 1\r\nDELE 2\r\nQUIT\r\n";

const READ_ALL: &[u8] =
    b"+OK node1 ready <3.12.1000000000@node1>\r\n+OK send PASS\r\n+OK maildrop open\r\n+OK 17 octets\r\nSubject: x\r\n\r\n..\r\n.\r\n+OK message 2 deleted\r\n+OK bye\r\n";

const GONE: &[u8] =
    b"+OK node1 ready <3.12.1000000000@node1>\r\n+OK send PASS\r\n+OK maildrop open\r\n-ERR message was deleted\r\n+OK message 2 deleted\r\n-ERR [SYS/TEMP] some messages may remain\r\n";

const READ_DOWN: &[u8] =
    b"+OK node1 ready <3.12.1000000000@node1>\r\n+OK send PASS\r\n+OK maildrop open\r\n-ERR [SYS/TEMP] node1 down\r\n";

const READ_WORN: &[u8] =
    b"+OK node1 ready <3.12.1000000000@node1>\r\n+OK send PASS\r\n+OK maildrop open\r\n-ERR [SYS/TEMP] try again later\r\n+OK message 2 deleted\r\n-ERR [SYS/TEMP] some messages may remain\r\n";

// A client that logs in and quits.
const ENTER: &[u8] = b"USER alice\r\nPASS sesame\r\nQUIT\r\n";

const LATER: &[u8] =
    b"+OK node1 ready <3.12.1000000000@node1>\r\n+OK send PASS\r\n-ERR [SYS/TEMP] try again later\r\n+OK bye\r\n";

const IN_USE: &[u8] =
    b"+OK node1 ready <3.12.1000000000@node1>\r\n+OK send PASS\r\n-ERR [IN-USE] maildrop is open elsewhere\r\n+OK bye\r\n";

const ENTER_DOWN: &[u8] =
    b"+OK node1 ready <3.12.1000000000@node1>\r\n+OK send PASS\r\n-ERR [SYS/TEMP] node1 down\r\n";

const ENTER_CUT: &[u8] = b"+OK node1 ready <3.12.1000000000@node1>\r\n+OK send PASS\r\n";

pub(super) const POP: [Case<'static>; 16] = [
    Case {
        script: b"sss",
        says: READ,
        hears: READ_ALL,
        served: Served::Ended,
        leaves: 1,
    },
    Case {
        script: b"lll",
        says: READ,
        hears: READ_ALL,
        served: Served::Ended,
        leaves: 1,
    },
    Case {
        script: b"sxf",
        says: READ,
        hears: GONE,
        served: Served::Ended,
        leaves: 1,
    },
    Case {
        script: b"sww",
        says: READ,
        hears: READ_WORN,
        served: Served::Ended,
        leaves: 1,
    },
    Case {
        script: b"sWW",
        says: READ,
        hears: READ_WORN,
        served: Served::Ended,
        leaves: 1,
    },
    Case {
        script: b"sd",
        says: READ,
        hears: READ_DOWN,
        served: Served::Ended,
        leaves: 0,
    },
    Case {
        script: b"sD",
        says: READ,
        hears: READ_DOWN,
        served: Served::Ended,
        leaves: 0,
    },
    Case {
        script: b"u",
        says: ENTER,
        hears: IN_USE,
        served: Served::Ended,
        leaves: 0,
    },
    Case {
        script: b"p",
        says: ENTER,
        hears: LATER,
        served: Served::Ended,
        leaves: 0,
    },
    Case {
        script: b"w",
        says: ENTER,
        hears: LATER,
        served: Served::Ended,
        leaves: 0,
    },
    Case {
        script: b"W",
        says: ENTER,
        hears: LATER,
        served: Served::Ended,
        leaves: 0,
    },
    Case {
        script: b"d",
        says: ENTER,
        hears: ENTER_DOWN,
        served: Served::Ended,
        leaves: 0,
    },
    Case {
        script: b"n",
        says: ENTER,
        hears: ENTER_CUT,
        served: Served::NoMemory,
        leaves: 0,
    },
    Case {
        script: b"x",
        says: b"USER alice\r\nPASS sesame\r\nQUIT\r\n",
        hears: b"+OK node1 ready <3.12.1000000000@node1>\r\n+OK send PASS\r\n-ERR name or secret is wrong\r\n+OK bye\r\n",
        served: Served::Ended,
        leaves: 0,
    },
    Case {
        script: b"s",
        says: b"APOP alice 1c9053e391e7f9bbf5501b773c9dbbfc\r\nQUIT\r\n",
        hears: b"+OK node1 ready <3.12.1000000000@node1>\r\n+OK maildrop open\r\n+OK bye\r\n",
        served: Served::Ended,
        leaves: 1,
    },
    Case {
        script: b"x",
        says: b"APOP alice 1c9053e391e7f9bbf5501b773c9dbbfc\r\nQUIT\r\n",
        hears: b"+OK node1 ready <3.12.1000000000@node1>\r\n-ERR name or secret is wrong\r\n+OK bye\r\n",
        served: Served::Ended,
        leaves: 0,
    },
];
