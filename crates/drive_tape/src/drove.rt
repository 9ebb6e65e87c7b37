// How the work on a tape ended, and why.
ghost use Rattle.std.specs.Prelude.{◌≡◌};
ghost use Rattle.mail_model.specs.Site.{fault_name};
ghost use Rattle.drive_tape.specs.Faults.{tape_fault_seen};

/// Why a line of a tape is refused.
#[derive(Clone, Copy, Debug, PartialEq, Eq)]
pub enum TapeFault {
    /// A line that is no line of the plan or breaks its rule, or a plan that does not fit together or is not served.
    BadPlan,
    /// A line of no form, one of more than 65,535 octets, or a tape that ends before its line is whole.
    BadLine,
    /// The session was never opened, or has ended; those of a node that is down have ended.
    NoSuchSession,
    /// 256 sessions stand.
    TooManySessions,
    /// The node is not of the plan. It comes before what is wrong with a node.
    NoSuchNode,
    /// The node is lost for good.
    NodeLost,
    /// The node is down. For `open` it comes before `TooManySessions`.
    NodeDown,
    /// The node that is to start is up.
    NodeUp,
    /// The letter is not in flight.
    NoSuchLetter,
    /// The call stands no more.
    NoSuchTicket,
    /// The node has no group open.
    NotAGroup,
    /// A number that the step needs is used up.
    Worn,
    /// Not even the first letter finds room; of a group, not all of its letters do.
    NoRoom,
    /// 1,099,511,627,776 octets were taken after `go`, and no whole line is left of them.
    TapeTooLong,
}

impl TapeFault {
    /// The name by which the transcript tells the fault.
    pub fn name(self) -> &'static [u8]
        ensures { result.now ≡ fault_name (tape_fault_seen self) }
    {
        match self {
            TapeFault::BadPlan => b"BadPlan",
            TapeFault::BadLine => b"BadLine",
            TapeFault::NoSuchSession => b"NoSuchSession",
            TapeFault::TooManySessions => b"TooManySessions",
            TapeFault::NoSuchNode => b"NoSuchNode",
            TapeFault::NodeLost => b"NodeLost",
            TapeFault::NodeDown => b"NodeDown",
            TapeFault::NodeUp => b"NodeUp",
            TapeFault::NoSuchLetter => b"NoSuchLetter",
            TapeFault::NoSuchTicket => b"NoSuchTicket",
            TapeFault::NotAGroup => b"NotAGroup",
            TapeFault::Worn => b"Worn",
            TapeFault::NoRoom => b"NoRoom",
            TapeFault::TapeTooLong => b"TapeTooLong",
        }
    }
}

/// Why no line was handled.
#[derive(Clone, Copy, Debug, PartialEq, Eq)]
pub enum Stop {
    /// The line is `end`.
    Ended,
    /// The source failed.
    ReadFault,
    /// The sink failed.
    WriteFault,
    /// The tape has a fault.
    Bad(TapeFault),
    /// Memory ran out.
    NoMemory,
}

/// How the work ended, and at which line of the tape. Lines are numbered from 1, the plan lines among them.
#[derive(Clone, Copy, Debug, PartialEq, Eq)]
pub enum Drove {
    /// The line `end` was read, and all before it was done and written.
    Ended,
    /// The source failed before a line was whole.
    ReadFault,
    /// The sink failed at what this line writes. What gave it is done, and no unit after it was heard.
    WriteFault(u64),
    /// This line has this fault, and nothing was done for it.
    BadTape(u64, TapeFault),
    /// Memory ran out at this line. What it does may be done, or in part.
    NoMemory(u64),
}
