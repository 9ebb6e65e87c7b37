//! drive_tape: drives a cluster by the lines of a tape, and writes what that gives.
//!
//! SUMMARY
//!
//! `read_drive_head(alloc, source)` reads the plan lines of a tape through `go`, and gives the plan and
//! how many lines that took. The caller opens a world of that plan, on a disk for each of its nodes.
//! `drive(alloc, source, sink, world, from)` then handles the run lines until `end` or a stop, and answers a
//! `Drove` and the world.
//!
//! DESCRIPTION
//!
//! A line is read octet by octet, through its LF and no further, so whoever writes a tape by hand sees
//! what each line gives before the next is read. Whoever reads from a slow source puts a buffer before it.
//!
//! Nodes are numbered from 1. Sessions are numbered from 1 in order of `open`; one that has ended keeps its
//! number. Letters between nodes are numbered from 1 in the order in which they are put in flight.
//!
//! These run lines are about a session:
//!
//! - `open smtp n` and `open pop n` open a session at node n, whose greeting is written.
//! - `say k TEXT` feeds session k the line TEXT with its CRLF.
//! - `feed k HEX` feeds it these octets and no more.
//! - `close k` ends the session as its client goes away. Nothing is written. A call for whose answer it waits is
//!   given up first.
//! - `giveup k` gives up the call for whose answer session k waits. The session is answered that it failed, and
//!   hears on.
//!
//! And these move the cluster itself, set its clock or count its book. Each writes one line, but for `drop` and
//! `tick`, which write none:
//!
//! - `crash n` stops node n, which forgets all but its disk: `* node n down`.
//! - `start n` starts node n again, in its next boot b: `* node n up b`.
//! - `lose n` loses node n for good, with its disk: `* node n lost`.
//! - `post i` hands letter i to its receiver: `* i heard`, or `* i thrown WHY`. `again i` does the same, and the
//!   letter stays in flight.
//! - `drop i` drops letter i.
//! - `flow` posts the letter that has the lowest number until none is in flight: `* flowed`.
//! - `push n` has node n send each other node, in rising order, what it owes it, 64 states at most:
//!   `* sent c`, where c letters were put in flight. A node that is not up sends nothing.
//! - `widen n NAME ID m` makes node m a target of the copy that node n has of message ID of user NAME:
//!   `* widened`, or `* not widened` where there is no such copy here or m is a target of it.
//! - `tick s` sets the clock to s seconds since 1970, forward or back.
//! - `sum` counts the entries of the book: `* sum acked a struck s dropped d lost l`.
//!
//! `end` ends the tape; nothing after it is looked at.
//!
//! Where a node goes down, by `crash`, by `lose` or since its disk failed, each open session of that node, in
//! rising order of number, writes its last line and that it is closed. Where the disk of node n fails,
//! `* fault n` stands instead of the line that the work would have written. The tape goes on.
//!
//! A session that was fed makes its moves until it is at rest, waits, or has ended by QUIT, after whose
//! reply it is written that it is closed. What a move gives is written before the next. A move may begin a
//! call at the session's node: it is one step of the world, and then the session waits. After each line the
//! sessions that wait are asked for, in rising order of number: asking for one is a step of its own. Where
//! its answer is there, its reply is written, and it hears on, and may wait again; else it waits for a later
//! line. With one node each answer is there at once. Mail is read at any node; where a user's messages are held
//! elsewhere, a login or a fetch waits for letters as a delivery does.
//!
//! - a whole message is delivered: once so many nodes as the plan asks for have it on their disks and have said
//!   so, the ask enters it in the book. Then its session is answered `250 stored`.
//! - `PASS` after a good USER, and `APOP`, is a login; `RETR` or `TOP` of a message of the listing is a fetch of it.
//! - `QUIT` of a session that marked messages by `DELE` is a deletion of these: as the step begins it, they are
//!   gone from the disk of its node; by the ask the book says that each is deleted. Then the session is answered
//!   `+OK bye`, has ended, and leaves. A session that ends in another way, as by `close` or because its node
//!   goes down, deletes nothing.
//! - the end of a session that was let in, by QUIT or `close`, is a leave, after its last line was written.
//!
//! An `Entry` is a line of the transcript. `k TEXT` says that session k got the line TEXT, `* TEXT` that
//! something happened in the cluster, and `! TEXT` why the program ended; the last kind is written by
//! callers alone. In a line of a reply every octet outside 0x20 to 0x7E, and `\`, stands as `\xHH`.
//!
//! DIAGNOSTICS
//!
//! `Ended` where the line `end` was read, `ReadFault` where the source failed before a line was whole,
//! `WriteFault` where the sink failed, `NoMemory` where memory ran out, and `BadTape` where a line is
//! refused. Lines are numbered from 1, the plan lines among them. A line is refused for the first of
//! these that applies, and then does nothing:
//!
//! - `BadPlan`, up to `go`: the line is no plan line, or breaks its rule, or comes once too often. At
//!   `go`: something is missing, or does not fit together.
//! - `BadLine`: the line is too long, or the tape ended before it was whole; after `go` also one that is
//!   no run line, `widen` for a user whom the plan has not, and `giveup` of a session that does not wait.
//! - `NoSuchNode`: the plan has no node of that number. The node in an ID is not meant.
//! - `NoSuchSession`: `say`, `feed`, `close` or `giveup` names a session that was never opened, or has ended.
//! - `NodeLost`: `open`, `crash`, `start`, `lose`, `widen`, `group`, `conclude` or `regroup` names a node that is lost,
//!   and is to do it.
//! - `NodeDown`: `open`, `crash`, `widen`, `group`, `conclude` or `regroup` names a node that is down, and is to do it.
//! - `NodeUp`: `start` names a node that is up.
//! - `TooManySessions`: `open` where 256 sessions stand.
//! - `NoSuchLetter`: the letter of `post`, `again` or `drop` is not in flight.
//! - `NoSuchTicket`: the call that `giveup` or `close` would give up does not stand at its node.
//! - `NotAGroup`: the node of `conclude` has no group open.
//! - `Worn`: a number that the line would draw is used up, as that of a boot or of a letter.
//! - `NoRoom`: states are owed to a node to which `push` comes, and not even the first of them finds room among the
//!   letters in flight; or not all letters of a group do.
//! - `TapeTooLong`: 1,099,511,627,776 octets were taken and no whole line is left of them.
//!
//! `NoSuchLetter`, `NoSuchTicket`, `NotAGroup`, `Worn` and `NoRoom` come of the cluster. Where a step of a `push`, a `flow` or a
//! `regroup` is refused so, the steps before that one are made: the letters to earlier nodes are in flight, and those that
//! were posted are heard.
//!
//! After `WriteFault` a prefix of what the line gives was written, the last line of it perhaps in part.
//! The move whose line was not written has been made all the same, and no move after it.
//! `NoMemory` may come at any point of a line's work: a call that was begun may have come to nothing, or its
//! message may stand on disks whole or in part, and nobody was told that it is stored; or some or all of
//! the messages of a `QUIT` may be gone, and nobody was told so; or a node is down in whose work memory ran out. No
//! stop takes back what was done before.
//!
//! LIMITS
//!
//! A line has at most 65,535 octets before its LF. A plan has 16 nodes at most. 256 sessions stand at a time; how
//! many were opened and have ended has no limit but memory. After `go` 1,099,511,627,776 octets are taken at most.
//! How many letters may be in flight, `cluster_world` says.
//!
//! STANDS ON
//!
//! `io_edge` for sources, sinks and disks, `tape_lines` for what a line says, `smtp_session` and
//! `pop_session` for what a session answers, `cluster_world` for the nodes with their disks and letters,
//! `call_tickets` for calls and answers, `mail_base` for plans and messages, and `session_model`, whose
//! definitions of sessions, acts and turns say what each line leads to. The contract of `drive` is a run of these
//! definitions (`Drives`): the octets that were taken begin with the lines that were handled; the acts of these lines are
//! those that the definitions let them have; what was written is what the acts write, and at most a prefix of
//! what the last one writes; the world made the steps of these acts and no others, and each call at the node of its
//! session; what the clients asked is what was begun, and what they were answered is what was asked for; the answer
//! says why it went no further; a node went down by itself only where its disk failed, or does not tell what it
//! holds; and the promises to clients are kept by the disks and the book of the world that came back (`kept`), where
//! the disks tell what they hold, or no line starts a node or pushes. Then the members that a `regroup` line names are
//! exactly the nodes that were up (`named`), too. Where the work stopped behind a line and the disks tell what they hold,
//! what `fresh_sessions` promises of a settled epoch is kept as well: a new session lists exactly what stands, and a map
//! names exactly the fragments.
//!
//! WHAT IT DOES NOT DO
//!
//! It opens no disk, source or sink, tries nothing again and buffers nothing that is read or written. It
//! starts no node, posts no letter and gives up no call but where a line says so, and locks no maildrop. It
//! writes no line for a stop: that, and the status of the program, are its caller's. No time limit.
#![tactic(auto)]

mod calls;
mod cluster;
mod denial;
mod driver;
mod drove;
mod entry;
mod epoch_text;
mod event;
mod grouping;
mod lines;
mod map_text;
mod moved;
mod open_call;
mod orders;
mod plan_head;
mod reader;
mod reply;
mod resting;
mod row;
mod sessions;
mod talker;

pub use driver::{TAPE_OCTETS, drive};
pub use drove::{Drove, Stop, TapeFault};
pub use entry::{Entry, WriteStop, write_entries};
pub use plan_head::read_drive_head;
pub use reader::LineStop;
pub use row::Row;
