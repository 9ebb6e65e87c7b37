//! Three whole nodes by hand: what each answers, and which letters it sends.
//!
//! A table is a text. Each line begins with what is done, in six columns, and goes on behind ` >` with what comes of it. All
//! nodes are up in their first boots as a table begins, and in no epoch; those of `tests/openings.rt` are in the first one, and so
//! are those of `tests/readers.rt`, of which two have a message of ann.
//!
//! A letter is named by its kind, its sender and its receiver, as `G12`; of several that are named alike the first in flight is
//! meant. The kinds are Group, Join, Install, Report and A for its acknowledgement, File and f for Filed; and of calls that read L for
//! LoginAsk and l for LoginTold, C for ListAsk and c for ListTold, E for FetchAsk and e for FetchTold, and Unlock. A mishap of one of
//! the latter is noted at its ticket, and the letter that is sent for that comes last.
//!
//! ```text
//! s 3    > 2 1.1           node 3 starts: its boot, and the last promise on its disk
//! h 3    >                 it stops
//! x 3 2  >                 the second disk call that it makes from now on fails
//! w 3    >                 its next start finds all that was written, and not only what was synced
//! o 1    > 1.1 G12 G13     node 1 opens a group: its epoch, and the letters that are sent
//! c 1    > 1.1 I12 I13     it concludes it; `none` where it has none
//! p G12  > J21             the letter is posted; why it was thrown comes first
//! a G12  > J21             it is posted, and stays in flight
//! d G12  >                 it is dropped
//! m 3    > F31             a message to ann begins at node 3
//! r 3 1  > R31             node 3 reports to node 1
//! n 1    > 3               whom node 1 names as having mail of ann; `none` where it names nobody
//! q 3    > 1-             to whom it owes rows, and `-` as it owes something; `settled` where it owes nothing
//! b 2 t  > 1 L21           a login of ann begins at node 2, by its ticket 1: with an x by a wrong secret, with a z one of somebody
//!                          whom the plan does not know
//! e 2 35 > 2 E21           a fetch of ann's message 3.1.1 begins at node 2; the nodes of the mask 5 are said to hold it
//! i 2 1  > 0/1             node 2 is asked about its ticket 1: how far it has come, or the answer. Of a message that is listed its
//!                          id is told and the mask of those who told it, and of a part the last digits of how many octets it
//!                          has and the whole has. Mishaps are told by f for few members, l for lost, s for stale, d for down and
//!                          k for the disk
//! g 2 1  > U21             it gives the ticket up
//! u 2 11 > U21             the session of its login 1 ends, which node 1 manages
//! k 1    > 211             whose login has the lock of ann's maildrop at node 1: node, boot and ticket; `none` where nobody has it
//! l 1    > 1.1 1.1 11 21   its promise, the epoch that it is in, and the members with their boots; `none` where it is in none
//! ```
mod cluster;
mod lines;
mod openings;
mod orders;
mod readers;
mod reading;
mod rounds;
mod rows;
mod says;
mod site;
mod stops;
mod tells;
