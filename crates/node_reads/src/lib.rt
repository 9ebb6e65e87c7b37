//! node_reads: the standing tickets of the calls that read, at one node.
//!
//! SUMMARY
//!
//! A login asks the manager of its user, and then exactly the nodes that this names. A fetch asks one holder
//! after another. Each has a ticket at its node, the *proxy*, which says how far it has come. `NodeReads` has
//! these tickets, under the numbers that the caller hands in: one count of numbers serves all calls of a node.
//!
//! DESCRIPTION
//!
//! As proxy: `begin_login` asks a manager, `begin_own_login` takes the node's own word at once where it manages
//! the user itself, `begin_fetch` asks the lowest holder, and `begin_own_fetch` takes the node's own part.
//! `hear_word`, `hear_list` and `hear_part` take what LoginTold, ListTold and FetchTold say; `mishap` notes that
//! a letter was lost; `give_up` takes a ticket out. `ask` says how far a call has come. One that is done it answers
//! and takes out: with the listing of what the named nodes told, joined; with the octets of a part; or with the
//! mishaps for which it failed.
//!
//! Of a ticket: `stands` says whether there is one, `kind` of which kind its call is, `user` whose login it is,
//! `user_befallen` and `user_held` whose lock the node itself lets go at a mishap and as the login is given up,
//! `is_done` whether `ask` has an answer, and `chances` how many letters mishaps may still send for it.
//!
//! As manager and holder: `opens` judges a proof by the plan's secret, `judge` gives the word of a manager by it, and `answer_login`,
//! `answer_list` and `answer_fetch` are the letters that answer. `leave` gives a lock back at the end of a
//! session; it has no ticket.
//!
//! Contracts see the node of the machine in `login_model` (`node_with`), and each call is that machine's rule:
//! the node that is left, and the letters in the machine's order. What the node names of a user, its own list
//! and its own part are handed in.
//!
//! Message octets and lists are moved, and never copied; the listing that answers a login is made anew of what was
//! told. No call walks all tickets.
//!
//! REFUSES
//!
//! It lets go, with nothing changed: a word of a node that is not asked, or a second one; a list of a node that
//! is not waited for, so also a second one; a part for a fetch that has one; and whatever answers a ticket that
//! does not stand, or is that of another kind of call.
//!
//! Each call that takes memory leaves the tickets as before where there is none. `mishap`, `hear_part` and `give_up`
//! take none: a login has a second copy of its user's name, and a fetch one for each holder that is left.
//!
//! STANDS ON
//!
//! `login_model` for the rules, `told_lists` for the listing that lists of several nodes make, `mail_base` for
//! letters and sets of nodes, `call_tickets` for answers and the mishaps that are counted, `node_tickets` for their
//! kinds.
//!
//! WHAT IT DOES NOT DO
//!
//! It sends nothing, and knows no disk and no maps. It takes no locks of maildrops: the letters that give one back are
//! sent all the same. A manager judges by the secrets of the plan, and not by profiles.
#![tactic(auto)]

mod answering;
mod asking;
mod fetch;
mod letters;
mod lists;
mod login;
mod mishaps;
mod nodes;
mod progress;
mod reads;
mod under;

pub use answering::{answer_fetch, answer_list, answer_login, judge, leave, opens};
pub use reads::NodeReads;
