//! board_threads: threads share a board, and its passes go to them.
//!
//! SUMMARY
//!
//! A board may be shared by threads, and each of its passes may go to another thread, wherever its disks, its fate and its clock
//! may. `proofs/Boards.antt` says so, as `board_sync` and `pass_send`, for any crate that hands passes to threads. There is no
//! code here: the lemmas are all that it has.
//!
//! DESCRIPTION
//!
//! What a pass knows of the value behind the lock belongs to its type, so that a pass may go to another thread is a fact of a
//! whole world, down to the octets of a name. The checker proves it at the call that starts a thread, and finds it there by itself
//! for small types alone, and for closures that capture such. Here it is said type by type, from the lowest up:
//!
//! | File | What may cross threads |
//! |---|---|
//! | `proofs/Mail.antt` | names, plans, messages, letters; a plan may also be shared |
//! | `proofs/Stores.antt` | what a node keeps: its journal, its messages, its objects, its update log |
//! | `proofs/Tickets.antt` | the tickets of calls, and a node |
//! | `proofs/Readings.antt` | the tickets of calls that read, and the locks of maildrops |
//! | `proofs/Maps.antt` | what a node has of members and users, and a whole node |
//! | `proofs/Worlds.antt` | the book, letters in flight, and a world |
//! | `proofs/Tables.antt` | the table of a lock, a turnstile and its passes, over any value |
//! | `proofs/Boards.antt` | a board and its passes |
//! | `proofs/Closures.antt` | a closure, where all that it captures may |
//!
//! STANDS ON
//!
//! `shard_board`, and each crate whose types a world is made of; `atomic_table` for the table of the lock.
//!
//! WHAT IT DOES NOT DO
//!
//! That two threads run side by side is not said, nor which of two turns comes first.
#![tactic(auto)]
