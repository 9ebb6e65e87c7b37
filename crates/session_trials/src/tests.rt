//! Tests of sessions, each kind by tables.
//!
//! A table has the lines that a client says and, indented, what they lead to. A line that begins with `#` says which row of a table
//! of replies comes next. One that begins with `!` says what befalls the client:
//!
//! | Line | What happens |
//! |---|---|
//! | `!fails`, `!gives up`, `!is late` | how the node answers calls from now on |
//! | `!stored`, `!was deleted`, `!could not`, `!no answer` | the answer of a late node |
//! | `!down` | the node goes down |
//! | `!leaves` | the client leaves, and its session says as whom |
//! | `!part` | what is after it is said, with no CRLF |
mod client;
mod desk;
mod either;
mod pop;
mod smtp;
mod users;
