//! What single steps do, each with the nodes and the book of a world.

pub(crate) mod ask;
pub(crate) mod ask_read;
pub(crate) mod begin;
pub(crate) mod begin_read;
pub(crate) mod conclude;
pub(crate) mod crash;
pub(crate) mod drop;
pub(crate) mod drop_read;
pub(crate) mod fault;
pub(crate) mod give_up;
pub(crate) mod give_up_read;
pub(crate) mod group;
pub(crate) mod lose;
pub(crate) mod post;
pub(crate) mod post_read;
pub(crate) mod push;
pub(crate) mod report;
pub(crate) mod sorting;
pub(crate) mod start;
pub(crate) mod tickets;
pub(crate) mod widen;
