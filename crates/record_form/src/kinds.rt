// The octets that tell what follows.

/// The kinds of records.
pub const BOOT: u8 = 1;

pub const PROMISE: u8 = 2;

pub const OCTETS: u8 = 3;

pub const STATE: u8 = 4;

pub const RETIRED: u8 = 5;

/// The kinds of keys.
pub const PROFILE: u8 = 1;

pub const MESSAGE: u8 = 2;

/// The ranks of values.
pub const HERE: u8 = 1;

pub const GONE: u8 = 2;

pub const SECRET: u8 = 3;
