// What the store of node 1 has to hold, written from the description of the journal.

use std::alloc::{AllocError, Global};
use std::process::Abort;
use std::test::Fail;

/// The octets of a journal.
#[derive(Drop)]
pub(super) struct Journal {
    alloc: Global,
    octets: Vec<u8>,
    /// The payload of the next record, as far as it is written.
    payload: Vec<u8>,
    /// The number of the last message.
    number: u64,
    /// The count of the last stamp.
    count: u64,
}

impl Journal {
    /// The header of node 1, the record of its boot and that of its promise of epoch 1.1.
    pub(super) fn new(alloc: Global) -> Result<Journal, Fail> {
        let mut journal = Journal {
            alloc,
            octets: b"PORCUPN1\0\x01\0\0\0\0\0\0".to_vec(alloc)?,
            payload: b"\x01\0\0\0\x01".to_vec(alloc)?,
            number: 0,
            count: 0,
        };
        journal.record()?;
        journal.add(b"\x02\0\0\0\0\0\0\0\x01\x01")?;
        journal.record()?;
        Ok(journal)
    }

    fn add(&mut self, octets: &[u8]) -> Result<(), AllocError> {
        self.payload.extend_from_slice(octets)
    }

    // The open gate, the length and the payload.
    fn record(&mut self) -> Result<(), Fail> {
        let length = u32::try_from(self.payload.len())?;
        self.octets.push(0xA5)?;
        self.octets.extend_from_slice(&length.to_be_bytes())?;
        self.octets.extend_from_slice(&self.payload)?;
        self.payload.clear();
        Ok(())
    }

    // The number of the last message in digits.
    fn add_number(&mut self) -> Result<(), AllocError> {
        let number = self.number.to_string(self.alloc)?;
        self.add(number.as_bytes())
    }

    // The id of this message of node 1 in its boot 1.
    fn add_id(&mut self, number: u64) -> Result<(), AllocError> {
        self.add(b"\x01\0\0\0\x01")?;
        self.add(&number.to_be_bytes())
    }

    // The four trace lines of the last message.
    fn add_trace(&mut self, sender: &[u8], helo: &[u8]) -> Result<(), AllocError> {
        self.add(b"Return-Path: <")?;
        self.add(sender)?;
        self.add(b">\r\nReceived: from ")?;
        self.add(helo)?;
        self.add(b"\r\n by node1 with SMTP id <1.1.")?;
        self.add_number()?;
        self.add(b"@node1>;\r\n Thu, 01 Jan 1970 00:00:00 +0000\r\n")
    }

    // The record of this kind that has a state of the user's copy of a message, with the last stamp.
    fn record_state(&mut self, kind: u8, number: u64, user: &[u8], value: u8) -> Result<(), Fail> {
        let length = u8::try_from(user.len())?;
        self.add(&[kind, 2, length])?;
        self.add(user)?;
        self.add_id(number)?;
        self.payload.push(value)?;
        let count = self.count;
        self.add(&count.to_be_bytes())?;
        self.add(b"\0\0\0\x01\x01\0\x01")?;
        self.record()
    }

    // A state of the user's copy of a message: it is here (1) or gone (2). Node 1 in its boot 1 stamped it, and is its only
    // target: so it is retired at once.
    fn state(&mut self, number: u64, user: &[u8], value: u8) -> Result<(), Fail> {
        self.record_state(4, number, user, value)?;
        self.record_state(5, number, user, value)
    }

    /// The next message: its octets, and its copy of each user, all with the next stamp.
    pub(super) fn message(
        &mut self,
        sender: &[u8],
        helo: &[u8],
        users: &[&[u8]],
        text: &[u8],
    ) -> Result<(), Fail> {
        self.number = self.number.saturating_add(1);
        self.count = self.count.saturating_add(1);
        let number = self.number;
        self.payload.push(3)?;
        self.add_id(number)?;
        self.add_trace(sender, helo)?;
        self.add(text)?;
        self.record()?;
        for user in users {
            self.state(number, user, 1)?;
        }
        Ok(())
    }

    /// Node 1 promises the epoch of this count that it opens itself.
    pub(super) fn promise(&mut self, count: u64) -> Result<(), Fail> {
        self.payload.push(2)?;
        self.add(&count.to_be_bytes())?;
        self.payload.push(1)?;
        self.record()
    }

    /// The user's copy of this message is gone, with the next stamp.
    pub(super) fn gone(&mut self, user: &[u8], number: u64) -> Result<(), Fail> {
        self.count = self.count.saturating_add(1);
        self.state(number, user, 2)
    }

    /// The store begins with the journal.
    pub(super) fn is_prefix(&self, rt: &impl Abort, store: &[u8]) {
        assert!(rt; store.starts_with(&self.octets));
    }

    /// The store holds the journal, and one closed gate after it.
    pub(super) fn is_held(&self, rt: &impl Abort, store: &[u8]) {
        assert!(rt; store.strip_suffix(b"\0") == Some(self.octets.as_slice()));
    }
}
