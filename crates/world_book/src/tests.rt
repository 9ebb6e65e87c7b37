// A book that grows, each call once.
use crate::{Book, Entry};
use mail_base::NodeNo;
use std::alloc::Global;
use std::test::Fail;

/// Whether the entries say in turn that nodes 1, 2 and so on went down.
fn are_falls(entries: &[Entry]) -> bool {
    entries.iter().zip(1..=16u8).all(|(entry, number)| match entry {
        Entry::Down { node } => node.number() == number,
        _ => false,
    })
}

fn falls(alloc: Global, numbers: &[u8]) -> Result<Vec<Entry>, Fail> {
    let mut entries = Vec::new(alloc);
    for number in numbers {
        if let Some(node) = NodeNo::new(*number) {
            entries.push(Entry::Down { node })?;
        }
    }
    Ok(entries)
}

/// Adds the entry, where the book has room that was made.
fn add(book: &mut Book, entry: Entry) -> Result<(), Fail> {
    book.reserve(1)?;
    book.add(entry);
    Ok(())
}

#[test]
fn a_book_grows(rt: HostRuntime) -> Result<(), Fail> {
    let alloc = rt.alloc();
    let Some(node) = NodeNo::new(1) else {
        return Err(Fail::new("no node"));
    };
    let mut book = Book::new(alloc);
    assert!(rt; book.entries().is_empty());
    add(&mut book, Entry::Down { node })?;
    let more = falls(alloc, &[2, 3, 4])?;
    book.reserve(more.len())?;
    book.add_all(more);
    assert!(rt; book.entries().len() == 4 && are_falls(book.entries()));
    Ok(())
}
