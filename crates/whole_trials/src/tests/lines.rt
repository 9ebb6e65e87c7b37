// What the lines of a table say.
use mail_base::NodeNo;
use std::alloc::{AllocError, Global};

pub(super) fn at(line: &[u8], column: usize) -> u8 {
    match line.get(column) {
        Some(octet) => *octet,
        None => b' ',
    }
}

/// The digit of the column; 0 where it has none.
pub(super) fn digit(line: &[u8], column: usize) -> u8 {
    let octet = at(line, column);
    if octet.is_ascii_digit() {
        octet - b'0'
    } else {
        0
    }
}

/// The node of the column.
pub(super) fn node_at(line: &[u8], column: usize) -> Result<NodeNo, AllocError> {
    NodeNo::new(digit(line, column)).ok_or(AllocError)
}

/// What the line says that is done.
pub(super) fn asked(line: &[u8]) -> &[u8] {
    &line[..line.len().min(6)]
}

/// The lines of a table.
pub(super) fn lines_of<'a>(alloc: Global, table: &'a [u8]) -> Result<Vec<&'a [u8]>, AllocError> {
    let mut lines = Vec::new(alloc);
    for line in table.split(|octet| *octet == b'\n') {
        lines.push(line)?;
    }
    Ok(lines)
}
