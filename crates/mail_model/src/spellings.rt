// What is spelt in octets has one reading.
ghost use Rattle.mail_model.specs.OneReading.{OneSpelling, OneReadingOfJournal, OneEntry};

/// A payload spells one record.
pub fn one_spelling()
    ensures { OneSpelling }
{}

/// A journal has one reading: its octets tell its records.
pub fn one_reading()
    ensures { OneReadingOfJournal }
{}

/// A line of a transcript is one entry.
pub fn one_entry()
    ensures { OneEntry }
{}
