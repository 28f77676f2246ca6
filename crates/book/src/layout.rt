// Where each part of the book begins, and how many bytes a row of each table has (docs/BOOK.md). Every offset of the
// crate is one of these; what stands within a row is said where the row is read and written.

// How many bytes a book has.
pub const BOOK_BYTES: usize = 42_278;

// The bytes of a book, sound or not.
pub type BookBytes = [u8; BOOK_BYTES];

pub const DAY: usize = 0;

pub const CODES: usize = 2;

pub const RECORDS: usize = 34;

pub const POSITIONS: usize = 36;

pub const HOLDINGS: usize = 20_516;

pub const CHARGES: usize = 36_900;

pub const ENTRIES: usize = 38_948;

pub const TRADES: usize = 38_950;

pub(crate) const CODE_BYTES: usize = 1;

pub(crate) const POSITION_BYTES: usize = 20;

pub(crate) const HOLDING_BYTES: usize = 8;

pub(crate) const CHARGE_BYTES: usize = 8;

pub(crate) const TRADE_BYTES: usize = 13;
