// The types of the book and of the answers (document 01). The rules over them are definitions, in specs/.
#![tactic(auto)]

ghost use Rattle.std.specs.Prelude.{◌≡◌};
ghost use Rattle.rules.specs.Refusals.{number_of, answered};

use units::{Mils, Price, Shares};

// An open position, a record of the position table. Its number says due day, account and security.
#[derive(Clone, Copy)]
pub struct Position {
    pub number: u32,
    pub quantity: Shares,
    pub money: Mils,
}

// A trade of today's list. An excluded one keeps its number, its other fields are zero.
#[derive(Clone, Copy)]
pub struct Trade {
    pub number: u16,
    pub buyer: u8,
    pub seller: u8,
    pub security: u8,
    pub quantity: u32,
    pub price: Price,
}

// The book, in fixed memory (no heap): how many records the position table has, and the table; how many numbers today's list has, and the list.
// Holdings stand at account * 32 + security, charges at account * 4 + currency.
#[derive(Clone, Copy)]
pub struct Book {
    pub day: u16,
    pub currency: [u8; 32],
    pub records: u16,
    pub positions: [Position; 1024],
    pub holdings: [u64; 2048],
    pub charges: [Mils; 256],
    pub entries: u16,
    pub trades: [Trade; 256],
}

// Why a call is refused (document 01, "Refusal numbers"), in the order of the numbers: 1 is the first. (19 is no refusal of a call.)
#[derive(Clone, Copy)]
pub enum Refusal {
    NotSound,
    NoAccount,
    NoSecurity,
    BadQuantity,
    BadPrice,
    SameAccount,
    BadNumber,
    NoTrade,
    ListFull,
    TableFull,
    NotHeld,
    TooMuchHeld,
    TooMuchDelivered,
    LastDay,
    BadRate,
    TotalTooLarge,
    NoPrice,
    WrongLength,
}

// The number that a refusal goes out as.
impl From<Refusal> for u8 {
    ghost from_gives = { λ r n. n ≡ number_of r };

    fn from(r: Refusal) -> u8 {
        match r {
            Refusal::NotSound => 1,
            Refusal::NoAccount => 2,
            Refusal::NoSecurity => 3,
            Refusal::BadQuantity => 4,
            Refusal::BadPrice => 5,
            Refusal::SameAccount => 6,
            Refusal::BadNumber => 7,
            Refusal::NoTrade => 8,
            Refusal::ListFull => 9,
            Refusal::TableFull => 10,
            Refusal::NotHeld => 11,
            Refusal::TooMuchHeld => 12,
            Refusal::TooMuchDelivered => 13,
            Refusal::LastDay => 14,
            Refusal::BadRate => 15,
            Refusal::TotalTooLarge => 16,
            Refusal::NoPrice => 17,
            Refusal::WrongLength => 18,
        }
    }
}

// The number that an answer goes out as: 0 where the call is accepted.
pub fn number_of<T>(answer: &Result<T, Refusal>) -> u8
    ensures { result ≡ answered answer.now }
{
    match answer {
        Ok(_) => 0,
        Err(r) => u8::from(*r),
    }
}

// What marks answer: the due and the sum of each currency.
#[derive(Clone, Copy)]
pub struct Marks {
    pub due: Mils,
    pub sums: [Mils; 4],
}

// The answer of one record of a call file: the call's own answer, the shares moved if it was a run, and the place of
// the next record; or the place where an unreadable record begins; or that the file ends here; or the file's refusal.
// (It holds numbers: the definitions of its number, figure and next place are document 01's, and theorems speak of them.)
#[derive(Clone, Copy)]
pub enum RecordAnswer {
    Answered(u8, Shares, u32),
    Unreadable(u32),
    Ended,
    FileRefused(u8),
}

// A line of the sheet. (The number of a refusal is any that a caller of the line writer names, so that it is no `Refusal`.)
#[derive(Clone, Copy)]
pub enum Line {
    Refusal(u32, u8),
    Place(u32),
    Day(u16),
    Open(u32, u8, u8, Shares, Mils),
    Charge(u8, u8, Mils),
    End(u32),
}

// The lines and the bytes written so far.
#[derive(Clone, Copy)]
pub struct Tally {
    pub lines: u32,
    pub bytes: u32,
}
