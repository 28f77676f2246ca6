// What stands at a place of a call file (document 01, "Call file and sheet"): a record of one of eight kinds, or nothing
// that can be read.
ghost use Rattle.std.specs.Prelude.{◌≡◌, ◌+◌, ◌≤◌, length, take, drop};
ghost use Rattle.fields.specs.Field.{field};
ghost use Rattle.rules.specs.Words.{all};
ghost use Rattle.rules.specs.Sound.{is_code};
ghost use Rattle.rules.specs.Records.{record_at, trade_in};
ghost use Rattle.callfile_format.specs.Bodies.{body_at, codes_at};
ghost use Rattle.callfile_format.specs.Kinds.{long_of, Found};
ghost use Rattle.callfile_format.specs.Reading.{says};

use fields::get;
use rules::Trade;
use sound_tables::is_code;
use units::Price;

// A record that can be read. The codes of a create are not copied: they are the 32 bytes behind its kind.
#[derive(Clone, Copy)]
pub enum Read {
    Create,
    Enter(Trade),
    Amend(Trade),
    Exclude(u16),
    Roll,
    Deposit(u8, u8, u64),
    Withdraw(u8, u8, u64),
    Run(u8),
}

// How long the body of a kind of record is, its kind byte included.
#[tactic(auto, using(crate::specs::Kinds::no_kind), unfolding(crate::specs::Kinds::long_of))]
fn long_of(kind: u8) -> Option<u64>
    ensures { result ≡ long_of kind }
{
    match kind {
        0 => Some(33),
        1 | 2 => Some(14),
        3 => Some(3),
        4 => Some(1),
        5 | 6 => Some(11),
        7 => Some(2),
        _ => None,
    }
}

// The byte of the kind of the record at a place; none of another kind or length, or of a cut record.
fn kind_at(file: &[u8], place: usize) -> Option<u8>
    ensures { Found (drop place file.now) result }
{
    let n = file.len();
    if n < 2 || n - 2 < place {
        return None;
    }
    let long = get(file, place, 2);
    if ((n - 2 - place) as u64) < long {
        return None;
    }
    if long == 0 {
        return None;
    }
    let kind = get(file, place + 2, 1) as u8;
    if long_of(kind)? != long {
        return None;
    }
    Some(kind)
}

fn trade_at(file: &[u8], place: usize) -> Trade
    requires { place + 16 ≤ length file.now }
    ensures { result ≡ trade_in (body_at 14 place file.now) }
{
    Trade {
        number: get(file, place + 3, 2) as u16,
        buyer: get(file, place + 5, 1) as u8,
        seller: get(file, place + 6, 1) as u8,
        security: get(file, place + 7, 1) as u8,
        quantity: get(file, place + 8, 4) as u32,
        price: Price(get(file, place + 12, 4) as u32),
    }
}

// What a deposit and a withdrawal have behind their kind: account, security and quantity.
fn moved_at(file: &[u8], place: usize) -> (u8, u8, u64)
    requires { place + 13 ≤ length file.now }
    ensures { (result.0 ≡ field 1 1 (body_at 11 place file.now))
        × (result.1 ≡ field 1 2 (body_at 11 place file.now))
        × (result.2 ≡ field 8 3 (body_at 11 place file.now)) }
{
    let account = get(file, place + 3, 1) as u8;
    let security = get(file, place + 4, 1) as u8;
    (account, security, get(file, place + 5, 8))
}

// Whether the 32 bytes from a place on are currency codes.
fn codes_fit_at(file: &[u8], at: usize) -> bool
    requires { at + 32 ≤ length file.now }
    ensures { result ≡ all is_code (take 32 (drop at file.now)) }
{
    file[at..at + 32].iter().all(|code| is_code(*code))
}

// At place 1 stands a create, with good codes, or nothing that can be read.
fn first_at(file: &[u8]) -> Option<Read>
    ensures { says result (codes_at 1 file.now) ≡ record_at file.now 1 }
{
    if kind_at(file, 1)? == 0 && codes_fit_at(file, 4) {
        return Some(Read::Create);
    }
    None
}

// The record that begins at a place.
pub fn record_at(file: &[u8], place: usize) -> Option<Read>
    ensures { says result (codes_at place file.now) ≡ record_at file.now place }
{
    if place == 1 {
        return first_at(file);
    }
    match kind_at(file, place)? {
        1 => Some(Read::Enter(trade_at(file, place))),
        2 => Some(Read::Amend(trade_at(file, place))),
        3 => Some(Read::Exclude(get(file, place + 3, 2) as u16)),
        4 => Some(Read::Roll),
        5 => {
            let (account, security, quantity) = moved_at(file, place);
            Some(Read::Deposit(account, security, quantity))
        }
        6 => {
            let (account, security, quantity) = moved_at(file, place);
            Some(Read::Withdraw(account, security, quantity))
        }
        7 => Some(Read::Run(get(file, place + 3, 1) as u8)),
        _ => None,
    }
}
