// A meeting where the bytes stand (document 01, "Settlement run"): the part is taken from both records, holdings move and
// each part's money is charged.
ghost use Rattle.std.specs.Prelude.{◌≡◌, ◌+◌, ◌<◌, ◌≤◌, ◌^◌, get_or, nat_abs};
ghost use Rattle.units.specs.Units.{shares_of};
ghost use Rattle.rules.specs.Book.{with_holdings, with_charges};
ghost use Rattle.rules.specs.Layout.{book_of};
ghost use Rattle.rules.specs.Run.{moved};
ghost use Rattle.settling.specs.Charges.{ChargeAsks, charged_parts};
ghost use Rattle.settling.specs.Meetings.{MeetAsks, met_in};

use book::{
    BookBytes, charge_at, codes_of, holding_at, position_at, put_charge, put_holding, put_position,
};
use parts::{place_of, rest_of, with_part};
use rules::Position;
use settling_counts::holding_place;
use units::{Counted, Quantity, Shares};

// k shares go from one holding to another.
fn move_shares(b: &mut BookBytes, from: usize, to: usize, k: Quantity)
    requires { (from < 2048) × (to < 2048) × (k.0 ≤ get_or (book_of b.old).holdings from 0) × (get_or (book_of b.old).holdings to 0 + k.0 < 2 ^ 64) }
    ensures { book_of b.new ≡ with_holdings (book_of b.old) (moved (book_of b.old).holdings from to k.0) }
{
    let less = holding_at(b, from) - k.0;
    put_holding(b, from, less);
    let more = holding_at(b, to) + k.0;
    put_holding(b, to, more);
}

// The giver's part is charged, then the receiver's.
fn charge_parts(b: &mut BookBytes, giver: Position, receiver: Position, part: Shares)
    requires { ChargeAsks (book_of b.old).charges (book_of b.old).currency giver receiver (nat_abs (shares_of part)) }
    ensures { book_of b.new ≡ with_charges (book_of b.old) (charged_parts (book_of b.old).charges (book_of b.old).currency giver receiver (nat_abs (shares_of part))) }
{
    let codes = codes_of(b);
    let giver_charge = place_of(codes, giver);
    let given = with_part(charge_at(b, giver_charge), giver, part);
    put_charge(b, giver_charge, given);
    let receiver_charge = place_of(codes, receiver);
    let received = with_part(charge_at(b, receiver_charge), receiver, part);
    put_charge(b, receiver_charge, received);
}

// The record in row g gives `size` shares to the one in row r.
pub fn meet(b: &mut BookBytes, security: u8, g: usize, r: usize, size: Quantity)
    requires { MeetAsks (book_of b.old) security g r size.0 }
    ensures { book_of b.new ≡ met_in (book_of b.old) security g r size.0 }
{
    let giver = position_at(b, g);
    let receiver = position_at(b, r);
    let from = holding_place(giver, security);
    let to = holding_place(receiver, security);
    let part = Shares::of(false, size);
    let less = rest_of(giver, part);
    let filled = rest_of(receiver, part);
    put_position(b, g, less);
    put_position(b, r, filled);
    move_shares(b, from, to, size);
    charge_parts(b, giver, receiver, part);
}
