// "Each part's money is charged": to the record's account, in the currency of its security.
ghost use Rattle.std.specs.Prelude.{◌≡◌, ◌+◌, ◌*◌, ◌<◌, get_or};
ghost use Rattle.rules.specs.Book.{account_of, security_of};

use rules::Position;
use sound_positions::{account_of, security_of};

// Charges are kept account by account, 4 entries each.
pub fn place_of(codes: [u8; 32], p: Position) -> usize
    requires { get_or codes (security_of p) 0 < 4 }
    ensures { (result ≡ account_of p * 4 + get_or codes (security_of p) 0) × (result < 256) }
{
    account_of(p) * 4 + codes[security_of(p)] as usize
}
