// "Position number = due day * 2,048 + account * 32 + security": the three read back from a record's number.
ghost use Rattle.std.specs.Prelude.{◌≡◌, ◌<◌};
ghost use Rattle.rules.specs.Bounds.{accounts, securities};
ghost use Rattle.rules.specs.Book.{due_of, account_of, security_of};

use rules::Position;

#[tactic(auto, unfolding(rules::specs::Book::due_of))]
pub fn due_of(p: Position) -> u32
    ensures { result ≡ due_of p }
{
    p.number / 2048
}

// Accounts and securities are read as places: totals and signs are looked up with them.
#[tactic(auto, unfolding(rules::specs::Book::account_of))]
pub fn account_of(p: Position) -> usize
    ensures { (result ≡ account_of p) × (result < accounts) }
{
    (p.number / 32 % 64) as usize
}

#[tactic(auto, unfolding(rules::specs::Book::security_of))]
pub fn security_of(p: Position) -> usize
    ensures { (result ≡ security_of p) × (result < securities) }
{
    (p.number % 32) as usize
}
