// The test for soundness (document 01, "A sound book"): all its sentences, read off the lent bytes of a book; no table is
// copied. Sentences that look at the same entries are tested in one walk over them. A later test counts on what the
// earlier ones have shown.
#![tactic(auto)]

ghost use Rattle.std.specs.Prelude.{◌≡◌, true, false, MatchOption};
ghost use Rattle.std.specs.Borrow.{sem, LendsIf, Array, u8 as byte};
ghost use Rattle.rules.specs.Layout.{book_of};
ghost use Rattle.rules.specs.Sound.{sound, not_sound};
ghost use Rattle.soundness.specs.Clauses.{positions_fit};

use book::{BookBytes, codes_of};

// The sentences about the position table alone.
fn positions_fit(b: &BookBytes) -> bool
    ensures { result ≡ positions_fit (book_of b.now) }
{
    sound_positions::room_fits(b)
        && sound_positions::each_fits(b)
        && sound_positions::together_fit(b)
}

#[tactic(auto, using(crate::proofs::Clauses::sound_parts, crate::proofs::Clauses::money_asks, crate::proofs::Clauses::positions_records), unfolding(rules::specs::Sound::codes_fit))]
pub fn is_sound(b: &BookBytes) -> bool
    ensures { result ≡ sound (book_of b.now) }
{
    sound_tables::day_fits(b)
        && sound_tables::codes_fit(codes_of(b))
        && positions_fit(b)
        && sound_tables::holdings_fit(b)
        && sound_tables::records_listed(b)
        && sound_tables::money_fits(b)
        && sound_tables::trades_fit(b)
}

// 1: the book is not sound; a book of wrong length is none.
pub fn not_sound(b: &[u8]) -> bool
    ensures { result ≡ not_sound b.now }
{
    sound_book(b).is_none()
}

// The sound book that lent bytes are, to be read where it stands,
#[tactic(auto, unfolding(rules::specs::Sound::not_sound))]
pub fn sound_book(b: &[u8]) -> Option<&BookBytes>
    ensures { MatchOption result (not_sound b.now ≡ true) (λ book. (book.now ≡ b.now) × (not_sound b.now ≡ false)) }
{
    b.as_array().filter(|book| is_sound(book))
}

// and to be altered there. (That the book is sound stays a clause of the calls: a struct over the lent bytes, with it as a ghost field, would
// be taken apart before the first write of each call, for between a call's writes no book is sound.)
#[tactic(auto, unfolding(rules::specs::Sound::not_sound))]
pub fn sound_book_mut(b: &mut [u8]) -> Option<&mut BookBytes>
    ensures* writes_back { sem 𝓛 (LendsIf (Array byte 0) (Array byte 0) b.entry result (λ ws. ws) b.old) }
    ensures value { MatchOption result (not_sound b.old ≡ true) (λ book. (book.now ≡ b.old) × (not_sound b.old ≡ false)) }
{
    if not_sound(b) {
        return None;
    }
    b.as_mut_array()
}
