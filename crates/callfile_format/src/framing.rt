// How a call file is framed (document 01, "Call file and sheet"): "One version byte, 1. Then records, each with a 2-byte big-endian length of what
// follows it".
ghost use Rattle.std.specs.Prelude.{◌≡◌, ◌+◌, ◌<◌, ◌≤◌, MatchOption, length, drop};
ghost use Rattle.rules.specs.Bounds.{most_file};
ghost use Rattle.rules.specs.Records.{length_of, other_version, past_end};

// An empty file has no version, and so another.
#[tactic(auto, unfolding(rules::specs::Records::other_version))]
pub fn other_version(file: &[u8]) -> bool
    ensures { result ≡ other_version file.now }
{
    file.is_empty() || file[0] != 1
}

// A version with no record behind it is not the end: it is unreadable at place 1.
#[tactic(auto, unfolding(rules::specs::Records::past_end))]
pub fn past_end(file: &[u8], place: u32) -> bool
    ensures { result ≡ past_end file.now place }
{
    place > 1 && file.len() <= place as usize
}

// Where the record behind the one at a place begins, if its length can be read.
pub fn next_of(file: &[u8], place: u32) -> Option<u32>
    requires { place ≤ most_file }
    ensures { MatchOption result (length file.now < place + 2) (λ next. (place + 2 ≤ length file.now) × (next ≡ place + 2 + length_of (drop place file.now))) }
{
    let at = place as usize;
    if file.len() < at + 2 {
        return None;
    }
    let long = fields::get(file, at, 2) as u32;
    Some(place + 2 + long)
}
