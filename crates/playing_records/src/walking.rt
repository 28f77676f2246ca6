// The walk over the records of a call file, from place to place (document 01, "Call file and sheet").
ghost use Rattle.std.specs.Prelude.{◌≡◌, ◌+◌, ◌<◌, ◌≤◌, length};
ghost use Rattle.rules.specs.Records.{record_at};
ghost use Rattle.rules.specs.CallFile.{file_of};
ghost use Rattle.callfile_format.specs.Bodies.{codes_at};
ghost use Rattle.callfile_format.specs.Reading.{says};
ghost use Rattle.playing_records.specs.Steps.{next_in};

use callfile_format::{Read, other_version, record_at};
use fields::get;

// Where the record behind the one that was found at a place begins. Behind an unreadable one the walk is at its end.
pub fn next_place(file: &[u8], place: usize, found: Option<Read>) -> usize
    requires { (place ≤ length file.now) × (says found (codes_at place file.now) ≡ record_at file.now place) }
    ensures { (result ≡ next_in file.now place) × (result ≤ length file.now)
        × (place < length file.now → place < result) }
{
    match found {
        None => file.len(),
        Some(_) => place + 2 + get(file, place, 2) as usize,
    }
}

// How many answers a file gets: one for each of its records.
pub fn count_answers(file: &[u8]) -> usize
    ensures { (result ≡ length (file_of file.now).answers) × (result ≤ length file.now + 1) }
{
    if other_version(file) {
        return 1;
    }
    let n = file.len();
    let mut count: usize = 1;
    let mut place = next_place(file, 1, record_at(file, 1));
    // Each step goes to where the next record begins, so that this is no `for`.
    while place < n {
        count += 1;
        place = next_place(file, place, record_at(file, place));
    }
    count
}
