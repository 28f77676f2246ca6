// A line of the sheet as its head and its figures (document 01: R record index, refusal; X place; DAY day; P number account
// security quantity money; C account currency charge; E lines), so that one writer does for every kind.
ghost use Rattle.std.specs.Prelude.{◌≡◌, pos};
ghost use Rattle.units.specs.Units.{shares_of, mils_of};
ghost use Rattle.lines_text.specs.LineWords.{figure_of, worded, words_of};

use crate::{Figure, Words};
use rules::Line;
use units::{Counted, Mils, Shares};

fn plain(n: u64) -> Figure
    ensures { result ≡ figure_of (pos n) }
{
    Figure {
        minus: false,
        size: n,
    }
}

fn of_shares(q: Shares) -> Figure
    ensures { result ≡ figure_of (shares_of q) }
{
    let minus = q.is_negative();
    let size = q.size();
    Figure {
        minus,
        size: size.0,
    }
}

fn of_money(m: Mils) -> Figure
    ensures { result ≡ figure_of (mils_of m) }
{
    let minus = m.is_negative();
    let size = m.size();
    Figure {
        minus,
        size: size.0,
    }
}

fn made(head: u8, count: usize, figures: [Figure; 5]) -> Words
    ensures { result ≡ worded head count figures }
{
    Words {
        head,
        count,
        figures,
    }
}

pub fn words_of(l: Line) -> Words
    ensures { result ≡ words_of l }
{
    let z = plain(0);
    match l {
        Line::Refusal(i, n) => made(82, 2, [plain(i as u64), plain(n as u64), z, z, z]),
        Line::Place(p) => made(88, 1, [plain(p as u64), z, z, z, z]),
        Line::Day(d) => made(68, 1, [plain(d as u64), z, z, z, z]),
        Line::Open(n, a, s, q, m) => made(
            80,
            5,
            [
                plain(n as u64),
                plain(a as u64),
                plain(s as u64),
                of_shares(q),
                of_money(m),
            ],
        ),
        Line::Charge(a, c, m) => made(67, 3, [plain(a as u64), plain(c as u64), of_money(m), z, z]),
        Line::End(n) => made(69, 1, [plain(n as u64), z, z, z, z]),
    }
}
