// Runs the parts and conversions of tests/numbers.py through `units` and prints what they give. The expected output
// (stdout) was computed apart from it, with unbounded integers.
#![tactic(auto)]

mod vectors;

use std::io;
use units::{Amount, Counted, Mils, Quantity, Shares};

// A position as far as parts go.
#[derive(Clone, Copy)]
struct Left {
    money: Mils,
    shares: Shares,
}

fn print_text(rt: &impl Print, text: &[u8]) -> io::Result<()> {
    rt.write_all(text)
}

fn print_size(rt: &impl Print, n: u64) -> io::Result<()> {
    rt.print(n)
}

fn print_money(rt: &impl Print, m: Mils) -> io::Result<()> {
    if m.is_negative() {
        print_text(rt, b"-")?;
    }
    print_size(rt, m.size().0)
}

// A vector past the bounds of a record prints nothing, and so would differ from the expected output.
fn show_part(rt: &impl Print, vector: &[u64]) -> io::Result<()> {
    let &[below, m, q, k] = vector else {
        return Ok(());
    };
    if 2_560_000_000_000_000 < m {
        return Ok(());
    }
    if q == 0 {
        return Ok(());
    }
    if 256_000_000 < q {
        return Ok(());
    }
    if q < k {
        return Ok(());
    }
    let goes = units_rounded::part(
        Mils::of(below == 1, Amount(m)),
        Shares::of(false, Quantity(q)),
        Shares::of(false, Quantity(k)),
    );
    print_text(rt, b"part ")?;
    print_money(rt, goes)?;
    print_text(rt, b"\n")
}

fn print_taken(rt: &impl Print, goes: Mils, stays: Left) -> io::Result<()> {
    print_text(rt, b"goes ")?;
    print_money(rt, goes)?;
    print_text(rt, b" stays ")?;
    print_money(rt, stays.money)?;
    print_text(rt, b" ")?;
    print_size(rt, stays.shares.size().0)?;
    print_text(rt, b"\n")
}

// Takes k shares off a position and prints what goes and what stays.
fn take(rt: &impl Print, left: Left, k: Quantity) -> io::Result<Left> {
    let shares = left.shares.size();
    let money = left.money.size();
    if k.0 == 0 {
        return Ok(left);
    }
    if shares.0 < k.0 {
        return Ok(left);
    }
    if 256_000_000 < shares.0 {
        return Ok(left);
    }
    if 2_560_000_000_000_000 < money.0 {
        return Ok(left);
    }
    let taken = Shares::of(false, k);
    let goes = units_rounded::part(left.money, left.shares, taken);
    let stays = Left {
        money: left.money.minus(goes),
        shares: left.shares.toward_zero(taken),
    };
    print_taken(rt, goes, stays)?;
    Ok(stays)
}

fn show_run(rt: &impl Print, vector: &[u64]) -> io::Result<()> {
    let &[below, m, q, ref parts @ ..] = vector else {
        return Ok(());
    };
    if 2_560_000_000_000_000 < m {
        return Ok(());
    }
    if 256_000_000 < q {
        return Ok(());
    }
    let mut left = Left {
        money: Mils::of(below == 1, Amount(m)),
        shares: Shares::of(false, Quantity(q)),
    };
    for k in parts {
        left = take(rt, left, Quantity(*k))?;
    }
    Ok(())
}

fn print_count(rt: &impl Print, c: Option<u64>) -> io::Result<()> {
    match c {
        Some(n) => print_size(rt, n),
        None => print_text(rt, b"past"),
    }
}

fn show_sum(rt: &impl Print, vector: &[u64]) -> io::Result<()> {
    let &[sum, rate, haircut] = vector else {
        return Ok(());
    };
    if 9_223_372_036_854_775_807 < sum {
        return Ok(());
    }
    if 100_000_000 < rate {
        return Ok(());
    }
    if 10_000 < haircut {
        return Ok(());
    }
    print_text(rt, b"favourable ")?;
    print_count(
        rt,
        units_rounded::favourable(Mils::of(false, Amount(sum)), rate, haircut),
    )?;
    print_text(rt, b" unfavourable ")?;
    print_count(
        rt,
        units_rounded::unfavourable(Mils::of(true, Amount(sum)), rate, haircut),
    )?;
    print_text(rt, b"\n")
}

fn show_parts(rt: &impl Print) -> io::Result<()> {
    for vector in vectors::PARTS.chunks_exact(4) {
        show_part(rt, vector)?;
    }
    Ok(())
}

fn show_runs(rt: &impl Print) -> io::Result<()> {
    for vector in vectors::RUNS.chunks_exact(8) {
        show_run(rt, vector)?;
    }
    Ok(())
}

fn show_sums(rt: &impl Print) -> io::Result<()> {
    for vector in vectors::SUMS.chunks_exact(3) {
        show_sum(rt, vector)?;
    }
    Ok(())
}

fn main(rt: HostRuntime) -> io::Result<()> {
    show_parts(&rt)?;
    show_runs(&rt)?;
    show_sums(&rt)
}
