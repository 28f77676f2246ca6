// Shares, money in mils and prices in mils per share (document 01, "What the book covers"): a type each,
// so that shares handed over where money is due do not compile. What they count is a `Whole`, a signed number.
#![tactic(auto)]

mod counted;
mod money;
mod number;
mod stock;

pub use counted::Counted;

// A signed whole number.
#[derive(Clone, Copy)]
pub struct Whole(pub i64);

// Shares: above zero the account receives them, below zero it delivers them.
#[derive(Clone, Copy)]
pub struct Shares(pub Whole);

// Money in mils, thousandths of a currency unit: above zero the account pays it, below zero it receives it.
#[derive(Clone, Copy)]
pub struct Mils(pub Whole);

// Shares without a direction: what is held, owed, wanted or given.
#[derive(Clone, Copy)]
pub struct Quantity(pub u64);

// Money in mils without a direction: how large an amount is.
#[derive(Clone, Copy)]
pub struct Amount(pub u64);

// A price in mils per share.
#[derive(Clone, Copy)]
pub struct Price(pub u32);
