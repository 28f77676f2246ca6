// The price question (document 01, "Marks"), and what marks ask of the two price tables.
#![tactic(auto)]

mod prices;

pub use prices::{PriceTables, price, price_of, prices_above, tables_of};
