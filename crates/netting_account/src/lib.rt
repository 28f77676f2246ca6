// "Today's net for an account and security" (document 01, "From trades to positions"): the nets of one account in all securities, and which accounts
// the list names.
#![tactic(auto)]

mod account;
mod named;
mod one_trade;

pub use account::account_nets;
pub use named::named_accounts;
