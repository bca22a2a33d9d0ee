//! The store of tokens: values that stand in for values, made by a rule and kept for good.
#![tactic(auto)]

mod known;
mod laws;
mod load;
mod refusals;
mod store;
mod value;

pub use known::KnownToken;
pub use laws::{made_is_told, one_store, tokens_stay};
pub use refusals::{LoadRefusal, TokenRefusal};
pub use store::Tokens;
pub use value::TokenValue;
