//! What is tested of a statement beside its grammar: the side conditions on its tokens, and how deep it nests.
#![tactic(auto)]

mod depth;
mod parameters;
mod qualifiers;

pub use depth::is_too_deep;
pub use parameters::are_gapless;
pub use qualifiers::qualifiers_agree;
