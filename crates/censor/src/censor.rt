//! The censor.
ghost use Rattle.censor.specs.Sizes.{HasSizes};

use crate::handler::Handler;
use acra_base::Sequence;

/// A censor: at most 256 handlers, which are tried in order, with at most 1,024 entries in each of their lists.
#[derive(Drop)]
pub struct Censor {
    /// The handlers, in order.
    pub handlers: Sequence<Handler>,
    pub ghost sizes: { HasSizes handlers },
}
