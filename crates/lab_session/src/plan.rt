use pg_wire::Front;

/// A statement as it is sent on.
#[derive(Debug, Drop)]
pub struct Plan {
    /// The request for the backend.
    pub request: Front,
    /// Which columns of the result are protected.
    pub protected: Vec<bool>,
}
