/// What is called by one thread at a time: it answers one call after the other.
///
/// Its meaning is a relation. Where that leaves a choice, a step may answer one thing or another.
pub trait Machine {
    /// What it is asked to do.
    type Call;

    /// What it answers.
    type Reply;

    /// A step: the state before, the call, its reply and the state after.
    ghost steps: { Self → Self.Call → Self.Reply → Self → Type 0 };

    /// Answers a call. It may take memory.
    fn step(&mut self, call: &Self::Call) -> Self::Reply
        ensures { steps self.old call.now result self.new };
}
