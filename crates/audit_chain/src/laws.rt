ghost use Rattle.audit_chain.specs.Findings.{OneFinding};

/// A log says one thing: whatever is found in it under a key is the same.
pub fn one_finding()
    ensures { OneFinding }
{}
