ghost use Rattle.lab_backend.specs.Laws.{OneOldest, OneReply};

/// One request at most stands first in a session.
pub fn one_oldest()
    ensures { OneOldest }
{}

/// A request of a session and the tables determine the reply and the tables then: there is at most one.
pub fn one_reply()
    ensures { OneReply }
{}
