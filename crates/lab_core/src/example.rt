ghost use Rattle.lab_core.specs.Example.{ExampleReplies};

/// The definitions compute a session that is worked to the byte: the client `app` of the examples in
/// docs/FORMATS.md, under the seed 1, stores their value `it's`, and reads it back.
pub fn example_replies()
    ensures { ExampleReplies }
{}
