ghost use Rattle.std.specs.Prelude.{◌≡◌, ◌-◌, ◌+◌, ◌^◌, ◌↔◌, min, Contains, IsTrue};

/// The calls of a device, counted from 0, and the numbers of those that fail.
#[derive(Drop)]
pub struct Calls {
    failing: Vec<u64>,
    made: u64,
}

impl Calls {
    /// No call yet.
    pub fn new(failing: Vec<u64>) -> Self
        ensures failing { result.failing.items ≡ failing.items }
        ensures made { result.made ≡ 0 }
    {
        Calls { failing, made: 0 }
    }

    /// Whether the call that is made now fails. It is counted.
    pub fn fails(&mut self) -> bool
        ensures answer { IsTrue result ↔ Contains self.old.failing.items self.old.made }
        ensures after { self.new ≡ record self.old { made = min (self.old.made + 1) (2 ^ 64 - 1) } }
    {
        let call = self.made;
        self.made = self.made.saturating_add(1);
        self.failing.contains(&call)
    }
}
