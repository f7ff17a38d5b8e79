//! Calls of which some fail.
ghost use Rattle.std.specs.Prelude.{◌≡◌};
ghost use Rattle.display_cli.specs.inside.Calls.{is_failing, one_more};

/// The calls that were made, and the numbers of those that fail. They are counted from 1.
#[derive(Debug, Drop)]
pub(crate) struct Calls {
    failing: Vec<u64>,
    made: u64,
}

impl Calls {
    /// None was made yet, and those of the numbers in `failing` fail.
    pub(crate) fn new(failing: Vec<u64>) -> Calls
        ensures failing { result.failing ≡ failing }
        ensures made { result.made ≡ 0 }
    {
        Calls { failing, made: 0 }
    }

    /// Counts a call, and returns whether it fails.
    pub(crate) fn next_fails(&mut self) -> bool
        ensures fails { result ≡ is_failing self.old self.new }
        ensures counted { self.new ≡ one_more self.old }
    {
        self.made = self.made.saturating_add(1);
        self.failing.contains(&self.made)
    }
}
