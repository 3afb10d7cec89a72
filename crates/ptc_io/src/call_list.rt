// A count of calls, beside the numbers of those that are to fail.
ghost use Rattle.std.specs.Prelude.{◌≡◌};
ghost use Rattle.ptc_io.specs.Calls.{fails_next, one_more};

#[derive(Drop)]
pub(crate) struct CallList {
    pub(crate) made: u64,
    pub(crate) failing: Vec<u64>,
}

impl CallList {
    pub(crate) fn new(failing: Vec<u64>) -> CallList
        ensures made { result.made ≡ 0 }
        ensures failing { result.failing.items ≡ failing.items }
    {
        CallList { made: 0, failing }
    }

    // Counts one call more, and tells whether it is to fail.
    pub(crate) fn count(&mut self) -> bool
        ensures fails { result ≡ fails_next self.old.made self.old.failing.items }
        ensures made { self.new.made ≡ one_more self.old.made }
        ensures failing { self.new.failing.items ≡ self.old.failing.items }
    {
        match self.made.checked_add(1) {
            Some(made) => {
                self.made = made;
                self.failing.contains(&made)
            }
            None => false,
        }
    }
}
