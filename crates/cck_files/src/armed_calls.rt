//! Calls of which some are armed to fail.
ghost use Rattle.std.specs.Prelude.{◌≡◌};
ghost use Rattle.cck_files.specs.ArmedCalls.{after_call, fails, new_armed};

use std::marker::Model;

/// Which of the next calls are armed to fail, and the number of calls so far.
///
/// One of them may be armed alone, and all from one of them on; neither replaces the other. The
/// count of calls is a `u64` and stays at `u64::MAX`. No method takes memory.
#[derive(Debug, Copy, Clone)]
pub struct ArmedCalls {
    // The number of the call that is armed alone, and of the first of those that all are, counted
    // from 1; 0 for none.
    one: u64,
    onward: u64,
    calls: u64,
}

impl Model for ArmedCalls {
    ghost use Rattle.cck_files.specs.ArmedCalls.{Armed};

    ghost Value = { Armed };

    ghost view = { λ a. record { one = a.one; onward = a.onward; calls = a.calls } };

    ghost inverse = { λ v. record { one = v.one; onward = v.onward; calls = v.calls } };
}

impl ArmedCalls {
    /// An object without a call so far, and with none armed.
    pub fn new() -> ArmedCalls
        ensures { result ≡ new_armed }
    {
        ArmedCalls {
            one: 0,
            onward: 0,
            calls: 0,
        }
    }

    /// Arms the nth of the next calls, counted from 1, and that one alone, beside what
    /// [`fail_after`](ArmedCalls::fail_after) arms. It replaces what this method armed before, and
    /// 0 arms none.
    pub fn fail_at(&mut self, n: u64)
        ensures { self.new ≡ record self.old { one = n } }
    {
        self.one = n;
    }

    /// Arms the nth of the next calls, counted from 1, and all after it, beside what
    /// [`fail_at`](ArmedCalls::fail_at) arms. It replaces what this method armed before, and 0 arms
    /// none.
    pub fn fail_after(&mut self, n: u64)
        ensures { self.new ≡ record self.old { onward = n } }
    {
        self.onward = n;
    }

    /// The number of calls so far. It stays at `u64::MAX`.
    pub fn calls(&self) -> u64
        ensures { result ≡ self.now.calls }
    {
        self.calls
    }

    /// Counts a call, and returns whether it fails.
    pub fn begin(&mut self) -> bool
        ensures fails { result ≡ fails self.old }
        ensures after { self.new ≡ after_call self.old }
    {
        let fails = self.one == 1 || self.onward == 1;
        self.one = self.one.saturating_sub(1);
        if self.onward != 1 {
            self.onward = self.onward.saturating_sub(1);
        }
        self.calls = self.calls.saturating_add(1);
        fails
    }
}
