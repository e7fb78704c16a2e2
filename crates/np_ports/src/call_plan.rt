//! Which calls of an object in memory fail.

// The numbers of the calls that fail, and the number of the next call. Calls are numbered from 1. The number
// stays at its end, 2^64 - 1, which so stands for all calls from there on.
#[derive(Drop)]
pub(crate) struct CallPlan {
    fail_at: Vec<u64>,
    next: u64,
}

impl CallPlan {
    ghost use Rattle.std.specs.Prelude.{◌≡◌};
    ghost use Rattle.np_ports.specs.Plan.{plan_of, plan_from, fails_next, after_call};

    pub(crate) fn new(fail_at: Vec<u64>) -> CallPlan
        ensures { plan_of result ≡ plan_from fail_at.items }
    {
        CallPlan { fail_at, next: 1 }
    }

    // Takes the next number, and reports whether it is listed.
    pub(crate) fn fails_now(&mut self) -> bool
        ensures listed { result ≡ fails_next (plan_of self.old) }
        ensures next { plan_of self.new ≡ after_call (plan_of self.old) }
    {
        let number = self.next;
        self.next = number.saturating_add(1);
        self.fail_at.contains(&number)
    }
}
