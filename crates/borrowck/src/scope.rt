// The loans in scope at a point, in parts.
ghost use Rattle.std.specs.Prelude.{◌≤◌, ◌<◌};

use loans::{Loan, LoanTable};

// The loans that are in scope at point p: loan i is number i of the four words from 4 * p on.
#[derive(Clone, Copy)]
pub struct InScope<'a> {
    pub loans: &'a LoanTable,
    pub scope: &'a [u32],
    pub p: usize,
    ghost low: { p < 1024 },
    ghost most: { loans.now.count ≤ 128 },
}

// Some of them, the first `count` of the array; the next part begins at loan `next`.
#[derive(Clone, Copy)]
pub struct Part {
    pub loans: [Loan; 16],
    pub count: usize,
    pub next: usize,
    ghost room: { count ≤ 16 },
}

impl InScope<'_> {
    ghost use Rattle.borrowck.specs.Scope.{SomeIn, Gathered};

    // Whether there may be any.
    pub fn any(&self) -> bool
        ensures { SomeIn self.now.scope.now self.now.p result }
    {
        bit_slice::some_set(self.scope, 4 * self.p, 4)
    }

    // Those from number `from` on, in the order of the table: as many as a part has room for.
    pub fn part(&self, from: usize) -> Part
        ensures { Gathered self.now.loans.now.loans self.now.loans.now.count self.now.scope.now self.now.p from result }
    {
        let lent = self.loans.lent();
        let mut held = [self.loans.loans[0]; 16];
        let mut n = 0;
        for i in from..lent.len() {
            if n == 16 {
                return Part {
                    loans: held,
                    count: n,
                    next: i,
                };
            }
            if bit_slice::is_set(self.scope, 4 * self.p, i) {
                held[n] = lent[i];
                n += 1;
            }
        }
        Part {
            loans: held,
            count: n,
            next: lent.len(),
        }
    }
}
