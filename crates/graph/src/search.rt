// What a search has seen, and what it still has to leave.
ghost use Rattle.std.specs.Prelude.{◌≤◌};

// The marks of the numbers below N that were seen, and a stack of those that are still to be left.
#[derive(Drop)]
pub struct Search<const N: usize> {
    pub seen: [u8; N],
    pub stack: [u16; N],
    pub depth: usize,
    ghost room: { depth ≤ N },
}

impl<const N: usize> Search<N> {
    ghost use Rattle.std.specs.Prelude.{◌≡◌, replicate};
    ghost use Rattle.graph.specs.Search.{state, state_of, pushed_within, Popped};

    // Nothing is seen.
    pub fn new() -> Search<N>
        requires { N ≤ 1024 }
        ensures { state_of result ≡ state (replicate N 0) (replicate N 0) 0 }
    {
        Search {
            seen: [0; N],
            stack: [0; N],
            depth: 0,
        }
    }

    // Marks and pushes s, where it is below N and the stack has a place. Else nothing changes.
    pub fn push(&mut self, s: u16)
        ensures { state_of self.new ≡ pushed_within N s (state_of self.old) }
    {
        let at = usize::from(s);
        if N <= at {
            return;
        }
        if N <= self.depth {
            return;
        }
        self.seen[at] = 1;
        self.stack[self.depth] = s;
        self.depth += 1;
    }

    // Takes the last number off the stack.
    pub fn pop(&mut self) -> Option<usize>
        ensures { Popped (state_of self.old) result (state_of self.new) }
    {
        if self.depth == 0 {
            return None;
        }
        self.depth -= 1;
        Some(usize::from(self.stack[self.depth]))
    }
}
