// What the actions use, drop and define, as numbers in the points' sets.
ghost use Rattle.std.specs.Prelude.{◌≡◌, [], ◌∷◌, ◌+◌, ◌*◌, ◌<◌, ◌≤◌, length};
ghost use Rattle.nll_spec.specs.Liveness.{is_plain, write_def, write_use};
ghost use Rattle.repr.specs.Reading.{path_of};
ghost use Rattle.liveness.specs.Needs.{start_of, in_half, in_either, Added, Removed, Sourced, Needed, Defined, Blank, Acted, AllActed};

use super::Half;
use record::Record;
use repr::{Action, Cursor, Path, Variable};

// Puts a variable into a half of point p's set.
fn add(sets: &mut [u32], p: usize, half: Half, v: Variable)
    requires { 4 * p + 4 ≤ length sets.old }
    ensures { Added p (in_half (start_of half) (v.0 ∷ [])) sets.old sets.new }
{
    let k = usize::from(v.0);
    if k < 64 {
        bit_set::add(sets, 4 * p, half.start() + k);
    }
}

// Takes a variable out of both halves of point p's set.
fn kill(pass: &mut [u32], p: usize, v: Variable)
    requires { p < 1024 }
    ensures { Removed p (in_either (v.0 ∷ [])) pass.old pass.new }
{
    let k = usize::from(v.0);
    if k < 64 {
        bit_set::kill(pass, 4 * p, k);
        bit_set::kill(pass, 4 * p, 64 + k);
    }
}

// Whether a path has no steps.
fn plain(s: &[u8], p: Path) -> bool
    ensures { result ≡ is_plain (path_of s.now p) }
{
    p.steps == 0 || s.len() <= p.from.at
}

// Writing to a path with steps uses its base.
fn write_use(s: &[u8], sets: &mut [u32], p: usize, dest: Path)
    requires { 4 * p + 4 ≤ length sets.old }
    ensures { Added p (in_half 0 (write_use (path_of s.now dest))) sets.old sets.new }
{
    if !plain(s, dest) {
        add(sets, p, Half::Used, dest.base);
    }
}

// Writing to a variable defines it.
fn write_def(s: &[u8], pass: &mut [u32], p: usize, dest: Path)
    requires { p < 1024 }
    ensures { Removed p (in_either (write_def (path_of s.now dest))) pass.old pass.new }
{
    if plain(s, dest) {
        kill(pass, p, dest.base);
    }
}

// What so many paths use, the sources of an Init.
fn sources(s: &[u8], from: Cursor, count: u8, sets: &mut [u32], p: usize)
    requires { 4 * p + 4 ≤ length sets.old }
    ensures { Sourced s.now from count p sets.old sets.new }
{
    let mut c = from;
    for _ in 0..count {
        let Ok((q, next)) = c.path(s) else {
            return;
        };
        add(sets, p, Half::Used, q.base);
        c = next;
    }
}

// What an action uses and drops. An Init's sources stand at the cursor.
fn needs(s: &[u8], a: Action, next: Cursor, sets: &mut [u32], p: usize)
    requires { 4 * p + 4 ≤ length sets.old }
    ensures { Needed s.now a next p sets.old sets.new }
{
    match a {
        Action::Init { dest, count } => {
            sources(s, next, count, sets, p);
            write_use(s, sets, p, dest);
        }
        Action::Borrow { source, .. } => add(sets, p, Half::Used, source.base),
        Action::Assign { dest, source } => {
            add(sets, p, Half::Used, source.base);
            write_use(s, sets, p, dest);
        }
        Action::Use(q) => add(sets, p, Half::Used, q.base),
        Action::Drop(q) => add(sets, p, Half::Dropped, q.base),
        Action::Noop | Action::Constraint { .. } | Action::StorageDead(_) => {}
    }
}

// What an action defines.
fn defines(s: &[u8], a: Action, next: Cursor, pass: &mut [u32], p: usize)
    requires { p < 1024 }
    ensures { Defined s.now a next p pass.old pass.new }
{
    match a {
        Action::Init { dest, .. } | Action::Assign { dest, .. } => write_def(s, pass, p, dest),
        Action::Borrow { dest, .. } => kill(pass, p, dest.base),
        Action::Noop
        | Action::Constraint { .. }
        | Action::Use(_)
        | Action::Drop(_)
        | Action::StorageDead(_) => {}
    }
}

// The action of point p.
fn act(input: &Record<'_>, p: usize, sets: &mut [u32], pass: &mut [u32])
    requires { (p < 1024) × (4 * p + 4 ≤ length sets.old) }
    ensures { Acted input.now p sets.old pass.old sets.new pass.new }
{
    if let Ok((a, next)) = input.action_at(p) {
        needs(input.bytes, a, next, sets, p);
        defines(input.bytes, a, next, pass, p);
    }
}

// The actions of all points.
pub fn fill(input: &Record<'_>, sets: &mut [u32], pass: &mut [u32])
    requires { (input.now.head.code ≤ 1024) × (4 * input.now.head.code ≤ length sets.old) × Blank input.now.head.code sets.old pass.old }
    ensures { AllActed input.now sets.new pass.new }
{
    for p in 0..usize::from(input.head.code) {
        act(input, p, sets, pass);
    }
}
