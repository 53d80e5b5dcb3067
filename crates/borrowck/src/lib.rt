#![tactic(auto)]
// The verdict at each point: the first operand whose access conflicts with a loan in scope.
mod accesses;
mod checks;
mod scope;
mod search;
mod single;

ghost use Rattle.std.specs.Prelude.{◌≡◌, ◌*◌, ◌+◌, ◌<◌, ◌≤◌, length};
ghost use Rattle.nll_spec.specs.Fixpoint.{Table, holds};
ghost use Rattle.nll_spec.specs.Syntax.{Job, Point};
ghost use Rattle.nll_spec.specs.Decode.{code_count, point_count};
ghost use Rattle.nll_spec.specs.Graph.{graph_of};
ghost use Rattle.nll_spec.specs.Loans.{loans_of};
ghost use Rattle.nll_spec.specs.Access.{verdict_at};
ghost use Rattle.nll_spec.specs.Output.{overwrite};
ghost use Rattle.record.specs.Layout.{Holds};
ghost use Rattle.bit_set.specs.Bits.{has};
ghost use Rattle.loans.specs.Loans.{LoansAt};
ghost use Rattle.borrowck.specs.Faults.{verdict_of, Scoped, bytes_to, Judged};

use accesses::Accesses;
use checks::check_accesses;
use loans::LoanTable;
use record::Record;
use repr::Path;
use scope::InScope;

// How far an access reaches: the path itself, or all that it leads to.
#[derive(Clone, Copy)]
pub enum Depth {
    Shallow,
    Deep,
}

#[derive(Clone, Copy, PartialEq, Eq)]
pub enum Mode {
    Read,
    Write,
}

// The kind of a fault, by its number.
#[derive(Clone, Copy, PartialEq, Eq)]
pub enum FaultKind {
    Read = 1,
    Write = 2,
    Move = 3,
    StorageDead = 4,
}

// What is done to a path: how far it reaches, whether it reads or writes, and the kind of the fault that it is where it conflicts.
#[derive(Clone, Copy)]
pub struct Access {
    pub depth: Depth,
    pub mode: Mode,
    pub path: Path,
    pub fault: FaultKind,
}

// An access that conflicts, and the first loan that it conflicts with, by their numbers.
#[derive(Clone, Copy)]
pub struct Conflict {
    pub access: usize,
    pub loan: usize,
}

// The access of an operand conflicts with a loan.
#[derive(Clone, Copy)]
pub struct Fault {
    pub kind: FaultKind,
    pub operand: u8,
}

// The verdict at a point of the blocks.
pub fn verdict(input: &Record<'_>, loans: &LoanTable, scope: &[u32], p: usize) -> Option<Fault>
    ensures { (j : Job) (t : Table) → Holds input.now j → p < code_count j.blocks → Scoped input.now.bytes.now j loans.now scope.now p t → verdict_of result ≡ verdict_at j (graph_of j) t (loans_of (graph_of j)) p }
{
    if 1024 <= p {
        return None;
    }
    if 128 < loans.count {
        return None;
    }
    let here = InScope { loans, scope, p };
    if !here.any() {
        return None;
    }
    let (a, next) = input.action_at(p).ok()?;
    let accesses = Accesses::of_action(input.bytes, a, next);
    if accesses.count == 0 {
        return None;
    }
    let k = check_accesses(input.bytes, &here, accesses)?;
    Some(Fault {
        kind: accesses.list[k].fault,
        operand: k as u8,
    })
}

// The verdict at any point; the ends of declared regions do nothing.
fn verdict_at(input: &Record<'_>, loans: &LoanTable, scope: &[u32], p: usize) -> Option<Fault>
    ensures { Judged input.now loans.now scope.now p result }
{
    if usize::from(input.head.code) <= p {
        return None;
    }
    verdict(input, loans, scope, p)
}

// The two bytes of a verdict; both 0 without a fault.
fn bytes_of(verdict: Option<Fault>) -> (u8, u8)
    ensures { (result.0 ≡ (verdict_of verdict).kind) × (result.1 ≡ (verdict_of verdict).operand) }
{
    match verdict {
        Some(fault) => (fault.kind as u8, fault.operand),
        None => (0, 0),
    }
}

// Writes the verdicts of all points, two bytes each, where there is room for them.
pub fn borrow_check(input: &Record<'_>, loans: &LoanTable, scope: &[u32], bytes: &mut [u8])
    ensures { (length bytes.new ≡ length bytes.old)
        × ((j : Job) (t : Table) → Holds input.now j → LoansAt input.now.bytes.now j loans.now.loans loans.now.count
        → ((p : Point) → p < code_count j.blocks → (i : Point) → i < loans.now.count → has scope.now (128 * p + i) ≡ holds t i p)
        → 2 * point_count j ≤ length bytes.old
        → bytes.new ≡ overwrite (bytes_to (verdict_at j (graph_of j) t (loans_of (graph_of j))) (point_count j)) bytes.old) }
{
    let points = usize::from(input.head.code) + usize::from(input.head.declared);
    if bytes.len() < 2 * points {
        return;
    }
    for p in 0..points {
        (bytes[2 * p], bytes[2 * p + 1]) = bytes_of(verdict_at(input, loans, scope, p));
    }
}
