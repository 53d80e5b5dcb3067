// The search for a loan that conflicts with an access.
ghost use Rattle.std.specs.Prelude.{◌≡◌, length};
ghost use Rattle.nll_spec.specs.Syntax.{Job};
ghost use Rattle.repr.specs.Reading.{borrow_kind_of, path_of};
ghost use Rattle.env.specs.Prefixes.{ShortestOf};
ghost use Rattle.borrowck.specs.Search.{counts, near, lent_at, own_at, Touches, Prefixes, FoundIn, FirstIn};

use super::{Access, Conflict, Depth, Mode};
use env::prefixes::{is_frozen, is_prefix, is_supporting};
use loans::Loan;
use repr::{BorrowKind, Path};

// Whether an access minds a loan of this kind: reading minds Mut loans only.
fn minds(mode: Mode, kind: BorrowKind) -> bool
    ensures { result ≡ counts mode (borrow_kind_of kind) }
{
    mode == Mode::Write || kind == BorrowKind::Mut
}

// Whether q is a supporting prefix of the loan's path, or for a shallow access a frozen one.
fn leads_to(s: &[u8], depth: Depth, q: Path, loan: Loan) -> bool
    ensures { (j : Job) → ShortestOf j (path_of s.now loan.path) loan.shortest → result ≡ near j depth (path_of s.now q) (path_of s.now loan.path) }
{
    match depth {
        Depth::Deep => is_supporting(s, q, loan.path, loan.shortest),
        Depth::Shallow => is_frozen(s, q, loan.path, loan.shortest),
    }
}

// Whether the prefix of k steps of the path is the loan's path.
fn is_lent(s: &[u8], loan: Loan, path: Path, k: usize) -> bool
    ensures { (j : Job) → result ≡ lent_at j s.now loan path k }
{
    k == usize::from(loan.path.steps) && is_prefix(s, loan.path, path)
}

// Whether the prefix of k steps of the loan's path is the path, and leads to the loan.
fn is_own(s: &[u8], depth: Depth, loan: Loan, path: Path, k: usize) -> bool
    ensures { (j : Job) → ShortestOf j (path_of s.now loan.path) loan.shortest → result ≡ own_at j s.now depth loan path k }
{
    k == usize::from(path.steps) && leads_to(s, depth, path, loan)
}

// Whether the prefix of k steps of the path is the loan's, or that of the loan's path is the path and leads to the loan.
fn touches(s: &[u8], loan: Loan, access: Access, k: usize) -> bool
    ensures { Touches s.now loan access k result }
{
    is_lent(s, loan, access.path, k) || is_own(s, access.depth, loan, access.path, k)
}

// How many prefixes the longer of the two paths has; none where the access does not mind the loan, or the paths have different bases.
fn prefixes(loan: Loan, access: Access) -> usize
    ensures { Prefixes loan access result }
{
    if !minds(access.mode, loan.kind) || loan.path.base != access.path.base {
        return 0;
    }
    usize::from(loan.path.steps.max(access.path.steps)) + 1
}

// The first of the loans that conflicts with the access.
pub fn search(s: &[u8], loans: &[Loan], access: Access) -> Option<usize>
    ensures { FoundIn s.now access loans.now result }
{
    'search: {
        for (i, &loan) in loans.iter().enumerate() {
            for k in 0..prefixes(loan, access) {
                if touches(s, loan, access, k) {
                    break 'search Some(i);
                }
            }
        }
        None
    }
}

// The first of the accesses that conflicts with one of the loans.
pub fn search_in(s: &[u8], loans: &[Loan], accesses: &[Access]) -> Option<Conflict>
    ensures { FirstIn s.now accesses.now (length accesses.now) loans.now result }
{
    for (k, &access) in accesses.iter().enumerate() {
        if let Some(loan) = search(s, loans, access) {
            return Some(Conflict { access: k, loan });
        }
    }
    None
}
