// Which access of an action conflicts with a loan in scope.
ghost use Rattle.borrowck.specs.Faults.{Checked};

use super::accesses::Accesses;
use super::scope::InScope;
use super::search::search_in;

// The first access that conflicts with a loan in scope, part by part.
pub fn check_accesses(s: &[u8], here: &InScope<'_>, accesses: Accesses) -> Option<usize>
    ensures { Checked s.now here.now.loans.now.loans here.now.scope.now here.now.p accesses here.now.loans.now.count result }
{
    let many = here.loans.lent().len();
    let mut first = None;
    let mut from = 0;
    while from < many {
        let part = here.part(from);
        let below = first.unwrap_or(accesses.count);
        let lent = &part.loans[..part.count];
        if let Some(conflict) = search_in(s, lent, &accesses.list[..below]) {
            first = Some(conflict.access);
        }
        from = part.next;
    }
    first
}
