// The constraints of a point.
ghost use Rattle.rerun.specs.Rerun.{PointAdds};

use constraints::constrain;
use graph::tables::FuncGraph;
use record::ActionKind;

// Adds the constraints of a point of the blocks, if its block is walked. Only Borrow, Assign and Constraint make any.
pub fn point(graph: &FuncGraph<'_>, p: usize, list: &mut [u32])
    ensures { PointAdds graph.now p list.old list.new }
{
    if 1024 < p {
        return;
    }
    if !bit_set::test(&graph.walked, 0, p) {
        return;
    }
    if !matches!(
        graph.input.kind_at(p),
        ActionKind::Borrow | ActionKind::Assign | ActionKind::Constraint
    ) {
        return;
    }
    constrain(&graph.input, p as u16, list);
}
