// The regions' rows, and what is put into them.
ghost use Rattle.std.specs.Prelude.{◌≡◌, ◌&&◌, ◌*◌, ◌≤◌, ◌<◌, length, eqb, ltb};
ghost use Rattle.nll_spec.specs.Syntax.{Job};
ghost use Rattle.record.specs.Layout.{Holds};

use super::Which;
use super::regions::type_regions;
use graph::tables::FuncGraph;
use record::{Head, Record};
use repr::Variable;

// Rows of `width` words each.
#[derive(Drop)]
pub struct Rows<'a> {
    pub words: &'a mut [u32],
    pub width: usize,
    ghost narrow: { width ≤ 32 },
}

impl Rows<'_> {
    ghost use Rattle.seeds.specs.Seeded.{Kept, Gets, declared_seed, spreads, takes, any_to, live_in};

    // Puts row v of the live points into the row of each region in the set that is not declared.
    fn spread(&mut self, head: Head, names: &[u32; 4], live: &[u32], v: u8)
        ensures kept { Kept self.old self.new }
        ensures adds { v < 64 → 64 * self.old.width ≤ length live.now → Gets head (spreads head.declared names.now self.old.width live.now v) self.old self.new }
    {
        let from = usize::from(v) * self.width;
        for r in head.declared..head.regions {
            let row = usize::from(r);
            if bit_set::test(names, 0, row) {
                bit_set::union_from(self.words, row * self.width, live, from, self.width);
            }
        }
    }

    // The same for the regions that are taken of the type of variable v, which is not read where the row is empty.
    fn live(&mut self, input: &Record<'_>, v: u8, which: Which, points: &[u32])
        ensures kept { Kept self.old self.new }
        ensures adds { (j : Job) → Holds input.now j → v < length j.variables → 64 * self.old.width ≤ length points.now
            → Gets input.now.head (takes j which self.old.width points.now v) self.old self.new }
    {
        if !bit_slice::some_set(points, usize::from(v) * self.width, self.width) {
            return;
        }
        let mut names = [0; 4];
        let at = input.variable_at(Variable(v));
        type_regions(input, at, which, &mut names);
        self.spread(input.head, &names, points, v);
    }

    // What every variable gives.
    pub fn fill_live(&mut self, input: &Record<'_>, used: &[u32], dropped: &[u32])
        ensures kept { Kept self.old self.new }
        ensures adds { (j : Job) → Holds input.now j → 64 * self.old.width ≤ length used.now → 64 * self.old.width ≤ length dropped.now
            → Gets input.now.head (λ r p. any_to (live_in j self.old.width used.now dropped.now r p) input.now.head.variables) self.old self.new }
    {
        for v in 0..input.head.variables {
            self.live(input, v, Which::Every, used);
            self.live(input, v, Which::Dropped, dropped);
        }
    }

    // A declared region's row: the walked points, and the ends of what it outlives.
    fn declared_row(&mut self, graph: &FuncGraph<'_>, ends: &[u32; 16], r: u8)
        ensures kept { Kept self.old self.new }
        ensures adds { r < graph.now.input.head.regions → Gets graph.now.input.head (λ k p. eqb k r && declared_seed graph.now.input.head.code graph.now.input.head.declared graph.now.walked ends.now k p) self.old self.new }
    {
        let row = usize::from(r);
        let code = usize::from(graph.input.head.code);
        let start = row * self.width;
        bit_set::union_from(self.words, start, &graph.walked, 0, self.width);
        for e in 0..usize::from(graph.input.head.declared) {
            if bit_set::test(ends, row, e) {
                bit_set::add(self.words, start, code + e);
            }
        }
    }

    // The rows of all declared regions.
    pub fn fill_declared(&mut self, graph: &FuncGraph<'_>, ends: &[u32; 16])
        ensures kept { Kept self.old self.new }
        ensures adds { Gets graph.now.input.head (λ r p. ltb r graph.now.input.head.declared && declared_seed graph.now.input.head.code graph.now.input.head.declared graph.now.walked ends.now r p) self.old self.new }
    {
        for r in 0..graph.input.head.declared {
            self.declared_row(graph, ends, r);
        }
    }
}
