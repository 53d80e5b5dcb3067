#![tactic(auto)]
// For each point a row of four words: regions of which it is known that no constraint of the point has them as its inner region.
// The public functions require nothing: a row that is not within the table stays as it is, and `all_in` says no of it.
ghost use Rattle.constraint_list.specs.Listed.{count_in};
ghost use Rattle.absent_regions.specs.Absent.{AbsentBelow, Puts, Marks, AllIn};

// The regions of two sets.
pub fn marked(last: &[u32; 4], grew: &[u32; 4]) -> [u32; 4]
    ensures { Marks last.now grew.now result }
{
    let mut set = *last;
    bit_set::union_from(&mut set, 0, grew, 0, 4);
    set
}

// The regions below 128 that are inner regions of no constraint of the list.
fn absent_in(list: &[u32]) -> [u32; 4]
    ensures { AbsentBelow list.now (count_in list.now) result }
{
    let mut set = [u32::MAX; 4];
    for i in 0..constraint_list::count(list) {
        let region = usize::from(constraint_list::get(list, i).sub);
        bit_set::kill(&mut set, 0, region);
    }
    set
}

// Puts into row p the regions below 128 that are inner regions of no constraint of the list.
pub fn put(list: &[u32], p: usize, absent: &mut [u32])
    ensures { Puts list.now p absent.old absent.new }
{
    if absent.len() / 4 <= p {
        return;
    }
    let set = absent_in(list);
    bit_set::union_from(absent, 4 * p, &set, 0, 4);
}

// Whether all regions of the set are in row p.
pub fn all_in(absent: &[u32], p: usize, set: &[u32; 4]) -> bool
    ensures { AllIn absent.now p set.now result }
{
    p < absent.len() / 4 && (0..4).all(|k| set[k] & absent[4 * p + k] == set[k])
}
