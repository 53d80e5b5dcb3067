#![tactic(auto)]
// A list of constraints in a lent table. Number 0 says how many there are; each takes one number, from number 1 on.
ghost use Rattle.std.specs.Prelude.{◌≡◌, [], ◌∷◌, ◌+◌, length, get_or};
ghost use Rattle.constraint_list.specs.Listed.{outlives_from, outlives_of, count_in, room_in, Adds, Draws};

use entries::get_or;

// No table is used beyond this size.
const MOST: usize = 65536;

// "Region sup outlives region sub at the point."
#[derive(Clone, Copy)]
pub struct Constraint {
    pub sup: u8,
    pub sub: u8,
    pub point: u16,
}

impl From<u32> for Constraint {
    ghost from_gives = { λ n c. outlives_of c ≡ outlives_from n };

    fn from(n: u32) -> Constraint {
        let [sup, sub, high, low] = n.to_be_bytes();
        Constraint {
            sup,
            sub,
            point: u16::from_be_bytes([high, low]),
        }
    }
}

impl From<Constraint> for u32 {
    ghost from_gives = { λ c n. outlives_from n ≡ outlives_of c };

    fn from(c: Constraint) -> u32 {
        let [high, low] = c.point.to_be_bytes();
        u32::from_be_bytes([c.sup, c.sub, high, low])
    }
}

// How many constraints there are.
pub fn count(list: &[u32]) -> usize
    ensures { result ≡ count_in list.now }
{
    get_or(list, 0, 0) as usize
}

// How many more there is room for.
pub fn room(list: &[u32]) -> usize
    ensures { result ≡ room_in list.now }
{
    list.len().min(MOST).saturating_sub(count(list) + 1)
}

// Constraint i, counted from 0. One beyond the table is that of the number 0.
pub fn get(list: &[u32], i: usize) -> Constraint
    ensures { outlives_of result ≡ outlives_from (get_or list.now (i + 1) 0) }
{
    Constraint::from(get_or(list, i.saturating_add(1), 0))
}

// Takes all constraints away.
pub fn clear(list: &mut [u32])
    ensures { (length list.new ≡ length list.old) × (count_in list.new ≡ 0) }
{
    if !list.is_empty() {
        list[0] = 0;
    }
}

// Puts a constraint after those that are there, where there is room.
pub fn add(list: &mut [u32], c: Constraint)
    ensures { Adds (outlives_of c ∷ []) list.old list.new × Draws (outlives_of c ∷ []) list.old list.new }
{
    if room(list) > 0 {
        let at = count(list) + 1;
        list[at] = u32::from(c);
        list[0] += 1;
    }
}
