// The lines of an answer: each step puts what comes next at a place of the listing.
ghost use Rattle.std.specs.Prelude.{◌≡◌, ◌+◌, ◌≤◌, length, Some};
ghost use Rattle.nll_spec.specs.Syntax.{Job};
ghost use Rattle.nll_spec.specs.Decode.{decode, decoded};

use super::writer::{Text, line, spaced};
use super::{Counts, Place};
use entries::get_or;
use record::{Offsets, read};

// How many steps one text takes at most.
const STEPS: usize = 4096;

// The words and bytes that the analysis wrote, and how many points and regions they are of.
#[derive(Clone, Copy)]
pub struct Answer<'a> {
    pub words: &'a [u32],
    pub bytes: &'a [u8],
    pub counts: Counts,
}

impl Answer<'_> {
    ghost use Rattle.listing.specs.Places.{in_set, Follows, Steps, Fills};

    // Whether point p is in region r's set.
    fn in_set(&self, r: u8, p: u16) -> bool
        ensures { result ≡ in_set self.now.words.now self.now.counts.points r p }
    {
        let each = usize::from(self.counts.points).div_ceil(32);
        bit_set::test(self.words, usize::from(r) * each, usize::from(p))
    }

    // The place after region r's line.
    fn after_region(&self, r: u8) -> Place
        ensures { Follows self.now.counts r result }
    {
        if r < self.counts.regions {
            Place::Region(r + 1)
        } else {
            Place::Access(0)
        }
    }

    // At the beginning of a region's line.
    fn at_region(&self, r: u8, text: &mut Text) -> Place
        requires { length text.old + 32 ≤ 4096 }
        ensures { Steps self.now (Place.Region r) text.old (Some result) text.new }
    {
        if r >= self.counts.regions {
            return Place::Access(0);
        }
        text.put(b"region");
        spaced(text, u16::from(r));
        Place::Within(r, 0)
    }

    // Within a region's line.
    fn within(&self, r: u8, p: u16, text: &mut Text) -> Place
        requires { length text.old + 32 ≤ 4096 }
        ensures { Steps self.now (Place.Within r p) text.old (Some result) text.new }
    {
        if p >= self.counts.points {
            text.push(b'\n');
            return self.after_region(r);
        }
        if self.in_set(r, p) {
            spaced(text, p);
        }
        Place::Within(r, p + 1)
    }

    // At a point's line.
    fn at_access(&self, p: u16, text: &mut Text) -> Place
        requires { length text.old + 32 ≤ 4096 }
        ensures { Steps self.now (Place.Access p) text.old (Some result) text.new }
    {
        if p >= self.counts.points {
            return Place::Grown(0);
        }
        let at = 2 * usize::from(p);
        let kind = get_or(self.bytes, at, 0);
        if kind != 0 {
            let operand = get_or(self.bytes, at + 1, 0);
            line(text, b"access", &[p, u16::from(kind), u16::from(operand)]);
        }
        Place::Access(p + 1)
    }

    // At a declared region's line.
    fn at_grown(&self, r: u8, text: &mut Text) -> Option<Place>
        requires { length text.old + 32 ≤ 4096 }
        ensures { Steps self.now (Place.Grown r) text.old result text.new }
    {
        if r >= self.counts.declared {
            return None;
        }
        let at = 2 * usize::from(self.counts.points) + usize::from(r);
        if get_or(self.bytes, at, 0) != 0 {
            line(text, b"grown", &[u16::from(r)]);
        }
        Some(Place::Grown(r + 1))
    }

    // Puts what comes next at a place.
    fn step(&self, from: Place, text: &mut Text) -> Option<Place>
        requires { length text.old + 32 ≤ 4096 }
        ensures { Steps self.now from text.old result text.new }
    {
        match from {
            Place::Points => {
                line(text, b"points", &[self.counts.points]);
                Some(Place::Region(0))
            }
            Place::Region(r) => Some(self.at_region(r, text)),
            Place::Within(r, p) => Some(self.within(r, p, text)),
            Place::Access(p) => Some(self.at_access(p, text)),
            Place::Grown(r) => self.at_grown(r, text),
        }
    }

    // Makes a text of what comes next at a place, until it has room for fewer than 32 bytes or 4,096 steps were made, and answers the place that follows, if any.
    pub fn fill(&self, from: Place, text: &mut Text) -> Option<Place>
        ensures { Fills self.now from result text.new }
    {
        text.clear();
        let mut place = from;
        for _ in 0..STEPS {
            if text.room() < 32 {
                break;
            }
            place = self.step(place, text)?;
        }
        Some(place)
    }
}

ghost use Rattle.listing.specs.Places.{Counted};

// How many points, regions and declared regions a record's job has. What is no job has none.
pub fn count(s: &[u8]) -> Counts
    ensures { (j : Job) → decode s.now ≡ decoded j → Counted j result }
{
    let mut layout = Offsets::none();
    match read(s, &mut layout) {
        Ok(h) => Counts {
            points: h.code + u16::from(h.declared),
            regions: h.regions,
            declared: h.declared,
        },
        Err(_) => Counts {
            points: 0,
            regions: 0,
            declared: 0,
        },
    }
}
