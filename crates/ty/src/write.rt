// Types written into lent bytes, in prefix order: a field's type with a struct's arguments put in, or a type as it is.
ghost use Rattle.std.specs.Prelude.{◌≡◌, ◌++◌, [], ◌∷◌, ◌+◌, ◌*◌, ◌≤◌, length, take};
ghost use Rattle.repr.specs.Reading.{borrow_kind_of, region_of};
ghost use Rattle.repr.specs.Spelling.{kind_byte, region_tag, region_number};
ghost use Rattle.ty.specs.Written.{FoundSays, RegionSays, WholeSays, CopiedSays};

use repr::{Argument, BorrowKind, Cursor, Node, Region, RegionName, Row};

// A struct's arguments: a row of the bytes.
#[derive(Clone, Copy)]
pub struct Arguments<'a> {
    pub bytes: &'a [u8],
    pub row: Row,
}

// The nodes that a type has at most.
const NODES: u8 = 32;

// Bytes that types are written into, where the next byte goes, and how many nodes more there is room for, at 15 bytes each.
#[derive(Drop)]
struct Writer<'a> {
    out: &'a mut [u8; 512],
    at: usize,
    left: u8,
    ghost room: { at + 15 * left ≤ 512 },
}

// Bytes, written from a place on. The library's copy would call memmove, as the two runs are not known to lie apart; nll's C library needs memcpy and memset alone.
fn put_run(out: &mut [u8], at: usize, bytes: &[u8])
    requires { at + length bytes.now ≤ length out.old }
    ensures { take (at + length bytes.now) out.new ≡ take at out.old ++ bytes.now }
{
    for (i, &byte) in bytes.iter().enumerate() {
        out[at + i] = byte;
    }
}

// The tag and the number of a region.
fn spelled(r: Region) -> [u8; 2]
    ensures { result ≡ region_tag (region_of r) ∷ region_number (region_of r) ∷ [] }
{
    match r {
        Region::Free(name) => [0, name.0],
        Region::Bound(b) => [1, b],
    }
}

// The byte of a kind: 0 for Mut, 1 for Shared.
fn kind_byte(kind: BorrowKind) -> u8
    ensures { result ≡ kind_byte (borrow_kind_of kind) }
{
    kind as u8
}

impl Arguments<'_> {
    // The argument that a bound index means.
    fn found(&self, b: u8) -> Option<Argument>
        ensures { FoundSays self.now b result }
    {
        if self.row.count == 0 {
            return None;
        }
        let number = self.row.count.saturating_sub(b).saturating_sub(1);
        let before = self.row.from.arguments(self.bytes, number, 32).ok()?;
        before.next.argument(self.bytes).ok()
    }

    // A region of a field's type, with the arguments put in.
    fn region(&self, r: Region) -> Region
        ensures { RegionSays self.now r result }
    {
        let Region::Bound(b) = r else {
            return r;
        };
        match self.found(b) {
            Some(Argument::Region(x, _)) => x,
            Some(Argument::Type(_)) => Region::Free(RegionName(0)),
            None => Region::Free(RegionName(0)),
        }
    }
}

impl Writer<'_> {
    ghost use Rattle.ty.specs.Writing.{Puts, CopySays, BoundSays, SubstSays, ArgumentsSay};

    // Bytes of so many nodes.
    fn put(&mut self, nodes: u8, bytes: &[u8])
        requires { (nodes ≤ self.old.left) × (self.old.at + 15 * self.old.left + length bytes.now ≤ 512 + 15 * nodes) }
        ensures { Puts nodes bytes.now self.old self.new }
    {
        let at = self.at;
        let out = &mut *self.out;
        put_run(out, at, bytes);
        self.left -= nodes;
        self.at += bytes.len();
    }

    // The type at a place, as it is.
    fn put_type(&mut self, s: &[u8], item: Cursor, next: Cursor) -> Option<Cursor>
        ensures { CopySays s.now item.at next self.old self.new result }
    {
        let rest = item.nodes(s, self.left).ok()?;
        let bytes = &s[item.at..rest.next.at.min(s.len())];
        self.put(self.left - rest.left, bytes);
        Some(next)
    }

    // The type that a bound index means.
    fn put_bound(&mut self, given: &Arguments<'_>, b: u8, next: Cursor) -> Option<Cursor>
        requires { 1 ≤ self.old.left }
        ensures { BoundSays given.now b next self.old self.new result }
    {
        match given.found(b) {
            Some(Argument::Type(item)) => self.put_type(given.bytes, item, next),
            Some(Argument::Region(_, _)) => {
                self.put(1, &[0]);
                Some(next)
            }
            None => {
                self.put(1, &[0]);
                Some(next)
            }
        }
    }

    // A field's type, which has at most `left` nodes once the arguments are put in.
    #[cycle(subst_arguments_subst_type)]
    fn subst_type(&mut self, f: &[u8], c: Cursor, given: &Arguments<'_>) -> Option<Cursor>
        ensures { SubstSays f.now c.at given.now self.old self.new result }
    {
        if self.left == 0 {
            return None;
        }
        match c.type_node(f).ok()? {
            Node::Unit(next) => {
                self.put(1, &[0]);
                Some(next)
            }
            Node::Bound(b, next) => self.put_bound(given, b, next),
            Node::Ref {
                kind,
                region,
                referent,
            } => {
                let [tag, number] = spelled(given.region(region));
                self.put(1, &[1, kind_byte(kind), tag, number]);
                self.subst_type(f, referent, given)
            }
            Node::Struct { name, arguments } => {
                let count = arguments.count;
                if count > 4 {
                    return None;
                }
                self.put(1, &[2, name.0, count]);
                self.subst_arguments(f, arguments.from, count, given)
            }
        }
    }

    // So many arguments of a field's type.
    #[cycle(subst_arguments_subst_type)]
    fn subst_arguments(
        &mut self,
        f: &[u8],
        c: Cursor,
        count: u8,
        given: &Arguments<'_>,
    ) -> Option<Cursor>
        requires { self.old.at + 15 * self.old.left + 3 * count ≤ 512 }
        ensures { ArgumentsSay f.now c.at count given.now self.old self.new result }
    {
        let mut next = c;
        for _ in 0..count {
            next = match next.argument(f).ok()? {
                Argument::Region(region, next) => {
                    let [tag, number] = spelled(given.region(region));
                    self.put(0, &[0, tag, number]);
                    next
                }
                Argument::Type(item) => {
                    self.put(0, &[1]);
                    self.subst_type(f, item, given)?
                }
            };
        }
        Some(next)
    }
}

// The type at x of a field, with the arguments put in, from the first of the lent bytes on, and where it ends there; none if it has more than 32 nodes.
pub fn subst(field: &[u8], x: Cursor, given: &Arguments<'_>, out: &mut [u8; 512]) -> Option<usize>
    ensures { WholeSays field.now x.at given.now out.new result }
{
    let mut writer = Writer {
        out,
        at: 0,
        left: NODES,
    };
    writer.subst_type(field, x, given)?;
    Some(writer.at)
}

// The type at x, from the first of the lent bytes on, and where it ends there; none if it has more than 32 nodes.
pub fn copy(field: &[u8], x: Cursor, out: &mut [u8; 512]) -> Option<usize>
    ensures { CopiedSays field.now x.at out.new result }
{
    let mut writer = Writer {
        out,
        at: 0,
        left: NODES,
    };
    writer.put_type(field, x, x)?;
    Some(writer.at)
}
