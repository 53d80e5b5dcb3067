// Types: a node with where its parts begin, and the end of a whole type.
ghost use Rattle.std.specs.Prelude.{◌≡◌, drop};
ghost use Rattle.nll_spec.specs.Decode.{type};
ghost use Rattle.repr.specs.Reading.{ended, end_says};
ghost use Rattle.repr.specs.Types.{node, ref_node, struct_node, bound_node, NodeSays, ArgumentSays, OpenedSays, FirstSays, TypeSays, ArgumentsSay};

use super::{Argument, Cursor, Node, Opened, Refusal, Rest, Row, StructName};

impl Cursor {
    #[tactic(auto, using(crate::proofs::ReadLaws::step, crate::proofs::ReadLaws::stop), unfolding(crate::specs::Types::ref_node))]
    // What stands between a Ref's tag and its referent: kind and region.
    fn ref_node(self, s: &[u8]) -> Result<Node, Refusal>
        ensures { NodeSays ref_node s.now self.at result }
    {
        let (kind, name) = self.borrow_kind(s)?;
        let (region, referent) = name.region(s)?;
        Ok(Node::Ref {
            kind,
            region,
            referent,
        })
    }

    #[tactic(auto, using(crate::proofs::ReadLaws::step, crate::proofs::ReadLaws::stop), unfolding(crate::specs::Types::struct_node))]
    // What stands between a Struct's tag and its arguments: number and argument count.
    fn struct_node(self, s: &[u8]) -> Result<Node, Refusal>
        ensures { NodeSays struct_node s.now self.at result }
    {
        let (n, next) = self.byte(s)?;
        let (count, from) = next.count(s, 0, 4)?;
        let name = StructName(n);
        let arguments = Row { from, count };
        Ok(Node::Struct { name, arguments })
    }

    // What follows a Bound's tag: its index.
    #[tactic(auto, using(crate::proofs::ReadLaws::step, crate::proofs::ReadLaws::stop), unfolding(crate::specs::Types::bound_node, nll_spec::specs::Decode::done))]
    fn bound_node(self, s: &[u8]) -> Result<Node, Refusal>
        ensures { NodeSays bound_node s.now self.at result }
    {
        let (index, next) = self.byte(s)?;
        Ok(Node::Bound(index, next))
    }

    #[tactic(auto, using(crate::proofs::ReadLaws::step, crate::proofs::ReadLaws::stop), unfolding(crate::specs::Types::node, nll_spec::specs::Decode::tagged, nll_spec::specs::Decode::one_of, nll_spec::specs::Decode::done))]
    // The first node of a type.
    pub fn type_node(self, s: &[u8]) -> Result<Node, Refusal>
        ensures { NodeSays node s.now self.at result }
    {
        let (tag, next) = self.byte(s)?;
        match tag {
            0 => Ok(Node::Unit(next)),
            1 => next.ref_node(s),
            2 => next.struct_node(s),
            3 => next.bound_node(s),
            _ => Err(Refusal::Form),
        }
    }

    // The first of a struct's arguments: 0 with a region, or 1 with a type.
    pub fn argument(self, s: &[u8]) -> Result<Argument, Refusal>
        ensures { ArgumentSays s.now self.at result }
    {
        let (tag, next) = self.byte(s)?;
        match tag {
            0 => {
                let (region, after) = next.region(s)?;
                Ok(Argument::Region(region, after))
            }
            1 => Ok(Argument::Type(next)),
            _ => Err(Refusal::Form),
        }
    }

    // A type of at most `left` nodes, up to the arguments of its first node that is no Ref, or to its end. The node too many is refused at its tag.
    fn opened(self, s: &[u8], left: u8) -> Result<Opened, Refusal>
        ensures { OpenedSays s.now self.at left result }
    {
        let mut c = self;
        for few in (0..left).rev() {
            match c.type_node(s)? {
                Node::Ref { referent, .. } => c = referent,
                Node::Unit(next) | Node::Bound(_, next) => {
                    return Ok(Opened {
                        count: 0,
                        left: few,
                        next,
                    });
                }
                Node::Struct { arguments, .. } => {
                    return Ok(Opened {
                        count: arguments.count,
                        left: few,
                        next: arguments.from,
                    });
                }
            }
        }
        c.byte(s)?;
        Err(Refusal::Range)
    }

    // The first of a struct's arguments, a type no further than `opened`.
    fn first_argument(self, s: &[u8], left: u8) -> Result<Opened, Refusal>
        ensures { FirstSays s.now self.at left result }
    {
        match self.argument(s)? {
            Argument::Region(_, next) => Ok(Opened {
                count: 0,
                left,
                next,
            }),
            Argument::Type(ty) => ty.opened(s, left),
        }
    }

    // So many arguments of a struct, of at most `left` nodes together.
    pub fn arguments(self, s: &[u8], count: u8, left: u8) -> Result<Rest, Refusal>
        ensures { ArgumentsSay s.now self.at count left result }
    {
        let mut rest = Rest { left, next: self };
        let mut n = usize::from(count);
        while n != 0 {
            let first = rest.next.first_argument(s, rest.left)?;
            n = n - 1 + usize::from(first.count);
            rest = Rest {
                left: first.left,
                next: first.next,
            };
        }
        Ok(rest)
    }

    // A type of at most `left` nodes.
    pub fn nodes(self, s: &[u8], left: u8) -> Result<Rest, Refusal>
        ensures { TypeSays s.now self.at left result }
    {
        let first = self.opened(s, left)?;
        first.next.arguments(s, first.count, first.left)
    }

    // A whole type: at most 32 nodes.
    pub fn ty(self, s: &[u8]) -> Result<Cursor, Refusal>
        ensures { end_says s.now result ≡ ended (type (drop self.at s.now)) }
    {
        Ok(self.nodes(s, 32)?.next)
    }
}
