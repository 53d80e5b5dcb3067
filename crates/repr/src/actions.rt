// Actions and blocks.
ghost use Rattle.std.specs.Prelude.{◌≡◌, drop};
ghost use Rattle.nll_spec.specs.Decode.{items, path, action, block};
ghost use Rattle.repr.specs.Reading.{ended, end_says};
ghost use Rattle.repr.specs.Parts.{
  init_action,
  borrow_action,
  assign_action,
  constraint_action,
  use_action,
  drop_action,
  dead_action,
  action_says,
  sources_of,
  loans_of,
  block_says,
};

use super::{Action, BasicBlockData, Cursor, Reading, Refusal, RegionName, Row, Variable};

impl Action {
    // How many sources follow it: those of an Init.
    pub fn sources(self) -> u8
        ensures { result ≡ sources_of self }
    {
        match self {
            Action::Init { count, .. } => count,
            _ => 0,
        }
    }

    // How many loans it makes: 1 for a Borrow.
    pub fn loans(self) -> usize
        ensures { result ≡ loans_of self }
    {
        match self {
            Action::Borrow { .. } => 1,
            _ => 0,
        }
    }
}

#[tactic(auto, using(crate::proofs::ReadLaws::step, crate::proofs::ReadLaws::stop, crate::proofs::PartLaws::counted_step, crate::proofs::PartLaws::counted_stop), unfolding(nll_spec::specs::Decode::one_of, nll_spec::specs::Decode::action, nll_spec::specs::Decode::block, nll_spec::specs::Decode::done, crate::specs::Parts::init_action, crate::specs::Parts::borrow_action, crate::specs::Parts::assign_action, crate::specs::Parts::constraint_action, crate::specs::Parts::use_action, crate::specs::Parts::drop_action, crate::specs::Parts::dead_action, crate::specs::Parts::block_of))]
impl Cursor {
    // So many paths.
    pub fn paths(self, s: &[u8], count: u8) -> Result<Cursor, Refusal>
        ensures { end_says s.now result ≡ ended (items count path (drop self.at s.now)) }
    {
        self.each(count, |c| Ok(c.path(s)?.1))
    }

    fn init_action(self, s: &[u8]) -> Reading<Action>
        ensures { action_says s.now result ≡ init_action (drop self.at s.now) }
    {
        let (dest, next) = self.path(s)?;
        let (count, sources) = next.count(s, 0, 8)?;
        Ok((Action::Init { dest, count }, sources))
    }

    fn borrow_action(self, s: &[u8]) -> Reading<Action>
        ensures { action_says s.now result ≡ borrow_action (drop self.at s.now) }
    {
        let (dest, name) = self.path(s)?;
        let (r, which) = name.byte(s)?;
        let (kind, of) = which.borrow_kind(s)?;
        let (source, end) = of.path(s)?;
        let region = RegionName(r);
        let action = Action::Borrow {
            dest,
            region,
            kind,
            source,
        };
        Ok((action, end))
    }

    fn assign_action(self, s: &[u8]) -> Reading<Action>
        ensures { action_says s.now result ≡ assign_action (drop self.at s.now) }
    {
        let (dest, next) = self.path(s)?;
        let (source, end) = next.path(s)?;
        Ok((Action::Assign { dest, source }, end))
    }

    fn constraint_action(self, s: &[u8]) -> Reading<Action>
        ensures { action_says s.now result ≡ constraint_action (drop self.at s.now) }
    {
        let (a, next) = self.byte(s)?;
        let (b, end) = next.byte(s)?;
        let sup = RegionName(a);
        let sub = RegionName(b);
        Ok((Action::Constraint { sup, sub }, end))
    }

    fn use_action(self, s: &[u8]) -> Reading<Action>
        ensures { action_says s.now result ≡ use_action (drop self.at s.now) }
    {
        let (p, end) = self.path(s)?;
        Ok((Action::Use(p), end))
    }

    fn drop_action(self, s: &[u8]) -> Reading<Action>
        ensures { action_says s.now result ≡ drop_action (drop self.at s.now) }
    {
        let (p, end) = self.path(s)?;
        Ok((Action::Drop(p), end))
    }

    fn dead_action(self, s: &[u8]) -> Reading<Action>
        ensures { action_says s.now result ≡ dead_action (drop self.at s.now) }
    {
        let (v, end) = self.byte(s)?;
        Ok((Action::StorageDead(Variable(v)), end))
    }

    // An action; the sources of an Init are only counted.
    pub fn action(self, s: &[u8]) -> Reading<Action>
        ensures { action_says s.now result ≡ action (drop self.at s.now) }
    {
        let (tag, next) = self.byte(s)?;
        match tag {
            0 => Ok((Action::Noop, next)),
            1 => next.init_action(s),
            2 => next.borrow_action(s),
            3 => next.assign_action(s),
            4 => next.constraint_action(s),
            5 => next.use_action(s),
            6 => next.drop_action(s),
            7 => next.dead_action(s),
            _ => Err(Refusal::Form),
        }
    }

    // A block: its successors are read, its actions only counted.
    pub fn block(self, s: &[u8]) -> Result<BasicBlockData, Refusal>
        ensures { block_says s.now result ≡ block (drop self.at s.now) }
    {
        let (count, from) = self.count(s, 0, 8)?;
        let successors = Row { from, count };
        let end = from.bytes(s, count)?;
        let (count, from) = end.count(s, 0, 64)?;
        let actions = Row { from, count };
        Ok(BasicBlockData {
            successors,
            actions,
        })
    }
}
