// The items that hold no other: bytes, counts, choices, regions, parameters, paths.
ghost use Rattle.std.specs.Prelude.{◌≡◌, drop};
ghost use Rattle.nll_spec.specs.Decode.{byte, count, items, borrow_kind, variance, flag, kind, param, region, path};
ghost use Rattle.repr.specs.Reading.{says, itself, borrow_kind_of, variance_of, kind_of, parameter_of, region_of, path_of, bytes_say};

use super::{
    BorrowKind, Cursor, Kind, Path, Reading, Refusal, Region, RegionName, StructParameter,
    Variable, Variance,
};

#[tactic(auto, using(crate::proofs::ReadLaws::step, crate::proofs::ReadLaws::stop, crate::proofs::ReadLaws::byte_at, crate::proofs::ReadLaws::byte_past, crate::proofs::ReadLaws::count_low, crate::proofs::ReadLaws::count_high, crate::proofs::ReadLaws::count_in, crate::proofs::ReadLaws::row_at, crate::proofs::ReadLaws::row_short), unfolding(nll_spec::specs::Decode::one_of, nll_spec::specs::Decode::param, nll_spec::specs::Decode::region, nll_spec::specs::Decode::path, nll_spec::specs::Decode::done))]
impl Cursor {
    pub fn byte(self, s: &[u8]) -> Reading<u8>
        ensures { says itself s.now result ≡ byte (drop self.at s.now) }
    {
        let at = self.at;
        if at < s.len() {
            Ok((s[at], Cursor { at: at + 1 }))
        } else {
            Err(Refusal::Form)
        }
    }

    // A count from low to high.
    #[tactic(auto, using(crate::proofs::ReadLaws::step, crate::proofs::ReadLaws::stop, crate::proofs::ReadLaws::count_low, crate::proofs::ReadLaws::count_high, crate::proofs::ReadLaws::count_in), unfolding(nll_spec::specs::Decode::count, nll_spec::specs::Decode::done, nll_spec::specs::Decode::refuse))]
    pub fn count(self, s: &[u8], low: u8, high: u8) -> Reading<u8>
        ensures { says itself s.now result ≡ count low high (drop self.at s.now) }
    {
        let (n, next) = self.byte(s)?;
        if low <= n && n <= high {
            Ok((n, next))
        } else {
            Err(Refusal::Range)
        }
    }

    // A parameter of a struct: variance, may_dangle, kind.
    pub fn parameter(self, s: &[u8]) -> Reading<StructParameter>
        ensures { says parameter_of s.now result ≡ param (drop self.at s.now) }
    {
        let (variance, dangle) = self.variance(s)?;
        let (may_dangle, last) = dangle.flag(s)?;
        let (kind, next) = last.kind(s)?;
        Ok((
            StructParameter {
                variance,
                may_dangle,
                kind,
            },
            next,
        ))
    }

    // A region in a type: 0 with a name, or 1 with a bound index.
    pub fn region(self, s: &[u8]) -> Reading<Region>
        ensures { says region_of s.now result ≡ region (drop self.at s.now) }
    {
        let (tag, number) = self.byte(s)?;
        match tag {
            0 => {
                let (name, next) = number.byte(s)?;
                Ok((Region::Free(RegionName(name)), next))
            }
            1 => {
                let (bound, next) = number.byte(s)?;
                Ok((Region::Bound(bound), next))
            }
            _ => Err(Refusal::Form),
        }
    }

    // So many bytes, passed over.
    pub fn bytes(self, s: &[u8], n: u8) -> Result<Cursor, Refusal>
        ensures { bytes_say s.now self n result ≡ items n byte (drop self.at s.now) }
    {
        let many = usize::from(n);
        if s.len().saturating_sub(self.at) < many {
            Err(Refusal::Form)
        } else {
            Ok(Cursor { at: self.at + many })
        }
    }

    // A path: step count, variable, field numbers.
    pub fn path(self, s: &[u8]) -> Reading<Path>
        ensures { says (path_of s.now) s.now result ≡ path (drop self.at s.now) }
    {
        let (steps, next) = self.count(s, 0, 6)?;
        let (v, from) = next.byte(s)?;
        let end = from.bytes(s, steps)?;
        let base = Variable(v);
        Ok((Path { base, steps, from }, end))
    }
}

// Choices: a tag, and nothing after it.
#[tactic(auto, using(crate::proofs::ReadLaws::picked_0, crate::proofs::ReadLaws::picked_1, crate::proofs::ReadLaws::picked_2, crate::proofs::ReadLaws::unknown, crate::proofs::ReadLaws::untagged), unfolding(nll_spec::specs::Decode::borrow_kind, nll_spec::specs::Decode::variance, nll_spec::specs::Decode::flag, nll_spec::specs::Decode::kind, nll_spec::specs::Decode::done))]
impl Cursor {
    pub fn borrow_kind(self, s: &[u8]) -> Reading<BorrowKind>
        ensures { says borrow_kind_of s.now result ≡ borrow_kind (drop self.at s.now) }
    {
        let (tag, next) = self.byte(s)?;
        match tag {
            0 => Ok((BorrowKind::Mut, next)),
            1 => Ok((BorrowKind::Shared, next)),
            _ => Err(Refusal::Form),
        }
    }

    pub fn variance(self, s: &[u8]) -> Reading<Variance>
        ensures { says variance_of s.now result ≡ variance (drop self.at s.now) }
    {
        let (tag, next) = self.byte(s)?;
        match tag {
            0 => Ok((Variance::Co, next)),
            1 => Ok((Variance::Contra, next)),
            2 => Ok((Variance::In, next)),
            _ => Err(Refusal::Form),
        }
    }

    pub fn flag(self, s: &[u8]) -> Reading<bool>
        ensures { says itself s.now result ≡ flag (drop self.at s.now) }
    {
        let (tag, next) = self.byte(s)?;
        match tag {
            0 => Ok((false, next)),
            1 => Ok((true, next)),
            _ => Err(Refusal::Form),
        }
    }

    pub fn kind(self, s: &[u8]) -> Reading<Kind>
        ensures { says kind_of s.now result ≡ kind (drop self.at s.now) }
    {
        let (tag, next) = self.byte(s)?;
        match tag {
            0 => Ok((Kind::Region, next)),
            1 => Ok((Kind::Type, next)),
            _ => Err(Refusal::Form),
        }
    }
}
