// Structs: parameters and fields.
ghost use Rattle.std.specs.Prelude.{◌≡◌, drop};
ghost use Rattle.nll_spec.specs.Decode.{items, param, field, struct_decl};
ghost use Rattle.repr.specs.Reading.{ended, end_says};
ghost use Rattle.repr.specs.Parts.{field_says, StructSays};

use super::{Cursor, FieldName, Reading, Refusal, Row, StructDecl};

#[tactic(auto, using(crate::proofs::ReadLaws::step, crate::proofs::ReadLaws::stop, crate::proofs::PartLaws::counted_step, crate::proofs::PartLaws::counted_stop), unfolding(nll_spec::specs::Decode::field, nll_spec::specs::Decode::struct_decl, nll_spec::specs::Decode::done, crate::specs::Parts::struct_of))]
impl Cursor {
    // So many parameters.
    pub fn parameters(self, s: &[u8], count: u8) -> Result<Cursor, Refusal>
        ensures { end_says s.now result ≡ ended (items count param (drop self.at s.now)) }
    {
        self.each(count, |c| Ok(c.parameter(s)?.1))
    }

    // A field: its number, and where its type begins.
    pub fn field(self, s: &[u8]) -> Reading<FieldName>
        ensures { field_says s.now result ≡ field (drop self.at s.now) }
    {
        let (n, ty) = self.byte(s)?;
        Ok((FieldName(n), ty))
    }

    // So many fields.
    pub fn fields(self, s: &[u8], count: u8) -> Result<Cursor, Refusal>
        ensures { end_says s.now result ≡ ended (items count field (drop self.at s.now)) }
    {
        let field_end = |c: Cursor|
            ensures { end_says s.entry.now result ≡ ended (field (drop c.at s.entry.now)) }
        {
            let (_, ty) = c.field(s)?;
            ty.ty(s)
        };
        self.each(count, field_end)
    }

    // A struct: its parameters are read, its fields only counted.
    pub fn struct_decl(self, s: &[u8]) -> Result<StructDecl, Refusal>
        ensures { StructSays s.now self.at result }
    {
        let (count, from) = self.count(s, 0, 4)?;
        let parameters = Row { from, count };
        let end = from.parameters(s, count)?;
        let (count, from) = end.count(s, 0, 8)?;
        let fields = Row { from, count };
        Ok(StructDecl { parameters, fields })
    }

    // Where a struct ends.
    pub fn struct_end(self, s: &[u8]) -> Result<Cursor, Refusal>
        ensures { end_says s.now result ≡ ended (struct_decl (drop self.at s.now)) }
    {
        let d = self.struct_decl(s)?;
        d.fields.from.fields(s, d.fields.count)
    }
}
