// Refusal 7 of a type: arguments fit the parameters of the struct that is named, and bounds those of the struct around.
ghost use Rattle.std.specs.Prelude.{◌≡◌, List, ◌&&◌};
ghost use Rattle.nll_spec.specs.Syntax.{Param, Job};
ghost use Rattle.nll_spec.specs.Decode.{type, field};
ghost use Rattle.nll_spec.specs.WellFormed.{bound_fits, region_fits, type_fits, is_region_kind};
ghost use Rattle.repr.specs.Reading.{kind_of, region_of};
ghost use Rattle.refusals.specs.Tests.{Passes};
ghost use Rattle.refusals.specs.Fits.{kind_test, ParamsAt, Within, TypeFit, ArgumentsFit, field_fits};

use record::Record;
use repr::{Argument, Cursor, Kind, Node, Refusal, Region, Rest, Row};

// A record, and the parameters of the struct around the types that are tested.
#[derive(Clone, Copy)]
pub struct Around<'a> {
    pub input: &'a Record<'a>,
    pub params: Row,
}

impl Around<'_> {
    // Whether a bound index means a parameter of this kind, of those around.
    fn bound_fits(&self, b: u8, wanted: Kind) -> bool
        ensures { (ps : List Param) → ParamsAt self.now ps → result ≡ bound_fits (kind_test (kind_of wanted)) ps b }
    {
        let s = self.input.bytes;
        let params = self.params;
        if params.count <= b {
            return false;
        }
        let Ok(c) = params.from.parameters(s, params.count - 1 - b) else {
            return false;
        };
        match c.parameter(s) {
            Ok((p, _)) => p.kind == wanted,
            Err(_) => false,
        }
    }

    fn region_fits(&self, region: Region) -> bool
        ensures { (ps : List Param) → ParamsAt self.now ps → result ≡ region_fits ps (region_of region) }
    {
        match region {
            Region::Free(_) => true,
            Region::Bound(b) => self.bound_fits(b, Kind::Region),
        }
    }

    // Whether a region fits as an argument for a parameter of this kind.
    fn argument_fits(&self, kind: Kind, region: Region) -> bool
        ensures { (ps : List Param) → ParamsAt self.now ps → result ≡ is_region_kind (kind_of kind) && region_fits ps (region_of region) }
    {
        kind == Kind::Region && self.region_fits(region)
    }

    // Where a type of at most `left` nodes ends, if its arguments and bounds fit.
    #[cycle(arguments_fit_type_fits)]
    fn type_fits(&self, c: Cursor, left: u8) -> Result<Rest, Refusal>
        ensures { TypeFit self.now c.at left result }
    {
        if left == 0 {
            return Err(Refusal::Arguments);
        }
        let left = left - 1;
        match c.type_node(self.input.bytes)? {
            Node::Unit(next) => Ok(Rest { left, next }),
            Node::Bound(b, next) => {
                if !self.bound_fits(b, Kind::Type) {
                    return Err(Refusal::Arguments);
                }
                Ok(Rest { left, next })
            }
            Node::Ref {
                region,
                referent,
                ..
            } => {
                if !self.region_fits(region) {
                    return Err(Refusal::Arguments);
                }
                self.type_fits(referent, left)
            }
            Node::Struct { name, arguments } => {
                let named = self.input.struct_decl_at(name);
                if named.parameters.count != arguments.count {
                    return Err(Refusal::Arguments);
                }
                self.arguments_fit(arguments.from, left, named.parameters)
            }
        }
    }

    // The same of as many arguments as there are parameters, of at most `left` nodes together.
    #[cycle(arguments_fit_type_fits)]
    fn arguments_fit(&self, from: Cursor, left: u8, of: Row) -> Result<Rest, Refusal>
        ensures { ArgumentsFit self.now of.from from.at of.count left result }
    {
        let mut rest = Rest { left, next: from };
        let mut declared = of.from;
        for _ in 0..of.count {
            let (p, others) = declared.parameter(self.input.bytes)?;
            match rest.next.argument(self.input.bytes)? {
                Argument::Region(region, next) => {
                    if !self.argument_fits(p.kind, region) {
                        return Err(Refusal::Arguments);
                    }
                    rest.next = next;
                }
                Argument::Type(ty) => {
                    if p.kind != Kind::Type {
                        return Err(Refusal::Arguments);
                    }
                    rest = self.type_fits(ty, rest.left)?;
                }
            }
            declared = others;
        }
        Ok(rest)
    }

    // The same of a whole type.
    pub fn ty_fits(&self, c: Cursor) -> Result<Cursor, Refusal>
        ensures { (j : Job) (ps : List Param) → Within self.now j ps → Passes type (type_fits j.structs ps) self.now.input.now.bytes.now c.at result }
    {
        Ok(self.type_fits(c, 32)?.next)
    }

    // The same of a field.
    pub fn field_fits(&self, c: Cursor) -> Result<Cursor, Refusal>
        ensures { (j : Job) (ps : List Param) → Within self.now j ps → Passes field (field_fits j ps) self.now.input.now.bytes.now c.at result }
    {
        let (_, ty) = c.field(self.input.bytes)?;
        self.ty_fits(ty)
    }
}
