// The type of a struct's field.
ghost use Rattle.env.specs.Fields.{FieldSays};

use repr::{Cursor, FieldName, StructDecl};

// Where the type of the first field with this number lies.
pub fn field_type(s: &[u8], d: StructDecl, f: FieldName) -> Option<Cursor>
    ensures { FieldSays s.now d f.0 result }
{
    let mut c = d.fields.from;
    for _ in 0..d.fields.count {
        let (number, ty) = c.field(s).ok()?;
        if number == f {
            return Some(ty);
        }
        c = ty.ty(s).ok()?;
    }
    None
}
