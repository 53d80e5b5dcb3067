// Where a part of a job that was read lies, by its number. A number that names nothing is at 0.
ghost use Rattle.std.specs.Prelude.{◌≡◌, ◌<◌, get_or};
ghost use Rattle.nll_spec.specs.Syntax.{Job};
ghost use Rattle.nll_spec.specs.Decode.{code_count};
ghost use Rattle.nll_spec.specs.Types.{struct_of};
ghost use Rattle.nll_spec.specs.Graph.{graph_of, action_at};
ghost use Rattle.record.specs.Layout.{Holds};
ghost use Rattle.record.specs.Access.{point_of, Declared, Acts, kind_of_tag, kind_of};

use super::{ActionKind, END, Record};
use entries::get_or;
use repr::{
    Action, BasicBlockIndex, Cursor, Reading, RegionName, Row, StructDecl, StructName, Variable,
};

// What an action does, by the byte that it begins with. A byte that begins none counts as Noop; a record that was read has none there.
fn kind(tag: u8) -> ActionKind
    ensures { result ≡ kind_of_tag tag }
{
    match tag {
        1 => ActionKind::Init,
        2 => ActionKind::Borrow,
        3 => ActionKind::Assign,
        4 => ActionKind::Constraint,
        5 => ActionKind::Use,
        6 => ActionKind::Drop,
        7 => ActionKind::StorageDead,
        _ => ActionKind::Noop,
    }
}

// Where the part of entry i lies.
fn place(entries: &[u16], i: u8) -> Cursor
    ensures { result.at ≡ get_or entries.now i 0 }
{
    let at = usize::from(get_or(entries, usize::from(i), 0));
    Cursor { at }
}

impl<'a> Record<'a> {
    pub fn struct_at(&self, name: StructName) -> Cursor
        ensures { result.at ≡ get_or self.now.layout.now.structs name.0 0 }
    {
        place(&self.layout.structs, name.0)
    }

    pub fn outlives_at(&self, name: RegionName) -> Cursor
        ensures { result.at ≡ get_or self.now.layout.now.outlives name.0 0 }
    {
        place(&self.layout.outlives, name.0)
    }

    pub fn variable_at(&self, v: Variable) -> Cursor
        ensures { result.at ≡ get_or self.now.layout.now.variables v.0 0 }
    {
        place(&self.layout.variables, v.0)
    }

    pub fn block_at(&self, b: BasicBlockIndex) -> Cursor
        ensures { result.at ≡ get_or self.now.layout.now.blocks b.0 0 }
    {
        place(&self.layout.blocks, b.0)
    }

    // The first point of a block.
    pub fn first_point(&self, b: BasicBlockIndex) -> u16
        ensures { result ≡ get_or self.now.layout.now.first b.0 0 }
    {
        get_or(&self.layout.first, usize::from(b.0), 0)
    }

    // Where the action of a point of the blocks lies; none at a block's end. A point that has no entry is at 0.
    pub fn point_at(&self, p: usize) -> Option<Cursor>
        ensures { result ≡ point_of (get_or self.now.layout.now.points p 0) }
    {
        match get_or(&self.layout.points, p, 0) {
            END => None,
            at => Some(Cursor {
                at: usize::from(at),
            }),
        }
    }

    // The struct of a name. One that is not there has no parameters and no fields.
    pub fn struct_decl_at(&self, name: StructName) -> StructDecl
        ensures { (j : Job) → Holds self.now j → Declared self.now.bytes.now (struct_of j.structs name.0) result }
    {
        let at = self.struct_at(name);
        let row = Row { from: at, count: 0 };
        let none = StructDecl {
            parameters: row,
            fields: row,
        };
        if self.head.structs <= name.0 {
            return none;
        }
        match at.struct_decl(self.bytes) {
            Ok(d) => d,
            Err(_) => none,
        }
    }

    // The action of a point of the blocks; a block's end does nothing, as Noop does. An Init's sources stand at the cursor that comes with it.
    pub fn action_at(&self, p: usize) -> Reading<Action>
        ensures { (j : Job) → Holds self.now j → p < code_count j.blocks → Acts self.now.bytes.now (action_at (graph_of j) p) result }
    {
        match self.point_at(p) {
            Some(c) => c.action(self.bytes),
            None => Ok((Action::Noop, Cursor { at: 0 })),
        }
    }

    // What the action of a point of the blocks does, by its first byte alone; a block's end does nothing, as Noop does.
    pub fn kind_at(&self, p: usize) -> ActionKind
        ensures { (j : Job) → Holds self.now j → p < code_count j.blocks → result ≡ kind_of (action_at (graph_of j) p) }
    {
        let Some(c) = self.point_at(p) else {
            return ActionKind::Noop;
        };
        match c.byte(self.bytes) {
            Ok((tag, _)) => kind(tag),
            Err(_) => ActionKind::Noop,
        }
    }
}
