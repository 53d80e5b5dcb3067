#![tactic(auto)]
// The parts of a job, as the record's bytes hold them, and the cursor that reads them.
mod actions;
mod items;
pub mod refusal;
mod rows;
mod structs;
mod types;

pub use refusal::Refusal;

#[derive(Clone, Copy, PartialEq, Eq)]
pub struct Variable(pub u8);

#[derive(Clone, Copy, PartialEq, Eq)]
pub struct RegionName(pub u8);

#[derive(Clone, Copy, PartialEq, Eq)]
pub struct StructName(pub u8);

#[derive(Clone, Copy, PartialEq, Eq)]
pub struct FieldName(pub u8);

#[derive(Clone, Copy, PartialEq, Eq)]
pub struct BasicBlockIndex(pub u8);

#[derive(Clone, Copy, PartialEq, Eq)]
pub enum BorrowKind {
    Mut,
    Shared,
}

#[derive(Clone, Copy, PartialEq, Eq)]
pub enum Variance {
    Co,
    Contra,
    In,
}

#[derive(Clone, Copy, PartialEq, Eq)]
pub enum Kind {
    Region,
    Type,
}

// A region in a type: a name, or a parameter of the struct around it by its bound index.
#[derive(Clone, Copy, PartialEq, Eq)]
pub enum Region {
    Free(RegionName),
    Bound(u8),
}

#[derive(Clone, Copy)]
pub struct StructParameter {
    pub variance: Variance,
    pub may_dangle: bool,
    pub kind: Kind,
}

// A variable and the steps from it: so many field numbers, from a place of the record on.
#[derive(Clone, Copy)]
pub struct Path {
    pub base: Variable,
    pub steps: u8,
    pub from: Cursor,
}

// A place of the record.
#[derive(Clone, Copy)]
pub struct Cursor {
    pub at: usize,
}

// An action. An Init says how many sources it has, which follow it.
#[derive(Clone, Copy)]
pub enum Action {
    Noop,
    Init {
        dest: Path,
        count: u8,
    },
    Borrow {
        dest: Path,
        region: RegionName,
        kind: BorrowKind,
        source: Path,
    },
    Assign {
        dest: Path,
        source: Path,
    },
    Constraint {
        sup: RegionName,
        sub: RegionName,
    },
    Use(Path),
    Drop(Path),
    StorageDead(Variable),
}

// So many parts of a kind, one after the other from a place on.
#[derive(Clone, Copy)]
pub struct Row {
    pub from: Cursor,
    pub count: u8,
}

// A struct's parameters and fields.
#[derive(Clone, Copy)]
pub struct StructDecl {
    pub parameters: Row,
    pub fields: Row,
}

// A block's successors and actions.
#[derive(Clone, Copy)]
pub struct BasicBlockData {
    pub successors: Row,
    pub actions: Row,
}

// ---- What reading at a cursor gives

// What was read, with the next cursor.
pub type Reading<T> = Result<(T, Cursor), Refusal>;

// A type's first node, with where its parts begin, or where the type ends if it has none.
#[derive(Clone, Copy)]
pub enum Node {
    Unit(Cursor),
    Ref {
        kind: BorrowKind,
        region: Region,
        referent: Cursor,
    },
    Struct {
        name: StructName,
        arguments: Row,
    },
    Bound(u8, Cursor),
}

// An argument of a struct: a region with the next cursor, or where a type begins.
#[derive(Clone, Copy)]
pub enum Argument {
    Region(Region, Cursor),
    Type(Cursor),
}

// A part of a type up to so many arguments that are to be read yet, with how many more nodes the type may have.
#[derive(Clone, Copy)]
struct Opened {
    count: u8,
    left: u8,
    next: Cursor,
}

// The end of a part of a type, with how many more nodes the type may have.
#[derive(Clone, Copy)]
pub struct Rest {
    pub left: u8,
    pub next: Cursor,
}
