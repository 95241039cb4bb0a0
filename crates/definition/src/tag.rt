// The tags of a tree file's fields.
ghost use Rattle.definition.specs.Numbers.{TagNumber, TagOf};

#[derive(Clone, Copy, PartialEq, Eq)]
pub enum Tag {
    // Types
    Name = 0x10,
    Void = 0x11,
    Pointer = 0x12,
    Array = 0x13,
    Struct = 0x14,
    NamedType = 0x15,

    // Expressions
    Identifier = 0x20,
    Integer = 0x21,
    Boolean = 0x22,
    String = 0x23,
    Call = 0x24,
    Index = 0x25,
    Cast = 0x26,
    PointerTake = 0x27,
    PointerDereference = 0x28,
    FieldAccess = 0x29,
    BitwiseNot = 0x2A,
    BooleanNot = 0x2B,
    BooleanAnd = 0x2C,
    ArithmeticBinOp = 0x2D,
    ComparisonBinOp = 0x2E,
    Sizeof = 0x2F,

    // Compounds, and the initial value of a declaration
    CompoundArray = 0x30,
    CompoundStruct = 0x31,
    CompoundField = 0x32,
    NoValue = 0x33,
    AssignedValue = 0x34,
    CompoundValue = 0x35,

    // Statements
    Block = 0x40,
    Expression = 0x41,
    VariableDeclaration = 0x42,
    Assignment = 0x43,
    CompoundAssignment = 0x44,
    Return = 0x45,
    Loop = 0x46,
    While = 0x47,
    Break = 0x48,
    If = 0x49,
    InlineAssembly = 0x4A,

    // Items, and the module
    FunctionDefinition = 0x50,
    TypeAlias = 0x51,
    Use = 0x52,
    TopLevelVariable = 0x53,
    TopLevelAssembly = 0x54,
    Module = 0x5F,

    // Errors
    ReportedError = 0x60,
    FullError = 0x61,
    TokenError = 0x62,
}

impl From<Tag> for u8 {
    ghost from_gives = { TagNumber };

    fn from(tag: Tag) -> u8 {
        tag as u8
    }
}

// A number that no tag has.
#[derive(Clone, Copy, PartialEq, Eq)]
pub struct NoTag(pub u8);

impl TryFrom<u8> for Tag {
    type Error = NoTag;

    ghost try_from_gives = { TagOf };

    fn try_from(number: u8) -> Result<Self, NoTag> {
        match number {
            0x10 => Ok(Tag::Name),
            0x11 => Ok(Tag::Void),
            0x12 => Ok(Tag::Pointer),
            0x13 => Ok(Tag::Array),
            0x14 => Ok(Tag::Struct),
            0x15 => Ok(Tag::NamedType),
            0x20 => Ok(Tag::Identifier),
            0x21 => Ok(Tag::Integer),
            0x22 => Ok(Tag::Boolean),
            0x23 => Ok(Tag::String),
            0x24 => Ok(Tag::Call),
            0x25 => Ok(Tag::Index),
            0x26 => Ok(Tag::Cast),
            0x27 => Ok(Tag::PointerTake),
            0x28 => Ok(Tag::PointerDereference),
            0x29 => Ok(Tag::FieldAccess),
            0x2A => Ok(Tag::BitwiseNot),
            0x2B => Ok(Tag::BooleanNot),
            0x2C => Ok(Tag::BooleanAnd),
            0x2D => Ok(Tag::ArithmeticBinOp),
            0x2E => Ok(Tag::ComparisonBinOp),
            0x2F => Ok(Tag::Sizeof),
            0x30 => Ok(Tag::CompoundArray),
            0x31 => Ok(Tag::CompoundStruct),
            0x32 => Ok(Tag::CompoundField),
            0x33 => Ok(Tag::NoValue),
            0x34 => Ok(Tag::AssignedValue),
            0x35 => Ok(Tag::CompoundValue),
            0x40 => Ok(Tag::Block),
            0x41 => Ok(Tag::Expression),
            0x42 => Ok(Tag::VariableDeclaration),
            0x43 => Ok(Tag::Assignment),
            0x44 => Ok(Tag::CompoundAssignment),
            0x45 => Ok(Tag::Return),
            0x46 => Ok(Tag::Loop),
            0x47 => Ok(Tag::While),
            0x48 => Ok(Tag::Break),
            0x49 => Ok(Tag::If),
            0x4A => Ok(Tag::InlineAssembly),
            0x50 => Ok(Tag::FunctionDefinition),
            0x51 => Ok(Tag::TypeAlias),
            0x52 => Ok(Tag::Use),
            0x53 => Ok(Tag::TopLevelVariable),
            0x54 => Ok(Tag::TopLevelAssembly),
            0x5F => Ok(Tag::Module),
            0x60 => Ok(Tag::ReportedError),
            0x61 => Ok(Tag::FullError),
            0x62 => Ok(Tag::TokenError),
            _ => Err(NoTag(number)),
        }
    }
}
