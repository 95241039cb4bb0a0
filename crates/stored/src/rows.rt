// The table of tags (docs/FORMAT.md, Records by tag and Error fields): the parts of a body, and the role of its field.
ghost use Rattle.stored.specs.Table.{row_of};
ghost use Rattle.stored.specs.Parts.{RoleBy, RoleOf};

use crate::body::{Body, start};
use crate::nodes::Children::{Empty, Function, Many, One, OneAndMany, Two};
use crate::nodes::Role;
use crate::nodes::kind::{
    COMPOUND, COMPOUND_FIELD, EXPRESSION, INITIAL_VALUE, ITEM, NAMED_TYPE, STATEMENT, TYPE,
};
use definition::tag::Tag;

// The role of a field with this tag, if the body has the tag's parts and nothing after them.
#[tactic(auto, using(crate::proofs::Parts::by_row), unfolding(definition::specs::Format::find, definition::specs::Format::rows))]
fn role(tag: Tag, body: Body) -> Option<Role>
    ensures { RoleBy (row_of tag) body.entry result }
{
    match tag {
        Tag::Name => body.place().text().node(TYPE, Empty),
        Tag::Void => body.place().node(TYPE, Empty),
        Tag::Pointer => body.place().node(TYPE, One(TYPE)),
        Tag::Array => body.place().eight().node(TYPE, One(TYPE)),
        Tag::Struct => {
            let body = body.place().count();
            body.node(TYPE, Many(NAMED_TYPE, body.numbers.count))
        }
        Tag::NamedType => body.text().node(NAMED_TYPE, One(TYPE)),
        Tag::Identifier | Tag::String => body.place().text().node(EXPRESSION, Empty),
        Tag::Integer => body.place().base().text().node(EXPRESSION, Empty),
        Tag::Boolean => body.place().byte(0, 1).node(EXPRESSION, Empty),
        Tag::Call => {
            let body = body.place().count();
            body.node(
                EXPRESSION,
                OneAndMany(EXPRESSION, EXPRESSION, body.numbers.count),
            )
        }
        Tag::Index | Tag::BooleanAnd => body.place().node(EXPRESSION, Two(EXPRESSION, EXPRESSION)),
        Tag::Cast => body.place().node(EXPRESSION, Two(EXPRESSION, TYPE)),
        Tag::PointerTake | Tag::PointerDereference | Tag::BitwiseNot | Tag::BooleanNot => body
            .place()
            .node(EXPRESSION, One(EXPRESSION)),
        Tag::FieldAccess => body.place().text().node(EXPRESSION, One(EXPRESSION)),
        Tag::ArithmeticBinOp => body
            .place()
            .byte(0, 7)
            .node(EXPRESSION, Two(EXPRESSION, EXPRESSION)),
        Tag::ComparisonBinOp => body
            .place()
            .byte(0, 4)
            .node(EXPRESSION, Two(EXPRESSION, EXPRESSION)),
        Tag::Sizeof => body.place().node(EXPRESSION, One(TYPE)),
        Tag::CompoundArray => {
            let body = body.place().count();
            body.node(COMPOUND, Many(EXPRESSION, body.numbers.count))
        }
        Tag::CompoundStruct => {
            let body = body.place().count();
            body.node(COMPOUND, Many(COMPOUND_FIELD, body.numbers.count))
        }
        Tag::CompoundField => body.place().text().node(COMPOUND_FIELD, One(EXPRESSION)),
        Tag::NoValue => body.node(INITIAL_VALUE, Empty),
        Tag::AssignedValue => body.node(INITIAL_VALUE, One(EXPRESSION)),
        Tag::CompoundValue => body.node(INITIAL_VALUE, One(COMPOUND)),
        Tag::Block => {
            let body = body.place().count();
            body.node(STATEMENT, Many(STATEMENT, body.numbers.count))
        }
        Tag::Expression => body.place().node(STATEMENT, One(EXPRESSION)),
        Tag::VariableDeclaration => body
            .place()
            .text()
            .node(STATEMENT, Two(TYPE, INITIAL_VALUE)),
        Tag::Assignment => body.place().node(STATEMENT, Two(EXPRESSION, EXPRESSION)),
        Tag::CompoundAssignment => body.place().node(STATEMENT, Two(EXPRESSION, COMPOUND)),
        Tag::Return => {
            let body = body.place().byte(0, 1);
            body.node(STATEMENT, Many(EXPRESSION, body.numbers.byte))
        }
        Tag::Loop => body.place().node(STATEMENT, One(STATEMENT)),
        Tag::While => body.place().node(STATEMENT, Two(EXPRESSION, STATEMENT)),
        Tag::Break => body.place().node(STATEMENT, Empty),
        Tag::If => {
            let body = body.place().byte(2, 3);
            body.node(
                STATEMENT,
                OneAndMany(EXPRESSION, STATEMENT, body.numbers.byte.saturating_sub(1)),
            )
        }
        Tag::InlineAssembly => body.place().text().node(STATEMENT, Empty),
        Tag::FunctionDefinition => {
            let body = body.place().byte(0, 1).count().text();
            body.node(
                ITEM,
                Function(body.numbers.count, 1usize.saturating_sub(body.numbers.byte)),
            )
        }
        Tag::TypeAlias => body.place().byte(0, 3).text().node(ITEM, One(TYPE)),
        Tag::Use | Tag::TopLevelAssembly => body.place().text().node(ITEM, Empty),
        Tag::TopLevelVariable => body.place().text().node(ITEM, Two(TYPE, INITIAL_VALUE)),
        Tag::Module => {
            let body = body.count();
            body.end(Role::Root(body.numbers.count))
        }
        Tag::TokenError => body.byte(1, 4).place().byte(0, 0).byte(0, 0).error(1),
        Tag::ReportedError => body
            .byte(1, 19)
            .place_or_nowhere()
            .byte(0, 54)
            .byte(0, 54)
            .error(2),
        Tag::FullError => body
            .byte(1, 21)
            .place_or_nowhere()
            .byte(0, 54)
            .byte(0, 54)
            .error(3),
    }
}

// The same for a whole body.
pub fn role_of(tag: Tag, body: &[u8]) -> Option<Role>
    ensures { RoleOf (row_of tag) body.now result }
{
    role(tag, start(body))
}
