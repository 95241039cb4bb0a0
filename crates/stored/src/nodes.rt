// The nodes of a tree: their kinds, and the children that `node.rs` types for each record.
ghost use Rattle.std.specs.Prelude.{◌∷◌, ◌++◌, List, ℕ, ◌≤◌, length, replicate};
ghost use Rattle.definition.specs.Format as F;
ghost use Rattle.stored.specs.Table.{as_children};
ghost use Rattle.stored.specs.Nodes.{Come, Came};

// The kinds of nodes: the number of each is its first tag.
pub mod kind {
    use definition::tag::Tag;

    pub const TYPE: u8 = Tag::Name as u8;

    pub const NAMED_TYPE: u8 = Tag::NamedType as u8;

    pub const EXPRESSION: u8 = Tag::Identifier as u8;

    pub const COMPOUND: u8 = Tag::CompoundArray as u8;

    pub const COMPOUND_FIELD: u8 = Tag::CompoundField as u8;

    pub const INITIAL_VALUE: u8 = Tag::NoValue as u8;

    pub const STATEMENT: u8 = Tag::Block as u8;

    pub const ITEM: u8 = Tag::FunctionDefinition as u8;
}

// The children of a record, by kind: none, one, two, so many of a kind, one and then so many of a kind, or those of a
// function: so many parameters, a result type, and so many bodies.
#[derive(Clone, Copy)]
pub enum Children {
    Empty,
    One(u8),
    Two(u8, u8),
    Many(u8, usize),
    OneAndMany(u8, u8, usize),
    Function(usize, usize),
}

// The role of a field in the tree: a node of a kind, with its children; the root, which is the module, with so many
// items; or an error of a list, 1 to 3 in the order in which the lists follow the module.
#[derive(Clone, Copy)]
pub enum Role {
    Node(u8, Children),
    Root(usize),
    Error(u8),
}

// In what follows `waiting` has the kinds of the nodes that wait for their parent, by number, the last one first.

// After the first `from` nodes: whether so many of a kind come next. Gives how many that makes.
fn and_before(waiting: &[u8], from: usize, kind: u8, count: usize) -> Option<usize>
    requires { from ≤ length waiting.now }
    ensures { (ks : List ℕ) → Came ks waiting.now from
        → Come (replicate count kind ++ ks) waiting.now result }
{
    if waiting.len() - from < count {
        return None;
    }
    let mut i = 0;
    while i < count {
        if waiting[from + i] != kind {
            return None;
        }
        i += 1;
    }
    Some(from + count)
}

// Whether the first nodes are so many of a kind.
pub fn last(waiting: &[u8], kind: u8, count: usize) -> Option<usize>
    ensures { Come (replicate count kind) waiting.now result }
{
    and_before(waiting, 0, kind, count)
}

// Whether they are so many of a kind, the last ones, and before them one of another.
fn one_and(waiting: &[u8], kind: u8, other: u8, count: usize) -> Option<usize>
    ensures { Come (kind ∷ replicate count other) waiting.now result }
{
    let others = last(waiting, other, count)?;
    and_before(waiting, others, kind, 1)
}

// Whether they are the children of a function: parameters, a result, and bodies, of which there is one or none.
fn function(waiting: &[u8], parameters: usize, bodies: usize) -> Option<usize>
    ensures { Come (replicate parameters F.named_type
        ++ (F.type ∷ replicate bodies F.statement)) waiting.now result }
{
    let result = one_and(waiting, kind::TYPE, kind::STATEMENT, bodies)?;
    and_before(waiting, result, kind::NAMED_TYPE, parameters)
}

// How many children a record has, if they are the first nodes.
pub fn take_off(children: Children, waiting: &[u8]) -> Option<usize>
    ensures { Come (as_children children) waiting.now result }
{
    match children {
        Children::Empty => Some(0),
        Children::One(kind) => last(waiting, kind, 1),
        Children::Two(first, second) => one_and(waiting, first, second, 1),
        Children::Many(kind, count) => last(waiting, kind, count),
        Children::OneAndMany(first, kind, count) => one_and(waiting, first, kind, count),
        Children::Function(parameters, bodies) => function(waiting, parameters, bodies),
    }
}
