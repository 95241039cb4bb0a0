// What a field is to the walk over a file: whether it stands right, and how the walk goes on.
ghost use Rattle.std.specs.Prelude.{List, ℕ, ◌≤◌, length};
ghost use Rattle.definition.specs.Slices.{old};
ghost use Rattle.stored.specs.declared.nodes.Role.{Role};
ghost use Rattle.stored.specs.Nodes.{Verdict, Judges, Stands};

use crate::nodes::{Children, Role, kind, last, take_off};

// Where the tree stands: the nodes that wait for their parent are those from `top` on. After the module there are none,
// and `last` is the list of the last error, 0 if there was none.
#[derive(Clone, Copy)]
pub struct Phase {
    pub top: usize,
    pub last: Option<u8>,
}

// The phase after a field, and how many children it has.
#[derive(Clone, Copy)]
pub struct Judged {
    pub phase: Phase,
    pub children: usize,
}

// A node, which must stand before the module.
fn node(kind: u8, children: Children, phase: Phase, waiting: &mut [u8]) -> Option<Judged>
    requires { Stands phase waiting.old }
    ensures { Judges (Role.Node kind children) phase waiting result }
{
    let children = take_off(children, &waiting[phase.top..])?;
    if phase.last.is_some() {
        return None;
    }
    let top = phase.top + children - 1;
    waiting[top] = kind;
    Some(Judged {
        phase: Phase { top, last: None },
        children,
    })
}

// The module, which must leave no node.
fn close(items: usize, phase: Phase, waiting: &[u8]) -> Option<Judged>
    requires { Stands phase waiting.now }
    ensures { Verdict (Role.Root items) phase waiting.now waiting.now result }
{
    let children = last(&waiting[phase.top..], kind::ITEM, items)?;
    if phase.last.is_some() {
        return None;
    }
    let top = phase.top + children;
    if top < waiting.len() {
        return None;
    }
    Some(Judged {
        phase: Phase { top, last: Some(0) },
        children,
    })
}

// An error, which must follow the module and the errors of lists before its own.
fn error(list: u8, phase: Phase) -> Option<Judged>
    ensures { (w : List ℕ) → phase.top ≤ length w → Verdict (Role.Error list) phase w w result }
{
    let last = phase.last?;
    if list < last {
        return None;
    }
    Some(Judged {
        phase: Phase {
            top: phase.top,
            last: Some(list),
        },
        children: 0,
    })
}

// Judges a field. `waiting` has the nodes that wait, the last one first.
pub fn judge(role: Role, phase: Phase, waiting: &mut [u8]) -> Option<Judged>
    requires { Stands phase waiting.old }
    ensures { Judges role phase waiting result }
{
    match role {
        Role::Node(kind, children) => node(kind, children, phase, waiting),
        Role::Root(items) => close(items, phase, waiting),
        Role::Error(list) => error(list, phase),
    }
}
