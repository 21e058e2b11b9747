//! What changes tables, a number of the walk at a time. `None` where memory was refused.
use std::process::Abort;
use sup_specs::{
    ChildId, ChildSpec, Kind, MemberInfo, Name, NodeName, Restart, Shutdown, Status, Text,
};
use sup_tables::Tables;

// A name that is escaped where it is written, and one of each other kind of byte.
const KEYS: [&str; 8] = ["a", "b\"", "b\\", "!", "~", "A", "zz", "z"];

pub(crate) fn node(rt: &impl Abort, name: &str) -> NodeName {
    NodeName::parse(name).expect(rt, "a node's name")
}

fn key(at: u64) -> &'static str {
    KEYS[(at % 8) as usize]
}

fn id(rt: &impl AllocGlobal, at: u64) -> Option<ChildId> {
    ChildId::parse(rt.alloc(), key(at)).ok()
}

fn spec(rt: &impl AllocGlobal, arg: &str) -> Option<ChildSpec> {
    Some(ChildSpec {
        kind: Kind::parse(rt.alloc(), "worker").ok()?,
        arg: Text::parse(rt.alloc(), arg).ok()?,
        restart: Restart::Transient,
        shutdown: Shutdown::Infinity,
    })
}

fn info(rt: &impl AllocGlobal) -> Option<MemberInfo> {
    Some(MemberInfo {
        label: Text::parse(rt.alloc(), "l").ok()?,
        status: Status::Open,
    })
}

// What one of the nodes changes of children.
fn of_children(
    rt: &(impl Abort + AllocGlobal),
    state: &Tables,
    me: NodeName,
    at: u64,
) -> Option<Tables> {
    match at % 3 {
        0 => Some(state.put_child(me, id(rt, at / 3)?, spec(rt, "")?).ok()?.0),
        1 => Some(
            state
                .replace_child(me, id(rt, at / 3)?, spec(rt, "again")?)
                .ok()?
                .0,
        ),
        _ => Some(state.drop_child(&id(rt, at / 3)?).ok()?.0),
    }
}

// What one of the nodes changes of names and members.
fn of_others(
    rt: &(impl Abort + AllocGlobal),
    state: &Tables,
    me: NodeName,
    at: u64,
) -> Option<Tables> {
    let name = Name::parse(rt.alloc(), key(at / 4)).ok()?;
    match at % 4 {
        0 => Some(state.put_name(me, name, id(rt, at / 32)?).ok()?.0),
        1 => Some(state.drop_name(&name).ok()?.0),
        2 => Some(state.put_member(me, info(rt)?).ok()?.0),
        _ => Some(state.drop_member(&me).ok()?.0),
    }
}

/// A delta that one of two nodes makes of the tables.
pub(crate) fn delta(rt: &(impl Abort + AllocGlobal), state: &Tables, at: u64) -> Option<Tables> {
    let me = if at % 2 == 0 {
        node(rt, "a")
    } else {
        node(rt, "b")
    };
    if at / 2 % 3 == 0 {
        of_others(rt, state, me, at / 6)
    } else {
        of_children(rt, state, me, at / 6)
    }
}
