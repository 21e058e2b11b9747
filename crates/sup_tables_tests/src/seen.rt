//! What tables of the tests show, entry by entry.
use crate::given::dot;
use std::process::Abort;
use sup_causal::{Dot, Lattice};
use sup_specs::{MemberInfo, Status};
use sup_tables::{Entry, LentEntry, LentRow, Row, Tables};

/// An entry: its table, `draining` for a member that drains, or `loser` where another has won; its key; the node and the
/// counter of its dot; and its value, which is a member's label, a child's kind or a name's child.
pub(crate) type Shown<'a> = (&'a str, &'a str, &'a str, u64, &'a str);

fn push<'a>(
    rt: &impl Abort,
    shown: &mut Vec<Shown<'a>>,
    table: &'a str,
    key: &'a str,
    dot: &'a Dot,
    value: &'a str,
) {
    let entry = (table, key, dot.node.as_str(), dot.counter, value);
    shown.push(entry).expect(rt, "room")
}

fn table_of(info: &MemberInfo) -> &'static str {
    match info.status {
        Status::Open => "member",
        Status::Draining => "draining",
    }
}

fn push_members<'a>(rt: &impl Abort, shown: &mut Vec<Shown<'a>>, tables: &'a Tables) {
    for won in &tables.members().expect(rt, "members") {
        let key = won.key.as_str();
        assert!(rt; tables.member(won.key) == Some((*won.dot, won.value)));
        let table = table_of(won.value);
        push(rt, shown, table, key, won.dot, won.value.label.as_str());
        for lost in &tables.member_losers(won.key).expect(rt, "losers") {
            push(rt, shown, "loser", key, lost.dot, lost.value.label.as_str());
        }
    }
}

fn push_children<'a>(rt: &impl Abort, shown: &mut Vec<Shown<'a>>, tables: &'a Tables) {
    for won in &tables.children().expect(rt, "children") {
        let key = won.key.as_str();
        assert!(rt; tables.child(won.key) == Some((*won.dot, won.value)));
        push(rt, shown, "child", key, won.dot, won.value.kind.as_str());
        for lost in &tables.child_losers(won.key).expect(rt, "losers") {
            push(rt, shown, "loser", key, lost.dot, lost.value.kind.as_str());
        }
    }
}

fn push_names<'a>(rt: &impl Abort, shown: &mut Vec<Shown<'a>>, tables: &'a Tables) {
    for won in &tables.names().expect(rt, "names") {
        let key = won.key.as_str();
        assert!(rt; tables.name(won.key) == Some((*won.dot, won.value)));
        push(rt, shown, "name", key, won.dot, won.value.as_str());
        for lost in &tables.name_losers(won.key).expect(rt, "losers") {
            push(rt, shown, "loser", key, lost.dot, lost.value.as_str());
        }
    }
}

// Expects these to be all winners and losers, in this order.
pub(crate) fn expect_shown(rt: &(impl Abort + AllocGlobal), tables: &Tables, wanted: &[Shown<'_>]) {
    let mut shown = Vec::new(rt.alloc());
    push_members(rt, &mut shown, tables);
    push_children(rt, &mut shown, tables);
    push_names(rt, &mut shown, tables);
    assert!(rt; shown.as_slice() == wanted, "{shown:?}");
}

fn push_row<'a>(rt: &impl Abort, shown: &mut Vec<Shown<'a>>, row: &'a Row) {
    match &row.entry {
        Entry::Member(m, info) => {
            push(
                rt,
                shown,
                table_of(info),
                m.as_str(),
                &row.dot,
                info.label.as_str(),
            )
        }
        Entry::Child(id, spec) => {
            push(
                rt,
                shown,
                "child",
                id.as_str(),
                &row.dot,
                spec.kind.as_str(),
            )
        }
        Entry::Name(name, id) => { push(rt, shown, "name", name.as_str(), &row.dot, id.as_str()) }
    }
}

fn shown_rows<'a>(rt: &(impl Abort + AllocGlobal), rows: &'a [Row]) -> Vec<Shown<'a>> {
    let mut shown = Vec::new(rt.alloc());
    for row in rows {
        push_row(rt, &mut shown, row);
    }
    shown
}

fn rows_of(rt: &impl Abort, tables: &Tables) -> Vec<Row> {
    let rows = tables.rows().expect(rt, "rows");
    assert!(rt; tables.row_count() == rows.len());
    rows
}

fn are_rows(rt: &(impl Abort + AllocGlobal), rows: &[Row], wanted: &[Shown<'_>]) -> bool {
    shown_rows(rt, rows).as_slice() == wanted
}

// Expects these to be all rows, in this order.
pub(crate) fn expect_rows(rt: &(impl Abort + AllocGlobal), tables: &Tables, wanted: &[Shown<'_>]) {
    let rows = rows_of(rt, tables);
    assert!(rt; are_rows(rt, &rows, wanted));
}

fn push_lent<'a>(rt: &impl Abort, shown: &mut Vec<Shown<'a>>, row: &LentRow<'a>) {
    let (table, key, value) = match row.entry {
        LentEntry::Member(m, info) => (table_of(info), m.as_str(), info.label.as_str()),
        LentEntry::Child(id, spec) => ("child", id.as_str(), spec.kind.as_str()),
        LentEntry::Name(name, id) => ("name", name.as_str(), id.as_str()),
    };
    push(rt, shown, table, key, row.dot, value)
}

fn shown_lent<'a>(rt: &(impl Abort + AllocGlobal), rows: &[LentRow<'a>]) -> Vec<Shown<'a>> {
    let mut shown = Vec::new(rt.alloc());
    for row in rows {
        push_lent(rt, &mut shown, row);
    }
    shown
}

// Expects these to be all rows that are lent, in this order.
pub(crate) fn expect_lent(rt: &(impl Abort + AllocGlobal), tables: &Tables, wanted: &[Shown<'_>]) {
    let rows = tables.lent_rows().expect(rt, "rows");
    assert!(rt; shown_lent(rt, &rows).as_slice() == wanted);
}

// Expects rows that are lent to be those of these tables, in their order.
pub(crate) fn expect_same_lent(
    rt: &(impl Abort + AllocGlobal),
    rows: &[LentRow<'_>],
    tables: &Tables,
) {
    expect_lent(rt, tables, &shown_lent(rt, rows));
}

pub(crate) fn knows(rt: &impl Abort, tables: &Tables, name: &str, counter: u64) -> bool {
    tables.context().contains(&dot(rt, name, counter))
}

// Expects the first tables to know all that the second know, and not the other way round.
pub(crate) fn expect_more(rt: &impl Abort, more: &Tables, less: &Tables) {
    assert!(rt; less.leq(more) && !more.leq(less));
}

// Expects two tables to know and to show the same.
pub(crate) fn expect_same(rt: &(impl Abort + AllocGlobal), left: &Tables, right: &Tables) {
    assert!(rt; left.leq(right) && right.leq(left));
    assert!(rt; left.context().leq(right.context()) && right.context().leq(left.context()));
    let rows = rows_of(rt, right);
    expect_rows(rt, left, &shown_rows(rt, &rows));
}
