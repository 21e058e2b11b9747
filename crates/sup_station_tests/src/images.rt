//! Rows of a station that goes on from an image that is given: of spent counters, of full tables, of another node, or none.
use crate::many_children::full;
use crate::stage::{plays, plays_from};
use sup_replica::Config;

/// A child under the last dot that node a can give.
const DOTS_SPENT: &str =
    "{\"boot\":1,\"count\":1,\"ctx\":{\"cloud\":[[\"a\",9007199254740991]],\"vector\":{}},\"kind\":\"image\",\"node\":\"a\",\"rows\":[[\"child\",\"x\",[\"a\",9007199254740991],{\"arg\":\"\",\"kind\":\"worker\",\"restart\":\"permanent\",\"shutdown\":5000}]],\"v\":1}";

/// A node that has counted its last change.
const COUNT_SPENT: &str =
    "{\"boot\":1,\"count\":9007199254740991,\"ctx\":{\"cloud\":[],\"vector\":{}},\"kind\":\"image\",\"node\":\"a\",\"rows\":[],\"v\":1}";

/// A node in its last boot.
const BOOT_SPENT: &str =
    "{\"boot\":9007199254740991,\"count\":0,\"ctx\":{\"cloud\":[],\"vector\":{}},\"kind\":\"image\",\"node\":\"a\",\"rows\":[],\"v\":1}";

/// The opening image of node a.
const OPENING: &str =
    "{\"boot\":1,\"count\":0,\"ctx\":{\"cloud\":[],\"vector\":{}},\"kind\":\"image\",\"node\":\"a\",\"rows\":[],\"v\":1}";

/// A member with a child, in version 1; and its image in the next boot, in version 2.
const VERSION_1: &str =
    "{\"boot\":1,\"count\":2,\"ctx\":{\"cloud\":[],\"vector\":{\"a\":2}},\"kind\":\"image\",\"node\":\"a\",\"rows\":[[\"member\",\"a\",[\"a\",1],{\"label\":\"\"}],[\"child\",\"web\",[\"a\",2],{\"arg\":\"\",\"kind\":\"worker\",\"restart\":\"permanent\",\"shutdown\":5000}]],\"v\":1}";

const VERSION_1_RESTARTED: &str =
    "ok boot 2\n  a start web 2.1\n{\"boot\":2,\"count\":2,\"ctx\":{\"cloud\":[],\"vector\":{\"a\":2}},\"kind\":\"image\",\"node\":\"a\",\"rows\":[[\"member\",\"a\",[\"a\",1],{\"label\":\"\",\"status\":\"open\"}],[\"child\",\"web\",[\"a\",2],{\"arg\":\"\",\"kind\":\"worker\",\"restart\":\"permanent\",\"shutdown\":5000}]],\"v\":2}\n";

/// Two members, one draining, at a node whose dots are spent.
const DRAINING_AND_SPENT: &str =
    "{\"boot\":1,\"count\":2,\"ctx\":{\"cloud\":[[\"a\",9007199254740991]],\"vector\":{\"b\":1}},\"kind\":\"image\",\"node\":\"a\",\"rows\":[[\"member\",\"a\",[\"a\",9007199254740991],{\"label\":\"\",\"status\":\"open\"}],[\"member\",\"b\",[\"b\",1],{\"label\":\"\",\"status\":\"draining\"}]],\"v\":2}";

/// An acknowledgement of a change that was never made, and bytes that are no message.
const FOREIGN: &str =
    "bytes a {\"from\":\"b\",\"kind\":\"ack\",\"n\":1,\"to\":\"a\",\"v\":1}\nbytes a {}\n";

#[test]
fn a_node_without_dots_adds_nothing_and_removes(rt: HostRuntime) {
    plays_from(
        &rt,
        "a",
        DOTS_SPENT,
        "restart a\nstart a y\nreplace a x\ndelete a x\nstart a x\n",
        "ok boot 2\nrefused 11 DotsSpent\nrefused 11 DotsSpent\nok removed (a,9007199254740991)\nrefused 11 DotsSpent\n",
    );
}

#[test]
fn a_node_that_counted_its_last_change_makes_none(rt: HostRuntime) {
    plays_from(
        &rt,
        "a",
        COUNT_SPENT,
        "restart a\nstart a x\ndelete a x\n",
        "ok boot 2\nrefused 21 CountSpent\nrefused 5 NotFound\n",
    );
}

#[test]
fn a_node_in_its_last_boot_doesnt_restart(rt: HostRuntime) {
    plays_from(
        &rt,
        "a",
        BOOT_SPENT,
        "restart a\nstop a\n",
        "refused 21 CountSpent\nrefused 1 Down\n",
    );
}

#[test]
fn an_image_of_version_1_restarts_and_is_saved_as_version_2(rt: HostRuntime) {
    plays_from(
        &rt,
        "a",
        VERSION_1,
        "restart a\nimage a\n",
        VERSION_1_RESTARTED,
    );
}

#[test]
fn a_drain_asks_for_the_member_then_for_its_status_then_for_a_dot(rt: HostRuntime) {
    plays_from(
        &rt,
        "a",
        DRAINING_AND_SPENT,
        "restart a\ndrain a c\ndrain a b\ndrain a a\n",
        "ok boot 2\nrefused 7 NotMember\nrefused 23 AlreadyDraining\nrefused 11 DotsSpent\n",
    );
}

#[test]
fn full_tables_take_no_child_more_and_let_others_be_replaced(rt: HostRuntime) {
    plays_from(
        &rt,
        "a",
        full(&rt).as_str(),
        "restart a\nstart a d\nreplace a c10000\ndelete a c19999\nstart a d\n",
        "ok boot 2\nrefused 15 TableFull\nok (a,10001) removed (a,1)\nok removed (a,10000)\nok (a,10002)\n",
    );
}

#[test]
fn foreign_acknowledgements_and_other_bytes_are_refused(rt: HostRuntime) {
    plays(
        &rt,
        Config::default(),
        FOREIGN,
        "refused 17 BadMessage\nrefused 17 BadMessage\n",
    );
}

#[test]
fn a_restart_takes_an_image_of_its_own_node_alone(rt: HostRuntime) {
    plays_from(
        &rt,
        "a",
        OPENING,
        "restart a\nshow a\n",
        "ok boot 2\nnode a boot 2\n",
    );
    plays_from(
        &rt,
        "b",
        OPENING,
        "restart b\nshow b\n",
        "refused 17 BadMessage\nnode b down\n",
    );
}

#[test]
fn a_restart_takes_no_other_bytes(rt: HostRuntime) {
    plays_from(&rt, "a", "{}", "restart a\n", "refused 17 BadMessage\n");
    plays_from(&rt, "a", "", "restart a\n", "refused 17 BadMessage\n");
}
