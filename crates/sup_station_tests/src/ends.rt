//! Rows of stations whose counters, tables or dots are nearly spent: the last one is given, and then none.
use crate::many_children::full;
use crate::stage::plays_from;
use std::fmt::Write;
use std::process::Abort;

/// A child under the last dot that node a can give, which the vector tells.
const SPENT_BY_VECTOR: &str =
    "{\"boot\":1,\"count\":1,\"ctx\":{\"cloud\":[],\"vector\":{\"a\":9007199254740991}},\"kind\":\"image\",\"node\":\"a\",\"rows\":[[\"child\",\"x\",[\"a\",9007199254740991],{\"arg\":\"\",\"kind\":\"worker\",\"restart\":\"permanent\",\"shutdown\":5000}]],\"v\":2}";

/// Node a may give one dot more: by the vector, and by the cloud.
const LAST_BY_VECTOR: &str =
    "{\"boot\":1,\"count\":1,\"ctx\":{\"cloud\":[],\"vector\":{\"a\":9007199254740990}},\"kind\":\"image\",\"node\":\"a\",\"rows\":[],\"v\":2}";

const LAST_BY_CLOUD: &str =
    "{\"boot\":1,\"count\":1,\"ctx\":{\"cloud\":[[\"a\",9007199254740990]],\"vector\":{}},\"kind\":\"image\",\"node\":\"a\",\"rows\":[],\"v\":2}";

/// A node that may count one change more, and one that may not; each knows a dot of node b.
const LAST_COUNT: &str =
    "{\"boot\":1,\"count\":9007199254740990,\"ctx\":{\"cloud\":[],\"vector\":{\"b\":1}},\"kind\":\"image\",\"node\":\"a\",\"rows\":[],\"v\":2}";

const COUNT_SPENT: &str =
    "{\"boot\":1,\"count\":9007199254740991,\"ctx\":{\"cloud\":[],\"vector\":{\"b\":1}},\"kind\":\"image\",\"node\":\"a\",\"rows\":[],\"v\":2}";

/// A node whose next boot is its last.
const LAST_BOOT: &str =
    "{\"boot\":9007199254740990,\"count\":0,\"ctx\":{\"cloud\":[],\"vector\":{}},\"kind\":\"image\",\"node\":\"a\",\"rows\":[],\"v\":2}";

/// A push of a dot of node b that is known, and of one that is not.
const PUSHES: &str =
    "bytes a {\"ctx\":{\"cloud\":[],\"vector\":{\"b\":1}},\"from\":\"b\",\"kind\":\"push\",\"rows\":[],\"to\":\"a\",\"v\":2}\nbytes a {\"ctx\":{\"cloud\":[],\"vector\":{\"b\":2}},\"from\":\"b\",\"kind\":\"push\",\"rows\":[],\"to\":\"a\",\"v\":2}\n";

#[test]
fn the_vector_tells_that_dots_are_spent(rt: HostRuntime) {
    plays_from(
        &rt,
        "a",
        SPENT_BY_VECTOR,
        "restart a\nstart a y\nreplace a x\ndelete a x\nstart a x\n",
        "ok boot 2\nrefused 11 DotsSpent\nrefused 11 DotsSpent\nok removed (a,9007199254740991)\nrefused 11 DotsSpent\n",
    );
}

#[test]
fn the_last_dot_is_given_behind_a_vector(rt: HostRuntime) {
    plays_from(
        &rt,
        "a",
        LAST_BY_VECTOR,
        "restart a\nstart a x\nstart a y\njoin a\nregister a n x\n",
        "ok boot 2\nok (a,9007199254740991)\nrefused 11 DotsSpent\nrefused 11 DotsSpent\nrefused 11 DotsSpent\n",
    );
}

#[test]
fn the_last_dot_is_given_behind_a_cloud(rt: HostRuntime) {
    plays_from(
        &rt,
        "a",
        LAST_BY_CLOUD,
        "restart a\nstart a x\nstart a y\nimage a\n",
        "ok boot 2\nok (a,9007199254740991)\nrefused 11 DotsSpent\n{\"boot\":2,\"count\":2,\"ctx\":{\"cloud\":[[\"a\",9007199254740990],[\"a\",9007199254740991]],\"vector\":{}},\"kind\":\"image\",\"node\":\"a\",\"rows\":[[\"child\",\"x\",[\"a\",9007199254740991],{\"arg\":\"\",\"kind\":\"worker\",\"restart\":\"permanent\",\"shutdown\":5000}]],\"v\":2}\n",
    );
}

// The number of what is shipped is the last one too, and is acknowledged.
#[test]
fn the_last_change_is_counted_and_shipped(rt: HostRuntime) {
    plays_from(
        &rt,
        "a",
        LAST_COUNT,
        "restart a\nstart a x\nstart a y\nship a b\ndeliver a 1\ndeliver b 1\nship a b\n",
        "ok boot 2\nok (a,1)\nrefused 21 CountSpent\nok sent\n  sent a 1 to b delta 9007199254740991 whole\nok absorbed\n  sent b 1 to a ack 9007199254740991\nok acked\nrefused 12 UpToDate\n",
    );
}

#[test]
fn a_node_that_counted_its_last_change_takes_no_new_one_in(rt: HostRuntime) {
    let mut lines = String::new(rt.alloc());
    lines.push_str("restart a\n").expect(&rt, "room");
    lines.push_str(PUSHES).expect(&rt, "room");
    plays_from(
        &rt,
        "a",
        COUNT_SPENT,
        lines.as_str(),
        "ok boot 2\nok known\nrefused 21 CountSpent\n",
    );
}

#[test]
fn a_node_counts_a_delivery_as_its_last_change(rt: HostRuntime) {
    let mut lines = String::new(rt.alloc());
    lines.push_str("restart a\n").expect(&rt, "room");
    lines.push_str(PUSHES).expect(&rt, "room");
    lines.push_str("start a x\n").expect(&rt, "room");
    plays_from(
        &rt,
        "a",
        LAST_COUNT,
        lines.as_str(),
        "ok boot 2\nok known\nok absorbed\nrefused 21 CountSpent\n",
    );
}

#[test]
fn the_last_boot_is_begun_once(rt: HostRuntime) {
    plays_from(
        &rt,
        "a",
        LAST_BOOT,
        "restart a\nstart a x\nstop a\nrestart a\nshow a\n",
        "ok boot 9007199254740991\nok (a,1)\nok stopped\nrefused 21 CountSpent\nnode a down\n",
    );
}

#[test]
fn full_tables_take_no_member_and_no_name_more(rt: HostRuntime) {
    plays_from(
        &rt,
        "a",
        full(&rt).as_str(),
        "restart a\njoin a\nregister a n c10000\ndelete a c19999\nregister a n c10000\njoin a\n",
        "ok boot 2\nrefused 15 TableFull\nrefused 15 TableFull\nok removed (a,10000)\nok (a,10001)\nrefused 15 TableFull\n",
    );
}

// The image of node a in this boot, which knows 10,000 dots of node b, each so far behind the one before it.
fn clouded(rt: &(impl Abort + AllocGlobal), boot: u64, distance: u64) -> String {
    let mut image = String::new(rt.alloc());
    write!(image, "{{\"boot\":{boot},\"count\":1,\"ctx\":{{\"cloud\":[").expect(rt, "room");
    for place in 0..10000u64 {
        let front = if place == 0 { "" } else { "," };
        let counter = distance.saturating_mul(place).saturating_add(2);
        write!(image, "{front}[\"b\",{counter}]").expect(rt, "room");
    }
    let end = "],\"vector\":{}},\"kind\":\"image\",\"node\":\"a\",\"rows\":[],\"v\":2}";
    image.push_str(end).expect(rt, "room");
    image
}

// The dot before them all comes at last.
#[test]
fn a_cloud_of_10000_dots_becomes_a_vector(rt: HostRuntime) {
    plays_from(
        &rt,
        "a",
        clouded(&rt, 1, 1).as_str(),
        "restart a\nbytes a {\"ctx\":{\"cloud\":[],\"vector\":{\"b\":1}},\"from\":\"b\",\"kind\":\"push\",\"rows\":[],\"to\":\"a\",\"v\":2}\nimage a\n",
        "ok boot 2\nok absorbed\n{\"boot\":2,\"count\":2,\"ctx\":{\"cloud\":[],\"vector\":{\"b\":10001}},\"kind\":\"image\",\"node\":\"a\",\"rows\":[],\"v\":2}\n",
    );
}

// A dot of another node stands beside them.
#[test]
fn a_cloud_of_10000_lone_dots_is_read_and_written(rt: HostRuntime) {
    let mut told = String::new(rt.alloc());
    told.push_str("ok boot 2\n").expect(&rt, "room");
    told.push_str(clouded(&rt, 2, 2).as_str())
        .expect(&rt, "room");
    told.push_str("\nok (a,1)\n").expect(&rt, "room");
    plays_from(
        &rt,
        "a",
        clouded(&rt, 1, 2).as_str(),
        "restart a\nimage a\nstart a x\n",
        told.as_str(),
    );
}
