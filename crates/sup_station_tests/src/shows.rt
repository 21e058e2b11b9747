//! Rows of what nodes show and of where names lead, losers among them.
use crate::stage::plays;
use std::process::Abort;
use sup_replica::Config;

/// A push of a member, a child and a name with two entries each, and of a name whose child isn't there; and what is shown
/// of it.
const TWICE: &str =
    "bytes b {\"ctx\":{\"cloud\":[],\"vector\":{\"c\":7}},\"from\":\"c\",\"kind\":\"push\",\"rows\":[[\"member\",\"m\",[\"c\",1],{\"label\":\"rack\"}],[\"member\",\"m\",[\"c\",2],{\"label\":\"\"}],[\"child\",\"db\",[\"c\",3],{\"arg\":\"-v\",\"kind\":\"quick\",\"restart\":\"transient\",\"shutdown\":\"brutal_kill\"}],[\"child\",\"db\",[\"c\",4],{\"arg\":\"\",\"kind\":\"slow\",\"restart\":\"temporary\",\"shutdown\":\"infinity\"}],[\"name\",\"api\",[\"c\",7],\"web\"],[\"name\",\"www\",[\"c\",5],\"db\"],[\"name\",\"www\",[\"c\",6],\"web\"]],\"to\":\"b\",\"v\":1}\nshow b\nwhere b www\nwhere b api\n";

const TWICE_TOLD: &str =
    "ok absorbed\nnode b boot 1\nmember m (c,1) label=rack\nloser member m (c,2)\nchild db (c,3) quick transient brutal_kill arg=-v on m\nloser child db (c,4)\nname api (c,7) web gone\nname www (c,5) db on m\nloser name www (c,6)\nwww db on m\napi web gone\n";

/// A push of two members with two entries each, one of which is draining, and of a child; and what comes of a drain.
const DRAINING_TWICE: &str =
    "bytes b {\"ctx\":{\"cloud\":[],\"vector\":{\"c\":5}},\"from\":\"c\",\"kind\":\"push\",\"rows\":[[\"member\",\"m\",[\"c\",1],{\"label\":\"rack\",\"status\":\"draining\"}],[\"member\",\"m\",[\"c\",2],{\"label\":\"\",\"status\":\"open\"}],[\"member\",\"n\",[\"c\",3],{\"label\":\"shelf\",\"status\":\"open\"}],[\"member\",\"n\",[\"c\",4],{\"label\":\"\",\"status\":\"draining\"}],[\"child\",\"db\",[\"c\",5],{\"arg\":\"\",\"kind\":\"worker\",\"restart\":\"permanent\",\"shutdown\":5000}]],\"to\":\"b\",\"v\":2}\nshow b\ndrain b m\ndrain b n\nshow b\n";

const DRAINING_TWICE_TOLD: &str =
    "ok absorbed\nnode b boot 1\nmember m (c,1) draining label=rack\nloser member m (c,2)\nmember n (c,3) label=shelf\nloser member n (c,4)\nchild db (c,5) worker permanent 5000 arg= on n\nrefused 23 AlreadyDraining\nok (b,1) removed (c,3) (c,4)\nnode b boot 1\nmember m (c,1) draining label=rack\nloser member m (c,2)\nmember n (b,1) draining label=shelf\nchild db (c,5) worker permanent 5000 arg= unplaced\n";

const GONE: &str =
    "start a web\npush a b\ndeliver a 1\nregister b www web\nwhere b www\ndelete a web\npush a b\ndeliver a 2\nwhere b www\nshow b\n";

const GONE_TOLD: &str =
    "ok (a,1)\nok sent\n  sent a 1 to b push\nok absorbed\nok (b,1)\nwww web unplaced\nok removed (a,1)\nok sent\n  sent a 2 to b push\nok absorbed\nwww web gone\nnode b boot 1\nname www (b,1) web gone\n";

const LEAST: &str =
    "start a x\npush a b\ndeliver a 1\nregister a n x\nregister b n x\npush b a\ndeliver b 1\nshow a\nunregister a n\nwhere a n\n";

const LEAST_TOLD: &str =
    "ok (a,1)\nok sent\n  sent a 1 to b push\nok absorbed\nok (a,2)\nok (b,1)\nok sent\n  sent b 1 to a push\nok absorbed\nnode a boot 1\nchild x (a,1) worker permanent 5000 arg= unplaced\nname n (b,1) x unplaced\nloser name n (a,2)\nok removed (b,1) (a,2)\nn unknown\n";

#[test]
fn losers_of_each_table_follow_their_winner(rt: HostRuntime) {
    plays(&rt, Config::default(), TWICE, TWICE_TOLD);
}

#[test]
fn the_status_of_a_members_winner_counts(rt: HostRuntime) {
    plays(&rt, Config::default(), DRAINING_TWICE, DRAINING_TWICE_TOLD);
}

#[test]
fn a_name_stays_where_its_child_is_gone(rt: HostRuntime) {
    plays(&rt, Config::default(), GONE, GONE_TOLD);
}

#[test]
fn the_least_dot_of_a_name_wins(rt: HostRuntime) {
    plays(&rt, Config::default(), LEAST, LEAST_TOLD);
}

#[test]
fn a_member_shows_what_it_keeps_in_the_order_of_starts(rt: HostRuntime) {
    plays(
        &rt,
        Config::default(),
        "join a\nstart a web\nstart a db\nshow a\n",
        "ok (a,1)\nok (a,2)\n  a start web 1.1\nok (a,3)\n  a start db 1.2\nnode a boot 1\nmember a (a,1) label=\nchild db (a,3) worker permanent 5000 arg= on a\nchild web (a,2) worker permanent 5000 arg= on a\nkept web 1.1\nkept db 1.2\n",
    );
}

#[test]
fn a_stopped_node_is_down_and_leads_nowhere(rt: HostRuntime) {
    plays(
        &rt,
        Config::default(),
        "stop a\nshow a\nwhere a www\n",
        "ok stopped\nnode a down\nnode a down\n",
    );
}
