//! Rows, played by stations: what is told of each line.
use crate::stage::plays;
use std::process::Abort;
use sup_replica::Config;

pub(crate) const INTERVAL: &str =
    "start a x\nship a b\ndeliver a 1\nstop a\nrestart a\ndeliver b 1\nship a b\nstart a y\nship a b\nmessage a 2\n";

pub(crate) const INTERVAL_TOLD: &str =
    "ok (a,1)\nok sent\n  sent a 1 to b delta 1 part\nok absorbed\n  sent b 1 to a ack 1\nok stopped\nok boot 2\nok acked\nrefused 12 UpToDate\nok (a,2)\nok sent\n  sent a 2 to b delta 2 part\n{\"ctx\":{\"cloud\":[[\"a\",2]],\"vector\":{}},\"from\":\"a\",\"kind\":\"delta\",\"n\":2,\"rows\":[[\"child\",\"y\",[\"a\",2],{\"arg\":\"\",\"kind\":\"worker\",\"restart\":\"permanent\",\"shutdown\":5000}]],\"to\":\"b\",\"v\":2}\n";

pub(crate) const REMOVAL: &str =
    "join a\nstart a web\nship a b\ndeliver a 1\ndelete b web\nreplace a web arg=x\nship b a\ndeliver b 2\npush a b\ndeliver a 3\nshow a\nshow b\n";

pub(crate) const REMOVAL_TOLD: &str =
    "ok (a,1)\nok (a,2)\n  a start web 1.1\nok sent\n  sent a 1 to b delta 2 part\nok absorbed\n  sent b 1 to a ack 2\nok removed (a,2)\nok (a,3) removed (a,2)\n  a stop web 1.1\n  a start web 1.2\nok sent\n  sent b 2 to a delta 2 part\nok known\n  sent a 2 to b ack 2\nok sent\n  sent a 3 to b push\nok absorbed\nnode a boot 1\nmember a (a,1) label=\nchild web (a,3) worker permanent 5000 arg=x on a\nkept web 1.2\nnode b boot 1\nmember a (a,1) label=\nchild web (a,3) worker permanent 5000 arg=x on a\n";

pub(crate) const FAILED_SAVE: &str =
    "start a x !fail\nshow a\nstart a x\nstop a\nrestart a\nshow a\n";

pub(crate) const FAILED_SAVE_TOLD: &str =
    "refused 16 KeepFailed\nnode a boot 1\nok (a,1)\nok stopped\nok boot 2\nnode a boot 2\nchild x (a,1) worker permanent 5000 arg= unplaced\n";

pub(crate) const FAILED_RESTART: &str = "stop a\nrestart a !fail\nshow a\nrestart a\nshow a\n";

pub(crate) const FAILED_RESTART_TOLD: &str =
    "ok stopped\nrefused 16 KeepFailed\nnode a down\nok boot 2\nnode a boot 2\n";

pub(crate) const OVERWRITTEN: &str =
    "start a x\nship a b\ndeliver a 1\ndeliver b 1\nstart a y\nstart a z\nship a b\ndeliver a 2\nshow b\n";

pub(crate) const OVERWRITTEN_TOLD: &str =
    "ok (a,1)\nok sent\n  sent a 1 to b delta 1 part\nok absorbed\n  sent b 1 to a ack 1\nok acked\nok (a,2)\nok (a,3)\nok sent\n  sent a 2 to b delta 3 whole\nok absorbed\n  sent b 2 to a ack 3\nnode b boot 1\nchild x (a,1) worker permanent 5000 arg= unplaced\nchild y (a,2) worker permanent 5000 arg= unplaced\nchild z (a,3) worker permanent 5000 arg= unplaced\n";

pub(crate) const REPEATED: &str = "start a x\nship a b\ndeliver a 1\ndeliver a 1\n";

pub(crate) const REPEATED_TOLD: &str =
    "ok (a,1)\nok sent\n  sent a 1 to b delta 1 part\nok absorbed\n  sent b 1 to a ack 1\nok known\n  sent b 2 to a ack 1\n";

pub(crate) const DRAINED: &str =
    "join a\nstart a web\nship a b\ndeliver a 1\njoin b\ndrain b a\npush b a\ndeliver b 2\nshow a\ndrain a a\ndrain a b\njoin a\nshow b\n";

pub(crate) const DRAINED_TOLD: &str =
    "ok (a,1)\nok (a,2)\n  a start web 1.1\nok sent\n  sent a 1 to b delta 2 part\nok absorbed\n  sent b 1 to a ack 2\nok (b,1)\nok (b,2) removed (a,1)\n  b start web 1.1\nok sent\n  sent b 2 to a push\nok absorbed\n  a stop web 1.1\nnode a boot 1\nmember a (b,2) draining label=\nchild web (a,2) worker permanent 5000 arg= unplaced\nrefused 23 AlreadyDraining\nrefused 7 NotMember\nrefused 6 AlreadyMember\nnode b boot 1\nmember a (b,2) draining label=\nmember b (b,1) label=\nchild web (a,2) worker permanent 5000 arg= on b\nkept web 1.1\n";

#[test]
fn a_failed_save_leaves_the_dot_free(rt: HostRuntime) {
    plays(&rt, Config::default(), FAILED_SAVE, FAILED_SAVE_TOLD);
}

#[test]
fn a_restart_whose_save_fails_leaves_the_node_stopped(rt: HostRuntime) {
    plays(&rt, Config::default(), FAILED_RESTART, FAILED_RESTART_TOLD);
}

#[test]
fn an_overwritten_interval_is_sent_whole(rt: HostRuntime) {
    plays(
        &rt,
        Config::new(1, 5, 1).expect(&rt, "settings"),
        OVERWRITTEN,
        OVERWRITTEN_TOLD,
    );
}

#[test]
fn a_repeated_delivery_is_acknowledged_again(rt: HostRuntime) {
    plays(&rt, Config::default(), REPEATED, REPEATED_TOLD);
}

#[test]
fn a_delivery_at_a_stopped_node_is_refused(rt: HostRuntime) {
    plays(
        &rt,
        Config::default(),
        "start a x\nship a b\nstop b\ndeliver a 1\nrestart b\ndeliver a 1\n",
        "ok (a,1)\nok sent\n  sent a 1 to b delta 1 part\nok stopped\nrefused 1 Down\nok boot 2\nok absorbed\n  sent b 1 to a ack 1\n",
    );
}

#[test]
fn a_restart_begins_what_is_placed_here_in_its_own_boot(rt: HostRuntime) {
    plays(
        &rt,
        Config::default(),
        "join a\nstart a web\nleave a a\njoin a\nstop a\nstop a\nrestart a\nrestart a\n",
        "ok (a,1)\nok (a,2)\n  a start web 1.1\nok removed (a,1)\n  a stop web 1.1\nok (a,3)\n  a start web 1.2\nok stopped\nrefused 1 Down\nok boot 2\n  a start web 2.1\nrefused 2 AlreadyUp\n",
    );
}

#[test]
fn the_image_of_a_member_with_a_child_is_the_stated_text(rt: HostRuntime) {
    plays(
        &rt,
        Config::default(),
        "join a\nstart a web\nimage a\n",
        "ok (a,1)\nok (a,2)\n  a start web 1.1\n{\"boot\":1,\"count\":2,\"ctx\":{\"cloud\":[],\"vector\":{\"a\":2}},\"kind\":\"image\",\"node\":\"a\",\"rows\":[[\"member\",\"a\",[\"a\",1],{\"label\":\"\",\"status\":\"open\"}],[\"child\",\"web\",[\"a\",2],{\"arg\":\"\",\"kind\":\"worker\",\"restart\":\"permanent\",\"shutdown\":5000}]],\"v\":2}\n",
    );
}

#[test]
fn names_follow_their_child(rt: HostRuntime) {
    plays(
        &rt,
        Config::default(),
        "join a\nstart a web\nregister a www web\nregister a www web\nregister a api db\nwhere a www\ndelete a web\nwhere a www\nunregister a www\n",
        "ok (a,1)\nok (a,2)\n  a start web 1.1\nok (a,3)\nrefused 8 NameTaken\nrefused 9 NoSuchChild\nwww web on a\nok removed (a,2) (a,3)\n  a stop web 1.1\nwww unknown\nrefused 10 NameUnknown\n",
    );
}

#[test]
fn a_name_leads_to_a_child_that_no_member_has(rt: HostRuntime) {
    plays(
        &rt,
        Config::default(),
        "start a web\nregister a www web\nwhere a www\n",
        "ok (a,1)\nok (a,2)\nwww web unplaced\n",
    );
}

#[test]
fn a_drained_member_stays_and_loses_its_child(rt: HostRuntime) {
    plays(&rt, Config::default(), DRAINED, DRAINED_TOLD);
}

#[test]
fn a_drained_member_leaves_and_joins_to_come_back(rt: HostRuntime) {
    plays(
        &rt,
        Config::default(),
        "join a\nstart a web\ndrain a a !fail\ndrain a a\nleave a a\njoin a\n",
        "ok (a,1)\nok (a,2)\n  a start web 1.1\nrefused 16 KeepFailed\nok (a,3) removed (a,1)\n  a stop web 1.1\nok removed (a,3)\nok (a,4)\n  a start web 1.2\n",
    );
}

#[test]
fn too_many_restarts_end_a_membership(rt: HostRuntime) {
    plays(
        &rt,
        Config::default(),
        "join a\nstart a web\ncrash a web 1\ncrash a web 1\ncrash a web 2\nshow a\n",
        "ok (a,1)\nok (a,2)\n  a start web 1.1\nok restarted\n  a start web 1.2\nrefused 14 StaleExit\nok gave up removed (a,1)\nnode a boot 1\nchild web (a,2) worker permanent 5000 arg= unplaced\n",
    );
}

#[test]
fn the_newest_own_operation_is_pushed_to_its_receiver_alone(rt: HostRuntime) {
    plays(
        &rt,
        Config::default(),
        "push a b\nstart a x\npush a b\ndeliver a 1\nreturn a 1\n",
        "refused 22 NothingToPush\nok (a,1)\nok sent\n  sent a 1 to b push\nok absorbed\nrefused 18 WrongReceiver\n",
    );
}

#[test]
fn what_is_acknowledged_is_not_sent_again(rt: HostRuntime) {
    plays(
        &rt,
        Config::default(),
        "ship a b\nstart a x\nship a b\ndeliver a 1\ndeliver b 1\nship a b\n",
        "refused 12 UpToDate\nok (a,1)\nok sent\n  sent a 1 to b delta 1 part\nok absorbed\n  sent b 1 to a ack 1\nok acked\nrefused 12 UpToDate\n",
    );
}
