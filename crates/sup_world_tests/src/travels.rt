//! What one node does, and another is told: rows.
use crate::stage::plays;

#[test]
fn an_add_beside_a_removal_stays(rt: HostRuntime) {
    plays(
        &rt,
        "nodes a b\njoin a\nstart a web\nship a b\ndeliver a 1\ndelete b web\nreplace a web arg=x\nship b a\ndeliver b 2\npush a b\ndeliver a 3\nshow a\nshow b\n",
        "ok (a,1)\nok (a,2)\n  a start web 1.1\nok sent\n  sent a 1 to b delta 2 part\nok absorbed\n  sent b 1 to a ack 2\nok removed (a,2)\nok (a,3) removed (a,2)\n  a stop web 1.1\n  a start web 1.2\nok sent\n  sent b 2 to a delta 2 part\nok known\n  sent a 2 to b ack 2\nok sent\n  sent a 3 to b push\nok absorbed\nnode a boot 1\nmember a (a,1) label=\nchild web (a,3) worker permanent 5000 arg=x on a\nkept web 1.2\nnode b boot 1\nmember a (a,1) label=\nchild web (a,3) worker permanent 5000 arg=x on a\n",
    );
}

pub(crate) const INTERVAL: &str =
    "nodes a b\nstart a x\nship a b\ndeliver a 1\nstop a\nrestart a\ndeliver b 1\nship a b\nstart a y\nship a b\n";

pub(crate) const INTERVAL_TOLD: &str =
    "ok (a,1)\nok sent\n  sent a 1 to b delta 1 part\nok absorbed\n  sent b 1 to a ack 1\nok stopped\nok boot 2\nok acked\nrefused 12 UpToDate\nok (a,2)\nok sent\n  sent a 2 to b delta 2 part\n";

#[test]
fn an_interval_after_a_restart_is_sent(rt: HostRuntime) {
    plays(&rt, INTERVAL, INTERVAL_TOLD);
}
