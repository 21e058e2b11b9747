//! Rows of restarts, of names and of members that come back. `bench/refused_stories.sh` runs them with each growth refused in
//! turn.
use crate::stage::plays;

#[test]
fn restarts_beyond_the_period_dont_count(rt: HostRuntime) {
    plays(
        &rt,
        "nodes a\njoin a\nstart a web\nexit a web 1.1 crash @10\nexit a web 1.2 crash @16\nshow a\n",
        "ok (a,1)\nok (a,2)\n  a start web 1.1\nok restarted\n  a start web 1.2\nok restarted\n  a start web 1.3\nnode a boot 1\nmember a (a,1) label=\nchild web (a,2) worker permanent 5000 arg= on a\nkept web 1.3\n",
    );
}

#[test]
fn restarts_the_period_apart_still_count(rt: HostRuntime) {
    plays(
        &rt,
        "nodes a\njoin a\nstart a web\nexit a web 1.1 crash @10\nexit a web 1.2 crash @15\nshow a\n",
        "ok (a,1)\nok (a,2)\n  a start web 1.1\nok restarted\n  a start web 1.2\nok gave up removed (a,1)\nnode a boot 1\nchild web (a,2) worker permanent 5000 arg= unplaced\n",
    );
}

#[test]
fn names_follow_their_child(rt: HostRuntime) {
    plays(
        &rt,
        "nodes a\njoin a\nstart a web\nregister a www web\nregister a www web\nregister a api db\nwhere a www\ndelete a web\nwhere a www\nunregister a www\n",
        "ok (a,1)\nok (a,2)\n  a start web 1.1\nok (a,3)\nrefused 8 NameTaken\nrefused 9 NoSuchChild\nwww web on a\nok removed (a,2) (a,3)\n  a stop web 1.1\nwww unknown\nrefused 10 NameUnknown\n",
    );
}

#[test]
fn a_member_leaves_rejoins_and_restarts(rt: HostRuntime) {
    plays(
        &rt,
        "nodes a\njoin a\nstart a web\nleave a a\njoin a label=back\nstop a\nrestart a\nshow a\n",
        "ok (a,1)\nok (a,2)\n  a start web 1.1\nok removed (a,1)\n  a stop web 1.1\nok (a,3)\n  a start web 1.2\nok stopped\nok boot 2\n  a start web 2.1\nnode a boot 2\nmember a (a,3) label=back\nchild web (a,2) worker permanent 5000 arg= on a\nkept web 2.1\n",
    );
}
