//! Steps that are refused, and why: rows.
use crate::stage::plays;

#[test]
fn each_refusal_has_its_place(rt: HostRuntime) {
    plays(
        &rt,
        "nodes a b\nleave a b\ndelete a x\nreplace a x\njoin a\njoin a\npush b a\nship a a\nship b a\ndeliver a 9\nstart zed x\nstop b\nstop b\nstart b x\nrestart a\nraw a {}\nraw a {\"from\":\"b\",\"kind\":\"ack\",\"n\":1,\"to\":\"a\",\"v\":1}\n",
        "refused 7 NotMember\nrefused 5 NotFound\nrefused 5 NotFound\nok (a,1)\nrefused 6 AlreadyMember\nrefused 22 NothingToPush\nrefused 3 UnknownNode\nrefused 12 UpToDate\nrefused 13 NoSuchMessage\nrefused 3 UnknownNode\nok stopped\nrefused 1 Down\nrefused 1 Down\nrefused 2 AlreadyUp\nrefused 17 BadMessage\nrefused 13 NoSuchMessage\n",
    );
}

#[test]
fn raw_words_of_both_versions_are_messages(rt: HostRuntime) {
    plays(
        &rt,
        "nodes a\nraw a {\"from\":\"b\",\"kind\":\"ack\",\"n\":1,\"to\":\"a\",\"v\":2}\nraw a {\"from\":\"b\",\"kind\":\"ack\",\"n\":1,\"to\":\"a\",\"v\":1}\nraw a {\"from\":\"b\",\"kind\":\"ack\",\"n\":1,\"to\":\"a\",\"v\":3}\n",
        "refused 13 NoSuchMessage\nrefused 13 NoSuchMessage\nrefused 17 BadMessage\n",
    );
}
