//! A history as `reference/history.py` wrote it beside a real node, which was killed twice in the midst of an act.
use crate::shapes::shape;

const RECORDED: &str = "
begin a flat 1 20 64 0
>ok boot 1
>
<ship c
>refused 12 UpToDate
>
<start 0 kind=http
>ok (a,1)
>
<delete web
>refused 5 NotFound
>
<start mail
>ok (a,2)
>
<exit 0 1.1 failed @10
>refused 14 StaleExit
>
<start db
>ok (a,3)
>
<exit web 1.1 crash @12
>refused 14 StaleExit
>
<exit mail 1.1 crash @12
>refused 14 StaleExit
>
<start web shutdown=infinity
>ok (a,4)
>
<push a
>refused 3 UnknownNode
>
<replace cron arg=port=80
>refused 5 NotFound
>
<start cron arg=port=80
>ok (a,5)
>
<exit mail 1.1 crash @22
>refused 14 StaleExit
>
<exit 0 1.1 failed @32
>refused 14 StaleExit
>
<join label=rack-1
>ok (a,6)
>  start 0 1.1 http permanent 5000 arg=
>  start cron 1.2 worker permanent 5000 arg=port=80
>  start db 1.3 worker permanent 5000 arg=
>  start mail 1.4 worker permanent 5000 arg=
>  start web 1.5 worker permanent infinity arg=
>
<replace db restart=transient
>ok (a,7) removed (a,3)
>  stop db 1.3
>  start db 1.6 worker transient 5000 arg=
>
<deliver {\"ctx\":{\"cloud\":[],\"vector\":{\"b\":1}},\"from\":\"b\",\"kind\":\"delta\",\"n\":1,\"rows\":[[\"member\",\"b\",[\"b\",1],{\"label\":\"\",\"status\":\"open\"}]],\"to\":\"a\",\"v\":2}

begin a flat 1 20 64 8
>ok boot 2
>  start 0 2.1 http permanent 5000 arg=
>  start cron 2.2 worker permanent 5000 arg=port=80
>  start db 2.3 worker transient 5000 arg=
>  start mail 2.4 worker permanent 5000 arg=
>  start web 2.5 worker permanent infinity arg=
>
<drain e_2
>refused 7 NotMember
>
<replace web restart=transient

begin a flat 1 20 64 9
>ok boot 3
>  start 0 3.1 http permanent 5000 arg=
>  start cron 3.2 worker permanent 5000 arg=port=80
>  start db 3.3 worker transient 5000 arg=
>  start mail 3.4 worker permanent 5000 arg=
>  start web 3.5 worker transient 5000 arg=
>
<exit mail 1.1 crash @79
>refused 14 StaleExit
>
<start db shutdown=infinity
>refused 4 AlreadyPresent
>
<join
>refused 6 AlreadyMember
>
<start mail
>refused 4 AlreadyPresent
>
";

#[test]
fn a_real_history_has_its_sessions_and_the_acts_in_which_its_node_was_killed(rt: HostRuntime) {
    let wanted =
        "[2,3. 5,6. 8,9. 11,12. 14,15. 17,18. 20,21. 23,24. 26,27. 29,30. 32,33. 35,36. 38,39. 41,42. \
        44,45. 47,48,49,50,51,52,53. 55,56,57,58. 60?]\
        [62,63,64,65,66,67,68. 70,71. 73?]\
        [75,76,77,78,79,80,81. 83,84. 86,87. 89,90. 92,93.]";
    match shape(&rt, RECORDED.as_bytes()) {
        Ok(found) => assert_eq!(rt; found.as_str(), wanted),
        Err(fault) => panic!(rt; "{fault}"),
    }
}
