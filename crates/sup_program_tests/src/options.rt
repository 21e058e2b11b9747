//! Settings that are taken.
use crate::runs::expect;

const EMPTY: &[u8] = b"nodes a\nshow a\n";

const SHOWN: &[u8] = b"node a boot 1\n";

#[test]
fn settings_up_to_their_limits_are_taken(rt: HostRuntime) {
    for word in ["0", "1", "1000", "007", "+5", "0001000"] {
        expect(
            &rt,
            &["simulate", "--intensity", word],
            EMPTY,
            0,
            SHOWN,
            b"",
        );
    }
    for word in ["1", "1000000", "+1", "05"] {
        expect(&rt, &["simulate", "--period", word], EMPTY, 0, SHOWN, b"");
    }
    for word in ["1", "1024", "+64", "01"] {
        expect(&rt, &["simulate", "--buffer", word], EMPTY, 0, SHOWN, b"");
    }
}
