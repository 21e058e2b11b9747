//! Clusters whose nodes stop while threads run.
use crate::runs::expect;

const SCRIPT: &[u8] = b"\
nodes a b
start a x
stop a
restart a
start b y
ship b a
";

const OUTPUT: &[u8] = b"\
certified
node a
child x (a,1) worker permanent 5000 arg= unplaced
child y (b,1) worker permanent 5000 arg= unplaced
node b
child x (a,1) worker permanent 5000 arg= unplaced
child y (b,1) worker permanent 5000 arg= unplaced
";

#[test]
fn a_hundred_clusters_with_a_node_that_stops_and_restarts_print_the_same(rt: HostRuntime) {
    for _ in 0..100 {
        expect(&rt, &["cluster", "--weigh", "flat"], SCRIPT, 0, OUTPUT, b"");
    }
}
