//! Checksums that are published with FNV-1a.

use sup_journal::checksum;

#[test]
fn checksums_are_the_published_ones(rt: HostRuntime) {
    let published = [
        (b"".as_slice(), 0xcbf2_9ce4_8422_2325u64),
        (b"a".as_slice(), 0xaf63_dc4c_8601_ec8c),
        (b"b".as_slice(), 0xaf63_df4c_8601_f1a5),
        (b"fo".as_slice(), 0x0898_5907_b541_d342),
        (b"foo".as_slice(), 0xdcb2_7518_fed9_d577),
        (b"foobar".as_slice(), 0x8594_4171_f739_67e8),
    ];
    for (octets, wanted) in published {
        assert_eq!(rt; checksum(octets), wanted);
    }
}
