//! Images that are read, and texts that are none.
use std::process::Abort;
use sup_still::Still;
use sup_wire::WireFault;

const IMAGE: &[u8] = b"\
    {\"boot\":1,\"count\":2,\"ctx\":{\"cloud\":[],\"vector\":{\"a\":2}},\"kind\":\"image\",\
    \"node\":\"a\",\"rows\":[[\"member\",\"a\",[\"a\",1],{\"label\":\"\"}],[\"child\",\"web\",\
    [\"a\",2],{\"arg\":\"\",\"kind\":\"worker\",\"restart\":\"permanent\",\"shutdown\":5000}]],\
    \"v\":1}";

// The same in version 2.
const NEW_IMAGE: &[u8] = b"\
    {\"boot\":1,\"count\":2,\"ctx\":{\"cloud\":[],\"vector\":{\"a\":2}},\"kind\":\"image\",\
    \"node\":\"a\",\"rows\":[[\"member\",\"a\",[\"a\",1],{\"label\":\"\",\"status\":\"open\"}],\
    [\"child\",\"web\",[\"a\",2],{\"arg\":\"\",\"kind\":\"worker\",\"restart\":\"permanent\",\
    \"shutdown\":5000}]],\"v\":2}";

fn expect_told(rt: &(impl Abort + AllocGlobal), text: &[u8]) {
    let still = Still::read(rt.alloc(), text).expect(rt, "an image");
    assert!(rt; still.node().as_str() == "a");
    assert!(rt; still.boot() == 1);
    assert!(rt; still.count() == 2);
    assert!(rt; still.tables().row_count() == 2);
}

#[test]
fn an_image_tells_whose_it_is_and_its_numbers_as_they_were_stored(rt: HostRuntime) {
    expect_told(&rt, IMAGE);
    expect_told(&rt, NEW_IMAGE);
}

fn expect_fault(rt: &(impl Abort + AllocGlobal), text: &[u8], wanted: WireFault) {
    assert!(rt; Still::read(rt.alloc(), text).err() == Some(wanted));
}

#[test]
fn a_text_that_is_no_image_is_told_by_its_first_fault(rt: HostRuntime) {
    expect_fault(&rt, b"{", WireFault::NotJson);
    expect_fault(
        &rt,
        b"{\"from\":\"b\",\"kind\":\"ack\",\"n\":1,\"to\":\"a\",\"v\":1}",
        WireFault::NotMessage,
    );
    expect_fault(&rt, b"{\"v\":2}", WireFault::NotMessage);
    expect_fault(&rt, b"{\"v\":9}", WireFault::BadVersion);
    expect_fault(
        &rt,
        b"\
        {\"boot\":1,\"count\":0,\"ctx\":{\"cloud\":[[\"a\",1]],\"vector\":{}},\"kind\":\"image\",\
        \"node\":\"a\",\"rows\":[],\"v\":1}",
        WireFault::NotCanonical,
    );
}
