//! Images of many children.
use std::fmt::Write;
use std::process::Abort;

/// An image of 10,000 children, c10000 to c19999, under the dots (a,1) to (a,10000).
pub(crate) fn full(rt: &(impl Abort + AllocGlobal)) -> String {
    filled(rt, 10000)
}

/// An image of so many children, from c10000 on, under the dots from (a,1) on.
pub(crate) fn filled(rt: &(impl Abort + AllocGlobal), rows: u16) -> String {
    let mut image = String::new(rt.alloc());
    write!(
        image,
        "{{\"boot\":1,\"count\":{rows},\"ctx\":{{\"cloud\":[],\"vector\":{{\"a\":{rows}}}}},\"kind\":\"image\",\"node\":\"a\",\"rows\":["
    )
    .expect(rt, "room");
    for place in 0..rows {
        let counter = place as u32 + 1;
        let id = 9999 + counter;
        let front = if place == 0 { "" } else { "," };
        write!(image, "{front}[\"child\",\"c{id}\",[\"a\",{counter}],").expect(rt, "room");
        let spec =
            "{\"arg\":\"\",\"kind\":\"worker\",\"restart\":\"permanent\",\"shutdown\":5000}]";
        image.push_str(spec).expect(rt, "room");
    }
    image.push_str("],\"v\":1}").expect(rt, "room");
    image
}
