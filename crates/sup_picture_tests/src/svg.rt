//! Texts of pictures.
use crate::given::one_row;
use sup_svg::svg_of;

#[test]
fn a_text_is_escaped_and_the_first_line_of_an_answer_is_seen(rt: HostRuntime) {
    let picture = one_row(&rt, "raw a <&>'\"", "ok sent\n  sent a 1 to b push\n");
    let text = svg_of(rt.alloc(), &picture).expect(&rt, "room");
    let text = text.as_str();
    assert!(rt;
        text.contains("<text class='line' x='8' y='74'>raw a &lt;&amp;&gt;&apos;&quot;</text>\n")
    );
    assert!(rt;
        text.contains(
            "<circle class='done' cx='350' cy='70' r='5'><title>ok sent\n  sent a 1 to b push\n</title></circle>\n"
        )
    );
    assert!(rt; text.contains("<text class='yes' x='360' y='65'>ok sent</text>\n"));
}

#[test]
fn a_picture_begins_with_its_size_and_ends_with_its_root(rt: HostRuntime) {
    let picture = one_row(&rt, "join a", "ok (a,1)\n");
    let text = svg_of(rt.alloc(), &picture).expect(&rt, "room");
    let text = text.as_str();
    let head =
        "<svg xmlns='http://www.w3.org/2000/svg' viewBox='0 0 894 116' width='894' height='116'>\n";
    assert!(rt; text.starts_with(head));
    assert!(rt; text.ends_with("</svg>\n"));
    assert!(rt; text.contains("<text class='name' x='547' y='38'>b</text>\n"));
}
