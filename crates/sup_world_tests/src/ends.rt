//! Worlds at their limits: the longest texts, and as many nodes as there may be.
use crate::stage::plays;
use std::process::Abort;

/// Of capital letters, N and M stand for the longest names of a node and of a child, I for the longest id, K for the longest
/// kind, and T for the longest text.
const LONGEST: &str =
    "nodes N b\njoin N label=T\nstart N I kind=K arg=T\nregister N M I\nship N b\ndeliver N 1\nstop b\nrestart b\nshow b\nwhere b M\n";

const LONGEST_TOLD: &str =
    "ok (N,1)\nok (N,2)\n  N start I 1.1\nok (N,3)\nok sent\n  sent N 1 to b delta 3 part\nok absorbed\n  sent b 1 to N ack 3\nok stopped\nok boot 2\nnode b boot 2\nmember N (N,1) label=T\nchild I (N,2) K permanent 5000 arg=T on N\nname M (N,3) I on N\nM I on N\n";

/// Sixteen members, of which the last one starts a child that belongs to the first.
const SIXTEEN: &str =
    "nodes a b c d e f g h i j k l m n o p\njoin a\njoin b\njoin c\njoin d\njoin e\njoin f\njoin g\njoin h\njoin i\njoin j\njoin k\njoin l\njoin m\njoin n\njoin o\njoin p\nstart p web\nsettle\nshow p\n";

const SIXTEEN_TOLD: &str =
    "ok (a,1)\nok (b,1)\nok (c,1)\nok (d,1)\nok (e,1)\nok (f,1)\nok (g,1)\nok (h,1)\nok (i,1)\nok (j,1)\nok (k,1)\nok (l,1)\nok (m,1)\nok (n,1)\nok (o,1)\nok (p,1)\nok (p,2)\n  p start web 1.1\nok settled 60\n  a start web 1.1\n  p stop web 1.1\nnode p boot 1\nmember a (a,1) label=\nmember b (b,1) label=\nmember c (c,1) label=\nmember d (d,1) label=\nmember e (e,1) label=\nmember f (f,1) label=\nmember g (g,1) label=\nmember h (h,1) label=\nmember i (i,1) label=\nmember j (j,1) label=\nmember k (k,1) label=\nmember l (l,1) label=\nmember m (m,1) label=\nmember n (n,1) label=\nmember o (o,1) label=\nmember p (p,1) label=\nchild web (p,2) worker permanent 5000 arg= on a\n";

// Puts this behind the text so many times.
fn put_times(rt: &impl Abort, text: &mut String, more: &str, times: u32) {
    for _ in 0..times {
        text.push_str(more).expect(rt, "room");
    }
}

fn put_letter(rt: &impl Abort, text: &mut String, letter: char) {
    match letter {
        'N' => put_times(rt, text, "n", 64),
        'M' => put_times(rt, text, "www.", 32),
        'I' => put_times(rt, text, "~id!", 32),
        'K' => put_times(rt, text, "\\\"", 64),
        'T' => put_times(rt, text, "t=\"\\", 256),
        letter => text.push(letter).expect(rt, "room"),
    }
}

// The text with the words that its capital letters stand for.
fn filled(rt: &(impl Abort + AllocGlobal), text: &str) -> String {
    let mut all = String::new(rt.alloc());
    for letter in text.chars() {
        put_letter(rt, &mut all, letter);
    }
    all
}

#[test]
fn the_longest_texts_travel_and_outlive_a_restart(rt: HostRuntime) {
    let script = filled(&rt, LONGEST);
    let told = filled(&rt, LONGEST_TOLD);
    plays(&rt, script.as_str(), told.as_str());
}

#[test]
fn sixteen_members_settle(rt: HostRuntime) {
    plays(&rt, SIXTEEN, SIXTEEN_TOLD);
}
