//! Words, and what they set.

use std::process::Abort;
use sup_command_line::Weighing;
use sup_replica::Config;
use sup_supd::read_settings;

fn expect(
    rt: &(impl Abort + AllocGlobal),
    words: &[&str],
    name: &str,
    image: &str,
    weighing: Weighing,
    config: Option<Config>,
) {
    match read_settings(words) {
        Some(settings) => {
            assert!(rt; settings.name.as_str() == name && settings.image == image);
            assert!(rt; settings.weighing == weighing);
            assert!(rt; Some(settings.config) == config);
        }
        None => rt.panic("settings"),
    }
}

#[test]
fn options_stand_in_any_order_and_have_defaults(rt: HostRuntime) {
    expect(
        &rt,
        &["a", "--image", "x"],
        "a",
        "x",
        Weighing::Sha256,
        Config::new(1, 5, 64),
    );
    expect(
        &rt,
        &[
            "b-1",
            "--buffer",
            "8",
            "--period",
            "60",
            "--image",
            "/x/y",
            "--intensity",
            "0",
            "--weigh",
            "flat",
        ],
        "b-1",
        "/x/y",
        Weighing::Flat,
        Config::new(0, 60, 8),
    );
}

#[test]
fn other_words_set_nothing(rt: HostRuntime) {
    assert!(rt; read_settings(&[]).is_none());
    assert!(rt; read_settings(&["a"]).is_none());
    assert!(rt; read_settings(&["a", "--image"]).is_none());
    assert!(rt; read_settings(&["A", "--image", "x"]).is_none());
    assert!(rt; read_settings(&["--image", "x"]).is_none());
    assert!(rt; read_settings(&["a", "--image", "x", "--image", "y"]).is_none());
    assert!(rt; read_settings(&["a", "--image", "x", "--color", "y"]).is_none());
    assert!(rt; read_settings(&["a", "--image", "x", "--weigh", "md5"]).is_none());
    assert!(rt; read_settings(&["a", "--image", "x", "--intensity", "1001"]).is_none());
    assert!(rt; read_settings(&["a", "--image", "x", "--period", "0"]).is_none());
    assert!(rt; read_settings(&["a", "--image", "x", "--buffer", "1025"]).is_none());
    assert!(rt; read_settings(&["a", "--image", "x", "--buffer", "+8"]).is_none());
}
