//! The default time.

use gixobj_base::date::{Time, TimeBuf};

#[test]
fn default_time_is_epoch(rt: HostRuntime) {
    assert!(rt; Time::new(0, 0) == Some(Time::default()));
    let mut buf = TimeBuf::default();
    assert!(rt; buf.as_str() == "");
    assert!(rt; Time::default().to_str(&mut buf) == "0 +0000");
    assert!(rt; buf.as_str() == "0 +0000");
}
