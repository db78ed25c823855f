// Standard error.
ghost use Rattle.std.specs.Prelude.{◌≡◌, ◌+◌, ◌-◌, ◌≤◌, length};

use std::io::Write;
use std::{io, str};

// What writes to standard error. A write that fails there can be said nowhere.
pub trait Say {
    fn say(&self, bytes: &[u8]);
}

impl Say for HostRuntime {
    fn say(&self, bytes: &[u8]) {
        let _ = self.stderr().write_all(bytes);
    }
}

// Says n.
pub fn say_number(rt: &impl Say, n: u64) {
    let mut text = [0u8; 20];
    let k = super::put_number(&mut text, 0, n);
    rt.say(&text[..k]);
}

// Says in a line what failed, a colon, and the system's words for why.
pub fn fail(rt: &impl Say, what: &[u8], error: io::Error) {
    let mut text = [0u8; 128];
    let mut rest: &mut [u8] = &mut text;
    let _ = write!(rest, "{error}");
    let end = 128 - rest.len().min(128);
    let whole = str::from_utf8(&text[..end]).unwrap_or("");
    let words = whole
        .split_once(" (os error ")
        .map_or(whole, |(before, _)| before);
    rt.say(what);
    rt.say(b": ");
    rt.say(words.as_bytes());
    rt.say(b"\n");
}
