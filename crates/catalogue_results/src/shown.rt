// What reading gives, and what writing leaves, in lines of numbers.
ghost use Rattle.std.specs.Prelude.{◌≤◌};

use catalogue_records::{Catalogue, Entry, Form};
use cli_output::Say;
use refusals::Refused;

// Writes a blank and n.
fn field(rt: &(impl Print + Say), n: u64) {
    let _ = rt.write_all(b" ");
    cli_output::number(rt, n);
}

// Writes the refusal and its place.
fn refused(rt: &(impl Print + Say), r: Refused) {
    let _ = rt.write_all(b"refused");
    field(rt, r.refusal.number());
    field(rt, r.place as u64);
    cli_output::newline(rt);
}

// Writes a blank and z.
fn coordinate(rt: &(impl Print + Say), z: i64) {
    let _ = rt.write_all(b" ");
    cli_output::signed(rt, z);
}

// Writes the coordinates at all places.
fn vectors(rt: &(impl Print + Say), coordinates: &[i64]) {
    for z in coordinates {
        coordinate(rt, *z);
    }
    cli_output::newline(rt);
}

// Writes an entry: number, d, m and place, whether its head is new, whether it is a draft, the see word's number and place, the coordinates.
fn entry(rt: &(impl Print + Say), e: &Entry) {
    let _ = rt.write_all(b"entry");
    field(rt, e.number as u64);
    field(rt, e.d as u64);
    field(rt, e.m as u64);
    field(rt, e.place as u64);
    if e.form == Form::New {
        let _ = rt.write_all(b" new");
    }
    if e.draft {
        let _ = rt.write_all(b" draft");
    }
    if let Some(s) = e.see {
        let _ = rt.write_all(b" see");
        field(rt, s.number as u64);
        field(rt, s.place as u64);
    }
    cli_output::newline(rt);
    let _ = rt.write_all(b"v");
    vectors(rt, &e.coordinates);
}

// Writes the first entries.
fn entries(rt: &(impl Print + Say), all: &[Entry]) {
    for e in &all[..all.len().min(5)] {
        entry(rt, e);
    }
}

// A byte as a number.
fn wide(b: u8) -> u64
    ensures { result ≤ 255 }
{
    b as u64
}

// A number that tells lists of bytes apart.
fn digest(bytes: &[u8]) -> u64
    ensures { result ≤ 65520 }
{
    let mut s = 0;
    for b in bytes {
        s = (s * 31 + wide(*b) + 1) % 65521;
    }
    s
}

// Writes the outcome of writing to the lent room, and the digest of the room afterwards.
fn copied(rt: &(impl Print + Say), bytes: &[u8], room: &mut [u8]) {
    match catalogue::write_out(bytes, room) {
        Ok(n) => {
            let _ = rt.write_all(b"written");
            field(rt, n as u64);
            cli_output::newline(rt);
        }
        Err(r) => refused(rt, r),
    }
    let _ = rt.write_all(b"out");
    field(rt, digest(room));
    cli_output::newline(rt);
}

// Lends this many bytes.
fn lend(rt: &(impl Print + Say), bytes: &[u8], n: usize) {
    let mut room = [170u8; 36872];
    if n <= 36872 {
        copied(rt, bytes, &mut room[..n]);
    }
}

// Writes the entries of accepted bytes, and what writing them leaves.
fn accepted(rt: &(impl Print + Say), all: &[Entry], bytes: &[u8]) {
    let _ = rt.write_all(b"read");
    field(rt, all.len() as u64);
    cli_output::newline(rt);
    entries(rt, all);
    let n = bytes.len();
    if 0 < n && n <= Catalogue::MOST_BYTES {
        lend(rt, bytes, n + 4);
        lend(rt, bytes, n);
        lend(rt, bytes, n - 1);
    }
}

// Writes the name of some bytes, what reading gives, and what writing leaves: with room beyond, and where they are accepted with room that is
// just long enough, and with one byte less.
pub(crate) fn outcome(rt: &(impl Print + Say), name: &[u8], bytes: &[u8]) {
    let _ = rt.write_all(name);
    cli_output::newline(rt);
    match catalogue::read(bytes) {
        Ok(c) => accepted(rt, c.list(), bytes),
        Err(r) => {
            refused(rt, r);
            lend(rt, bytes, 4);
        }
    }
}
