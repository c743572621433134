// The edges of the trace file (document 01, "The trace file", "Refusal numbers" and "Bench cases"), each on a line: what was done, and
// the number that it is refused with, 0 where it is accepted. `ports-17 4` is C1 with 17 for its ports, which is refused with 4. What
// the lines have to say stands in the file `stdout`, written by hand from document 01. What cannot be printed is left out.
#![tactic(auto)]

use base::{Refusal, refusal_of};
use layout::Header;
use std::fmt;

// What a room holds before anything is written into it. (No heap: rooms and tables are of fixed sizes.)
const BLANK: u8 = 170;

// What reading the first n bytes is refused with, and 99 where there are fewer: a number, since it stands in the line that is printed.
fn read(out: &[u8], n: usize) -> u32 {
    out.get(..n)
        .map_or(99, |part| refusal_of(trace::examine(part)))
}

// The byte at a place, and 256 past the end, as the line has it.
fn byte(s: &[u8], at: usize) -> u32 {
    s.get(at).map_or(256, |b| *b as u32)
}

// The low `width` bytes of v, low byte first.
fn put(out: &mut [u8], at: usize, width: usize, v: u32) {
    let bytes = v.to_le_bytes();
    if let Some(place) = out.get_mut(at..) {
        for (to, from) in place.iter_mut().zip(&bytes[..width.min(4)]) {
            *to = *from;
        }
    }
}

fn header(model: u32, order: u32, ports: u32, speedup: u32, slots: u32, arrivals: u32) -> Header {
    Header {
        model,
        order,
        ports,
        speedup,
        slots,
        arrivals,
    }
}

// A trace: its header's numbers, and what each capacity, each count and each port is. Its tables are as long as the header makes them.
#[derive(Clone, Copy)]
struct Sample {
    header: Header,
    capacity: u16,
    count: u16,
    port: u8,
}

impl Sample {
    fn of(header: Header, capacity: u16, count: u16, port: u8) -> Sample {
        Sample {
            header,
            capacity,
            count,
            port,
        }
    }

    fn write(self, out: &mut [u8]) -> Result<usize, Refusal> {
        let capacities = [self.capacity; 528];
        let counts = [self.count; 4096];
        let ports = [self.port; 8192];
        let k = layout::lay_out(self.header).map_or(0, |places| places.capacities);
        let s = self.header.slots as usize;
        let p = 2 * self.header.arrivals as usize;
        trace_write::write(
            self.header,
            &capacities[..k.min(528)],
            &counts[..s.min(4096)],
            &ports[..p.min(8192)],
            out,
        )
    }
}

impl fmt::Display for Sample {
    fn fmt<W: fmt::Write>(&self, f: &mut fmt::Formatter<W>) -> fmt::Result {
        let h = self.header;
        write!(
            f,
            "{}-{}-{}-{}-{}-{}-{}-{}-{}",
            h.model,
            h.order,
            h.ports,
            h.speedup,
            h.slots,
            h.arrivals,
            self.capacity,
            self.count,
            self.port
        )
    }
}

// C1 with this capacity, from tables of these lengths.
fn c1_of(capacity: u16, c: usize, s: usize, p: usize, out: &mut [u8]) -> u32 {
    let capacities = [capacity; 7];
    let counts = [4u16, 1, 0];
    let ports = [0u8, 0, 0, 0, 0, 1, 1, 0, 1, 1, 0];
    refusal_of(trace_write::write(
        header(1, 1, 2, 1, 2, 5),
        &capacities[..c.min(7)],
        &counts[..s.min(3)],
        &ports[..p.min(11)],
        out,
    ))
}

// C1, 66 bytes.
fn c1(out: &mut [u8]) -> u32 {
    c1_of(1, 6, 2, 10, out)
}

// C1 with each value in the `width` bytes at a place.
fn edges(rt: &impl Print, text: &str, at: usize, width: usize, values: &[u32]) {
    for v in values {
        let mut out = [0u8; 66];
        c1(&mut out);
        put(&mut out, at, width, *v);
        let _ = println!(rt; "{text}-{v} {}", read(&out, 66));
    }
}

fn kind_edges(rt: &impl Print) {
    edges(rt, "model", 0, 4, &[0, 1, 2, 3, 4294967295]);
    edges(rt, "order", 4, 4, &[0, 1, 2, 3, 4294967295]);
    edges(rt, "speedup", 12, 4, &[0, 1, 16, 17, 4294967295]);
}

fn size_edges(rt: &impl Print) {
    edges(rt, "ports", 8, 4, &[0, 1, 2, 16, 17, 4294967295]);
    edges(rt, "slots", 16, 4, &[0, 1, 2, 4096, 4097, 4294967295]);
    edges(rt, "arrivals", 20, 4, &[0, 4, 5, 4096, 4097, 4294967295]);
}

fn place_edges(rt: &impl Print) {
    edges(rt, "capacities-at", 24, 4, &[0, 39, 40, 41, 4294967295]);
    edges(rt, "counts-at", 28, 4, &[0, 51, 52, 53, 4294967295]);
    edges(rt, "arrivals-at", 32, 4, &[0, 55, 56, 57, 4294967295]);
    edges(rt, "total", 36, 4, &[0, 65, 66, 67, 4294967295]);
}

fn capacity_edges(rt: &impl Print) {
    edges(rt, "first-capacity", 40, 2, &[0, 1, 1024, 1025, 65535]);
    edges(rt, "last-capacity", 50, 2, &[0, 1, 1024, 1025, 65535]);
}

fn arrival_edges(rt: &impl Print) {
    edges(rt, "first-count", 52, 2, &[3, 4, 5]);
    edges(rt, "last-count", 54, 2, &[0, 1, 2]);
    edges(rt, "first-input", 56, 1, &[1, 2, 255]);
    edges(rt, "last-output", 65, 1, &[1, 2, 255]);
}

// C1 with two words changed: the first refusal decides.
fn pair(rt: &impl Print, a: usize, v: u32, b: usize, w: u32) {
    let mut out = [0u8; 66];
    c1(&mut out);
    put(&mut out, a, 4, v);
    put(&mut out, b, 4, w);
    let _ = println!(rt; "words-{a}-{v}-{b}-{w} {}", read(&out, 66));
}

fn pairs(rt: &impl Print) {
    pair(rt, 0, 0, 4, 3);
    pair(rt, 4, 3, 8, 17);
    pair(rt, 8, 0, 12, 0);
    pair(rt, 12, 17, 16, 4097);
    pair(rt, 16, 4097, 20, 4097);
    pair(rt, 20, 4097, 36, 67);
    pair(rt, 36, 67, 40, 0);
    pair(rt, 40, 0, 52, 3);
    pair(rt, 52, 3, 56, 4294967295);
}

// n bytes of C2, with this total in its header.
fn c2(rt: &impl Print, n: usize, total: u32) {
    let mut out = [0u8; 45];
    let _ = Sample::of(header(1, 1, 1, 1, 0, 0), 1, 0, 0).write(&mut out);
    put(&mut out, 36, 4, total);
    let _ = println!(rt; "c2-{n}-{total} {}", read(&out, n));
}

// The last is C3.
fn c2s(rt: &impl Print) {
    c2(rt, 0, 44);
    c2(rt, 39, 44);
    c2(rt, 43, 44);
    c2(rt, 44, 44);
    c2(rt, 45, 44);
    c2(rt, 45, 45);
}

fn lent(rt: &impl Print, capacity: u16, c: usize, s: usize, p: usize) {
    let mut out = [0u8; 66];
    let n = c1_of(capacity, c, s, p, &mut out);
    let _ = println!(rt; "lent-{capacity}-{c}-{s}-{p} {n}");
}

fn lengths(rt: &impl Print) {
    lent(rt, 1, 6, 2, 10);
    lent(rt, 1, 5, 2, 10);
    lent(rt, 1, 7, 2, 10);
    lent(rt, 1, 6, 1, 10);
    lent(rt, 1, 6, 3, 10);
    lent(rt, 1, 6, 2, 9);
    lent(rt, 1, 6, 2, 11);
    lent(rt, 0, 6, 2, 10);
    lent(rt, 0, 5, 2, 10);
}

// C1 into a room of n bytes; the first byte that it leaves there, and the byte behind C1.
fn room(rt: &impl Print, n: usize) {
    let mut out = [BLANK; 67];
    let refused = c1(&mut out[..n.min(67)]);
    let _ = println!(rt; "room-{n} {refused}");
    let _ = println!(rt; "room-first-{n} {}", byte(&out, 0));
    let _ = println!(rt; "room-behind-{n} {}", byte(&out, 66));
}

fn rooms(rt: &impl Print) {
    room(rt, 0);
    room(rt, 65);
    room(rt, 66);
    room(rt, 67);
}

fn show(rt: &impl Print, text: &str, c: Sample, n: u32) {
    let _ = println!(rt; "{text}-{c} {n}");
}

// A trace that is written and read; read with a byte less and with a byte more, it is refused.
fn good(rt: &impl Print, c: Sample) {
    let mut out = [BLANK; 17481];
    let w = c.write(&mut out);
    let n = w.unwrap_or(0).min(17480);
    show(rt, "write", c, refusal_of(w));
    show(rt, "bytes", c, n as u32);
    show(rt, "read", c, read(&out, n));
    show(rt, "short", c, read(&out, n.saturating_sub(1)));
    show(rt, "long", c, read(&out, n + 1));
    show(rt, "behind", c, byte(&out, n));
}

// The first is C2, the last the longest file.
fn goods(rt: &impl Print) {
    good(rt, Sample::of(header(1, 1, 1, 1, 0, 0), 1, 0, 0));
    good(rt, Sample::of(header(2, 0, 1, 1, 0, 0), 1, 0, 0));
    good(rt, Sample::of(header(1, 2, 2, 16, 2, 4), 1024, 2, 1));
    good(rt, Sample::of(header(1, 0, 16, 1, 1, 1), 1, 1, 15));
    good(rt, Sample::of(header(1, 0, 1, 1, 4096, 0), 1, 0, 0));
    good(rt, Sample::of(header(1, 0, 1, 1, 1, 4096), 1, 4096, 0));
    good(
        rt,
        Sample::of(header(2, 2, 16, 16, 4096, 4096), 1024, 1, 15),
    );
}

// A trace that the writer refuses: it leaves the output as it was.
fn bad(rt: &impl Print, c: Sample) {
    let mut out = [BLANK; 17480];
    let w = c.write(&mut out);
    show(rt, "write", c, refusal_of(w));
    show(rt, "first", c, byte(&out, 0));
}

fn bad_headers(rt: &impl Print) {
    bad(rt, Sample::of(header(0, 1, 2, 1, 2, 2), 1, 1, 0));
    bad(rt, Sample::of(header(3, 1, 2, 1, 2, 2), 1, 1, 0));
    bad(rt, Sample::of(header(1, 3, 2, 1, 2, 2), 1, 1, 0));
    bad(rt, Sample::of(header(1, 1, 0, 1, 2, 2), 1, 1, 0));
    bad(rt, Sample::of(header(1, 1, 17, 1, 2, 2), 1, 1, 0));
    bad(rt, Sample::of(header(1, 1, 2, 0, 2, 2), 1, 1, 0));
    bad(rt, Sample::of(header(1, 1, 2, 17, 2, 2), 1, 1, 0));
    bad(rt, Sample::of(header(1, 1, 2, 1, 4097, 2), 1, 1, 0));
    bad(rt, Sample::of(header(1, 1, 2, 1, 2, 4097), 1, 1, 0));
}

fn bad_tables(rt: &impl Print) {
    let h = header(1, 1, 2, 1, 2, 2);
    bad(rt, Sample::of(h, 0, 1, 0));
    bad(rt, Sample::of(h, 1025, 1, 0));
    bad(rt, Sample::of(h, 1, 0, 0));
    bad(rt, Sample::of(h, 1, 2, 0));
    bad(rt, Sample::of(h, 1, 1, 2));
    bad(rt, Sample::of(h, 0, 2, 2));
    bad(rt, Sample::of(h, 1, 2, 2));
}

// The same into too little room, which is refused last.
fn cramped(rt: &impl Print, c: Sample) {
    let mut out = [BLANK; 1];
    show(rt, "cramped", c, refusal_of(c.write(&mut out)));
}

fn all_cramped(rt: &impl Print) {
    let h = header(1, 1, 2, 1, 2, 2);
    cramped(rt, Sample::of(h, 1, 1, 0));
    cramped(rt, Sample::of(h, 1, 1, 2));
}

fn main(rt: HostRuntime) {
    c2s(&rt);
    kind_edges(&rt);
    size_edges(&rt);
    place_edges(&rt);
    capacity_edges(&rt);
    arrival_edges(&rt);
    pairs(&rt);
    goods(&rt);
    bad_headers(&rt);
    bad_tables(&rt);
    all_cramped(&rt);
    lengths(&rt);
    rooms(&rt);
}
