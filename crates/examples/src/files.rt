// Examples of loading and saving.
use crate::lines;
use crate::tally::Tally;
use rules::{Area, AreaIndex, AreaKey, Fingerprint, Made};
use save::layout::saved_length;

// An area without sectors.
fn area() -> Area {
    let key = AreaKey {
        slot: 0,
        start: 1000,
        end: 999,
        channels: 2,
        sectors: 5000,
    };
    Area {
        key,
        start: 1000,
        end: 1000,
    }
}

// The number with which loading refuses, 0 where it accepts; in tables without room.
fn refusal(bytes: &[u8]) -> u64 {
    let mut checkpoints = [0u8; 1];
    let mut frames = [0u8; 1];
    let mut store = [0u8; 1];
    let mut parts = [0u8; 1];
    let mut malformed = [0u8; 1];
    let mut hints = [0u8; 1];
    let mut confirmed = [0u8; 1];
    let loaded = load::from_bytes(
        area(),
        bytes,
        0,
        &mut checkpoints,
        &mut frames,
        &mut store,
        &mut parts,
        &mut malformed,
        &mut hints,
        &mut confirmed,
    );
    match loaded {
        Made::Refused(n) => n as u64,
        Made::Index(_) => 0,
    }
}

// The length of the file of a new list without sectors, under the hint limit M.
fn length_of(most: u32) -> u64 {
    let none = [0u8; 1];
    let x = AreaIndex {
        area: area(),
        interval: 64,
        budget: 0,
        spacing: 8,
        most,
        checkpoints: 0,
        frames: 0,
        parts: 0,
        malformed: 0,
        hints: 0,
        confirmed: 0,
        ending: None,
        fingerprint: Fingerprint::Unknown,
        image: None,
    };
    saved_length(x, &none)
}

// The shortest file, with another sum, and of version 5 with its sum: in tables without room.
fn shortest(rt: &HostRuntime, t: Tally) -> Tally {
    let file =
        b"SBSEEKIX\x01\0\0\0\0\x02\0\0\xe8\x03\0\0\xe7\x03\0\0\x88\x13\0\0\0\0\0\0\x40\0\0\0\0\0\0\0\0\0\0\0\0\0\0\0\0\0\0\0\0\0\0\0\0\0\0\0\0\0\0\0\0\0\0\0\0\0\0\0\0\0\0\0\0\0\0\0\x8c\xfb\x39\xef\xec\x30\x75\x99";
    let t = lines::decimal(
        rt,
        t,
        b"the shortest file, loaded in tables without room",
        refusal(file),
        3,
    );
    let damaged =
        b"SBSEEKIX\x01\0\0\0\0\x02\0\0\xe8\x03\0\0\xe7\x03\0\0\x88\x13\0\0\0\0\0\0\x40\0\0\0\0\0\0\0\0\0\0\0\0\0\0\0\0\0\0\0\0\0\0\0\0\0\0\0\0\0\0\0\0\0\0\0\0\0\0\0\0\0\0\0\0\0\0\0\x8d\xfb\x39\xef\xec\x30\x75\x99";
    let t = lines::decimal(rt, t, b"with another sum", refusal(damaged), 22);
    let newer =
        b"SBSEEKIX\x05\0\0\0\0\x02\0\0\xe8\x03\0\0\xe7\x03\0\0\x88\x13\0\0\0\0\0\0\x40\0\0\0\0\0\0\0\0\0\0\0\0\0\0\0\0\0\0\0\0\0\0\0\0\0\0\0\0\0\0\0\0\0\0\0\0\0\0\0\0\0\0\0\0\0\0\0\x38\x01\x0a\xf9\xfc\x79\x22\xf7";
    lines::decimal(rt, t, b"of version 5", refusal(newer), 23)
}

pub fn examples(rt: &HostRuntime, t: Tally) -> Tally {
    let t = lines::decimal(rt, t, b"7 bytes, loaded", refusal(b"SBSEEKI"), 20);
    let t = lines::decimal(rt, t, b"8 bytes, loaded", refusal(b"SBSEEKIX"), 21);
    let t = shortest(rt, t);
    let t = lines::decimal(rt, t, b"length of the shortest file", length_of(2048), 88);
    lines::decimal(
        rt,
        t,
        b"length with the hint limit 65,537",
        length_of(65537),
        120,
    )
}
