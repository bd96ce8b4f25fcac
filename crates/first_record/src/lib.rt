// The first record of a sector.
#![tactic(auto)]

ghost use Rattle.std.specs.Prelude.{◌≡◌, ◌+◌, ◌<◌, ◌≤◌, length};
ghost use Rattle.rules.specs.FirstRecord.{first_record, frames, packets, time_at};

use rules::{Absence, First, TimeBytes};

// How many frames start in a sector, by its header byte.
fn frames_of(header: u8) -> u8
    ensures { result ≡ frames header }
{
    (header >> 2) & 7
}

// How many packets a sector has, by its header byte.
fn packets_of(header: u8) -> usize
    ensures { (result ≡ packets header) × (result < 8) }
{
    (header >> 5) as usize
}

// The frame number in the three bytes from r on.
#[tactic(auto, unfolding(rules::specs::FirstRecord::time_at))]
fn time_at(sector: &[u8], r: usize) -> u32
    requires { r + 3 ≤ length sector.now }
    ensures { result ≡ time_at sector.now r }
{
    (u32::from(sector[r]) * 60 + u32::from(sector[r + 1])) * 75 + u32::from(sector[r + 2])
}

// The first record of a sector: its frame number and where its three bytes lie, or why there is none.
#[tactic(auto, unfolding(rules::specs::FirstRecord::first_record))]
pub fn first_record(sector: &[u8]) -> First
    ensures { result ≡ first_record sector.now }
{
    let Some(&header) = sector.first() else {
        return First::Nothing(Absence::Missing);
    };
    if frames_of(header) == 0 {
        return First::Nothing(Absence::NoFrame);
    }
    let r = 1 + 2 * packets_of(header);
    if sector.len() < r + 3 {
        return First::Nothing(Absence::Missing);
    }
    First::Number(TimeBytes {
        number: time_at(sector, r),
        offset: r as u32,
    })
}
