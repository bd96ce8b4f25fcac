// What a limit leaves of an accepted file.
ghost use Rattle.std.specs.Prelude.{◌≡◌, ◌+◌, ◌*◌, ◌≤◌, length, drop};
ghost use Rattle.rules.specs.Load.{fitting, within};
ghost use Rattle.tables.specs.Tables.{parts_in};
ghost use Rattle.tables.specs.Files.{place_at, frames_read};
ghost use Rattle.tables.specs.Index.{numbers_from};
ghost use Rattle.load.specs.Limit.{Accepts, limited_in};

use crate::places::{frames_from, next_frame, parts_from};
use field::read_u32;
use inspect::Found;
use rules::{Area, AreaIndex};
use tables::{behind, read_held};

// Of the f frames of b from at on, how many first ones fit the budget together.
fn fit_frames(b: &[u8], at: usize, f: u32, budget: u64) -> u32
    requires { place_at b.now at f ≤ length b.now }
    ensures { result ≡ length (fitting budget (frames_read f (drop at b.now))) }
{
    let mut here = at;
    let mut used = 0;
    for i in 0..f {
        let len = read_u32(b, here + 4);
        if budget - used < len as u64 {
            return i;
        }
        here = next_frame(here, len as usize);
        used += len as u64;
    }
    f
}

// Of the h parts of b from at on, how many come before one of a frame past the first n.
fn within_parts(b: &[u8], at: usize, h: u32, n: u32) -> u32
    requires { at + h * 24 ≤ length b.now }
    ensures { result ≡ length (within n (parts_in h (drop at b.now))) }
{
    let section = behind(b, at);
    for j in 0..h {
        if n <= read_held(section, j as usize).frame {
            return j;
        }
    }
    h
}

// The numbers of the limited list of an accepted file.
pub fn limited(area: Area, found: Found, bytes: &[u8], limit: u64) -> AreaIndex
    requires { Accepts area bytes.now found }
    ensures { result ≡ numbers_from (limited_in area bytes.now limit) }
{
    let x = found.index;
    let budget = x.budget.min(limit);
    let frames = fit_frames(bytes, frames_from(x.checkpoints), x.frames, budget);
    let at = parts_from(x.checkpoints, x.frames, found.used);
    let parts = within_parts(bytes, at, x.parts, frames);
    let most = (x.most as u64).min(limit / 8);
    AreaIndex {
        budget,
        frames,
        parts,
        most: most as u32,
        hints: (x.hints as u64).min(most) as u32,
        confirmed: (x.confirmed as u64).min(most.min(limit / 16)) as u32,
        ..x
    }
}
