// How long the tables of a list have to be, by its numbers, and the area of a header's key.
ghost use Rattle.std.specs.Prelude.{◌≡◌, true, ◌/◌};
ghost use Rattle.rules.specs.Questions.{area_ok};
ghost use Rattle.rules.specs.Load.{key_of};
ghost use Rattle.sizes.specs.Sizes.{sizes_of, range_of};
ghost use Rattle.sizes.specs.Steps.{limited_sizes};

use rules::{Area, AreaIndex, AreaKey, Header, MAX_MALFORMED_WARNINGS, MERGE_ROOM, TableSizes};
use sections::area_boundaries;

// ---- sizes
pub fn table_sizes(area: Area, interval: u32, budget: u64, most: u32) -> TableSizes
    requires { area_ok area ≡ true }
    ensures { result ≡ sizes_of area interval budget most }
{
    let b = area_boundaries(area, interval);
    TableSizes {
        checkpoints: b * 24,
        frames: b * 8,
        store: budget,
        parts: b * 24,
        malformed: MAX_MALFORMED_WARNINGS as u64 * 4,
        hints: (most as u64 + MERGE_ROOM) * 8,
        confirmed: (most as u64 + 1) * 16,
    }
}

// The sizes for what a limit leaves of an index.
pub fn limited_sizes(x: AreaIndex, limit: u64) -> TableSizes
    requires { area_ok x.area ≡ true }
    ensures { result ≡ limited_sizes x limit }
{
    let most = (x.most as u64).min(limit / 8);
    table_sizes(x.area, x.interval, x.budget.min(limit), most as u32)
}

// ---- areas
// The area of a header's key (source: audio_sector_range).
pub fn area_of(h: Header) -> Area
    ensures { result ≡ range_of (key_of h) }
{
    let start = h.start as u64;
    let end = (h.end as u64 + 1).min(h.sectors);
    let key = AreaKey {
        slot: h.slot,
        start: h.start,
        end: h.end,
        channels: h.channels,
        sectors: h.sectors,
    };
    Area {
        key,
        start,
        end: start.max(end),
    }
}
