// How a search begins: each cell gets its first label and its mark, and the starting cells wait in row order.
ghost use Rattle.std.specs.Prelude.{◌≡◌, length};
ghost use Rattle.rules.specs.Sizes.{count};
ghost use Rattle.spread.specs.Begin.{BeginsCell, BeganCell, BeganTo, Begins, BeginsEach, BeginsFrom, BeganFrom, Clear, BeginsAt, BeganAt};
ghost use Rattle.spread.specs.Buffers.{buffers};

use crate::buffers::Grids;
use crate::first::{
    AnyTargets, ClosestTargets, PlainTargets, Targets, TravelTargets, ValuedTargets, above_all,
};
use crate::relax::carry;
use crate::search::{Rule, Search};
use crate::waiting::{MARK_TODO, begin_waiting, wait};
use binary32::{infinity, is_nodata};
use calls::fill;
use cells::{Ring, cell_count};

// One cell begins.
fn begin_cell<K: Targets, const CARRYING: bool>(
    cap: f32,
    grids: Grids<'_>,
    cell: u32,
    distances: &mut [f32],
    carried: &mut [f32],
    marks: &mut [u8],
    queue: &mut [u32],
    ring: Ring,
) -> Ring
    requires { BeginsCell K.number CARRYING grids.targets.now grids.times.now grids.values.now cell (buffers distances.old carried.old marks.old queue.old ring) }
    ensures { BeganCell K.number CARRYING cap grids.entry.targets.now grids.entry.times.now grids.entry.values.now cell
        (buffers distances.old carried.old marks.old queue.old ring)
        (buffers distances.new carried.new marks.new queue.new result) }
{
    let at = cell as usize;
    let label = K::first_label(cap, grids, cell);
    distances[at] = label.distance;
    carry::<CARRYING>(cell, label.value, carried);
    begin_waiting(cell, label.starts, marks, queue, ring)
}

// Every cell begins, in row order.
fn begin_each<K: Targets, const CARRYING: bool>(
    search: Search,
    cap: f32,
    grids: Grids<'_>,
    distances: &mut [f32],
    carried: &mut [f32],
    marks: &mut [u8],
    queue: &mut [u32],
) -> Ring
    requires { BeginsEach search K.number CARRYING cap grids.targets.now grids.times.now grids.values.now distances.old carried.old marks.old queue.old }
    ensures { BeganTo search grids.entry.targets.now grids.entry.times.now grids.entry.values.now (count search.size) carried.old
        (buffers distances.new carried.new marks.new queue.new result) }
{
    let end = cell_count(search.size) as u32;
    let mut ring = Ring::new();
    for cell in 0..end {
        ring = begin_cell::<K, CARRYING>(cap, grids, cell, distances, carried, marks, queue, ring);
    }
    ring
}

// No cell is reached: every distance is the cap, and no cell is marked.
pub fn begin_clear(cap: f32, distances: &mut [f32], marks: &mut [u8])
    requires { length marks.old ≡ length distances.old }
    ensures { Clear (length distances.old) cap distances.new marks.new }
{
    fill(distances, cap);
    fill(marks, MARK_TODO);
}

// One cell begins, at distance 0, where none is reached. It waits if its time has data.
pub fn begin_at(
    origin: u32,
    times: &[f32],
    distances: &mut [f32],
    marks: &mut [u8],
    queue: &mut [u32],
) -> Ring
    requires { BeginsAt times.now distances.old marks.old queue.old }
    ensures { BeganAt origin times.now distances.old marks.old queue.old
        distances.new marks.new queue.new result }
{
    let ring = Ring::new();
    let at = origin as usize;
    if at < distances.len() {
        distances[at] = 0.0;
        if !is_nodata(times[at]) {
            return wait(origin, marks, queue, ring);
        }
    }
    ring
}

// One cell begins, at distance 0, and every other at the cap.
fn begin_from(
    origin: u32,
    cap: f32,
    times: &[f32],
    distances: &mut [f32],
    marks: &mut [u8],
    queue: &mut [u32],
) -> Ring
    requires { BeginsFrom origin times.now distances.old marks.old queue.old }
    ensures { BeganFrom origin cap times.now distances.old marks.old queue.old
        distances.new marks.new queue.new result }
{
    begin_clear(cap, distances, marks);
    begin_at(origin, times, distances, marks, queue)
}

// Every cell begins. The rule is matched here, once, so that in each arm the loop has types for what it looks at.
// A search from one cell begins by filling.
pub fn begin_cells(
    search: Search,
    grids: Grids<'_>,
    distances: &mut [f32],
    carried: &mut [f32],
    marks: &mut [u8],
    queue: &mut [u32],
) -> Ring
    requires { Begins search grids.targets.now grids.times.now grids.values.now distances.old carried.old marks.old queue.old }
    ensures { BeganTo search grids.entry.targets.now grids.entry.times.now grids.entry.values.now (count search.size) carried.old
        (buffers distances.new carried.new marks.new queue.new result) }
{
    let rule = search.rule;
    let limit = search.limit;
    match rule {
        Rule::Plain => begin_each::<PlainTargets, false>(
            search, limit, grids, distances, carried, marks, queue,
        ),
        Rule::Obstacles(_) => begin_each::<AnyTargets, false>(
            search,
            infinity(),
            grids,
            distances,
            carried,
            marks,
            queue,
        ),
        Rule::HalfSum => begin_each::<TravelTargets, false>(
            search, limit, grids, distances, carried, marks, queue,
        ),
        Rule::Closest => begin_each::<ClosestTargets, true>(
            search,
            above_all(search.size),
            grids,
            distances,
            carried,
            marks,
            queue,
        ),
        Rule::ByTime => begin_each::<ValuedTargets, true>(
            search, limit, grids, distances, carried, marks, queue,
        ),
        Rule::FromMaskCell(origin) => {
            begin_from(origin, infinity(), grids.times, distances, marks, queue)
        }
        Rule::FromAmount(origin) => begin_from(
            origin,
            limit + 1.0,
            grids.times,
            distances,
            marks,
            queue,
        ),
    }
}
