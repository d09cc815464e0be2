//! A table that is yet to be checked. Nothing is promised about how it is made: equal classes and equal blocks are found by
//! hashes.

use crate::alike::Alike;
use crate::table::Layout;
use lalrpop_dfa::{Dfa, DfaStateIndex, Kind};
use lalrpop_hir::Test;
use std::alloc::{AllocError, Global};
use std::collections::BTreeMap;

// All characters are below this.
const END: u32 = 0x11_0000;

const PAGES: u32 = END / 128;

// A table of this many cells is always small enough, and one of more than `MOST` never.
const SMALL: usize = 65536;

const MOST: usize = 1 << 24;

// The most steps that take only a few milliseconds.
const SHORT: usize = 1 << 20;

// The test edges of the state with this number, none if there is no such state.
fn edges_of<'dfa>(dfa: &'dfa Dfa, number: usize) -> &'dfa [(Test, DfaStateIndex)] {
    if number >= dfa.states().len() {
        return &[];
    }
    dfa.test_edges(DfaStateIndex::new(number))
}

// The number of the state to which all values lead that no test edge covers.
fn other_of(dfa: &Dfa, number: usize) -> usize {
    if number >= dfa.states().len() {
        return 0;
    }
    dfa.state(DfaStateIndex::new(number)).other_edge().index()
}

// The edges without the last ones, which are shared.
fn own_edges<'dfa>(
    edges: &'dfa [(Test, DfaStateIndex)],
    shared: usize,
) -> &'dfa [(Test, DfaStateIndex)] {
    edges
        .get(..edges.len().wrapping_sub(shared))
        .unwrap_or(edges)
}

fn shared_edges<'dfa>(
    edges: &'dfa [(Test, DfaStateIndex)],
    shared: usize,
) -> &'dfa [(Test, DfaStateIndex)] {
    edges
        .get(edges.len().wrapping_sub(shared)..)
        .unwrap_or(edges)
}

fn mark(marks: &mut [u64], value: u32) {
    if let Some(mark) = marks.get_mut(value as usize / 64) {
        *mark |= 1 << (value % 64);
    }
}

fn mark_edges(marks: &mut [u64], edges: &[(Test, DfaStateIndex)]) {
    for (test, _) in edges {
        mark(marks, test.start());
        mark(marks, test.end().wrapping_add(1));
    }
}

// A bit for each value: for 0, where a test edge of some state begins, and behind the end of one. What a state shares with an
// earlier one isn't marked again.
fn marks_of(alloc: Global, dfa: &Dfa, alikes: &[Alike]) -> Result<Vec<u64>, AllocError> {
    let mut marks = vec![in alloc; 0u64; 0x11_0000 / 64]?;
    mark(&mut marks, 0);
    for (number, alike) in alikes.iter().enumerate() {
        let edges = edges_of(dfa, number);
        if alike.earlier == number {
            mark_edges(&mut marks, edges);
        } else {
            mark_edges(&mut marks, own_edges(edges, alike.shared));
        }
    }
    Ok(marks)
}

// The marked values, ascending, and how to find them.
#[derive(Drop)]
struct Boundaries {
    values: Vec<u32>,
    marks: Vec<u64>,
    // For each 64 values, how many marked ones there are before them.
    before: Vec<u32>,
}

impl Boundaries {
    // How many marked values there are before this one.
    fn place(&self, value: u32) -> usize {
        let at = value as usize / 64;
        let before = self.before.get(at).copied().unwrap_or(u32::MAX);
        let marks = self.marks.get(at).copied().unwrap_or(0);
        let lower = marks & (1u64 << (value % 64)).wrapping_sub(1);
        before.wrapping_add(lower.count_ones()) as usize
    }
}

// Adds the marked values among the 64 from the first on.
fn push_boundaries(boundaries: &mut Vec<u32>, marks: u64, first: u32) -> Result<(), AllocError> {
    let mut left = marks;
    for _ in 0..marks.count_ones() {
        boundaries.push(first.wrapping_add(left.trailing_zeros()))?;
        left &= left.wrapping_sub(1);
    }
    Ok(())
}

fn boundaries_of(alloc: Global, marks: Vec<u64>) -> Result<Boundaries, AllocError> {
    let mut values = Vec::new(alloc);
    let mut before = Vec::new(alloc);
    let mut first = 0u32;
    for word in &marks {
        before.push(low(values.len()))?;
        push_boundaries(&mut values, *word, first)?;
        first = first.wrapping_add(64);
    }
    Ok(Boundaries {
        values,
        marks,
        before,
    })
}

// The number of the state to which the value leads by these edges. The place moves on to the first edge that doesn't end before
// the value.
fn target_at(
    edges: &[(Test, DfaStateIndex)],
    other: usize,
    place: &mut usize,
    value: u32,
) -> usize {
    for (test, target) in edges.get(*place..).unwrap_or(&[]) {
        if value <= test.end() {
            return if test.start() <= value {
                target.index()
            } else {
                other
            };
        }
        *place = place.wrapping_add(1);
    }
    other
}

// A number that looks like any other.
fn scattered(number: usize) -> u64 {
    let mixed = (number as u64)
        .wrapping_add(1)
        .wrapping_mul(0x9E37_79B9_7F4A_7C15);
    (mixed ^ mixed >> 29).wrapping_mul(0xBF58_476D_1CE4_E5B9)
}

fn add(steps: &mut [u64], place: usize, number: u64) {
    if let Some(step) = steps.get_mut(place) {
        *step = step.wrapping_add(number);
    }
}

// Adds where these edges lead, rather than to the other state.
fn add_edges(
    steps: &mut [u64],
    boundaries: &Boundaries,
    edges: &[(Test, DfaStateIndex)],
    other: usize,
    weight: u64,
) {
    for (test, target) in edges {
        let change = scattered(target.index())
            .wrapping_sub(scattered(other))
            .wrapping_mul(weight);
        add(steps, boundaries.place(test.start()), change);
        let behind = boundaries.place(test.end().wrapping_add(1));
        add(steps, behind, change.wrapping_neg());
    }
}

// States that are like the same one: how many edges all of them share, and the sum of their weights.
#[derive(Clone, Copy)]
struct Group {
    shared: usize,
    weight: u64,
}

fn groups_of(alloc: Global, alikes: &[Alike]) -> Result<Vec<Group>, AllocError> {
    let none = Group {
        shared: usize::MAX,
        weight: 0,
    };
    let mut groups = vec![in alloc; none; alikes.len()]?;
    for (number, alike) in alikes.iter().enumerate() {
        if let Some(group) = groups.get_mut(alike.earlier) {
            group.shared = group.shared.min(alike.shared);
            group.weight = group.weight.wrapping_add(scattered(number));
        }
    }
    Ok(groups)
}

// Adds where one state leads, and where the states lead that are like it, as far as they share its edges.
fn add_state(
    steps: &mut [u64],
    boundaries: &Boundaries,
    dfa: &Dfa,
    number: usize,
    earlier: usize,
    group: Group,
) {
    let edges = edges_of(dfa, number);
    let other = other_of(dfa, number);
    let weight = scattered(number);
    add(steps, 0, scattered(other).wrapping_mul(weight));
    let own = own_edges(edges, group.shared);
    add_edges(steps, boundaries, own, other, weight);
    if earlier == number {
        let shared = shared_edges(edges, group.shared);
        add_edges(steps, boundaries, shared, other, group.weight);
    }
}

// For each boundary, a hash of where it leads from all states: the sum over the states of the product of the state's number and
// the target's, both scattered. First of each boundary's sum what it adds to the one before, so an edge changes two.
fn hashes_of(
    alloc: Global,
    dfa: &Dfa,
    alikes: &[Alike],
    boundaries: &Boundaries,
) -> Result<Vec<u64>, AllocError> {
    let groups = groups_of(alloc, alikes)?;
    let mut hashes = vec![in alloc; 0u64; boundaries.values.len()]?;
    for (number, alike) in alikes.iter().enumerate() {
        if let Some(group) = groups.get(alike.earlier) {
            add_state(&mut hashes, boundaries, dfa, number, alike.earlier, *group);
        }
    }
    let mut sum = 0u64;
    for hash in hashes.iter_mut() {
        sum = sum.wrapping_add(*hash);
        *hash = sum;
    }
    Ok(hashes)
}

// The values from a boundary up to the next one have one class.
#[derive(Drop)]
struct Classes {
    boundaries: Vec<u32>,
    // The class of each boundary.
    classes: Vec<u8>,
    // The first boundary of each class.
    firsts: Vec<u32>,
}

// The classes of the values, by the hashes of the boundaries.
fn classes_of(alloc: Global, boundaries: Vec<u32>, hashes: &[u64]) -> Result<Classes, AllocError> {
    let mut numbers: BTreeMap<u64, u8> = BTreeMap::new(alloc);
    let mut classes = Vec::new(alloc);
    let mut firsts = Vec::new(alloc);
    for (hash, boundary) in hashes.iter().zip(&boundaries) {
        match numbers.get(hash) {
            Some(number) => classes.push(*number)?,
            None => {
                let number = (numbers.len() & 255) as u8;
                numbers.insert(*hash, number)?;
                classes.push(number)?;
                firsts.push(*boundary)?;
            }
        }
    }
    Ok(Classes {
        boundaries,
        classes,
        firsts,
    })
}

fn low(number: usize) -> u32 {
    (number & 0xFFFF_FFFF) as u32
}

// Where the rows of the states begin.
#[derive(Drop)]
struct Places {
    rows: Vec<u32>,
    live: usize,
    accept: usize,
}

// The rows of the states, all of this length: those of reject states first, those of accepting states last.
fn places_of(alloc: Global, dfa: &Dfa, stride: usize) -> Result<Places, AllocError> {
    let mut rows = vec![in alloc; 0; dfa.states().len()]?;
    let mut next = 0usize;
    for (row, state) in rows.iter_mut().zip(dfa.states()) {
        if matches!(state.kind(), Kind::Reject) {
            *row = low(next);
            next = next.wrapping_add(stride);
        }
    }
    let live = next;
    for (row, state) in rows.iter_mut().zip(dfa.states()) {
        if matches!(state.kind(), Kind::Neither) {
            *row = low(next);
            next = next.wrapping_add(stride);
        }
    }
    let accept = next;
    for (row, state) in rows.iter_mut().zip(dfa.states()) {
        if matches!(state.kind(), Kind::Accepts(_)) {
            *row = low(next);
            next = next.wrapping_add(stride);
        }
    }
    Ok(Places { rows, live, accept })
}

// The cells of a table, and where its rows begin.
#[derive(Drop)]
struct RowWriter<'given> {
    cells: &'given mut [u32],
    rows: &'given [u32],
}

impl RowWriter<'_> {
    fn row(&self, number: usize) -> usize {
        self.rows.get(number).copied().unwrap_or(0) as usize
    }

    fn set(&mut self, number: usize, place: usize, cell: u32) {
        let place = self.row(number).wrapping_add(place);
        if let Some(slot) = self.cells.get_mut(place) {
            *slot = cell;
        }
    }

    // Copies the cells between these places.
    fn copy(&mut self, from: usize, to: usize, first: usize, end: usize) {
        let row = self.row(from);
        for place in first..end {
            let cell = self.cells.get(row.wrapping_add(place)).copied();
            self.set(to, place, cell.unwrap_or(0));
        }
    }

    // Writes where these values lead from the state, which ascend, into the first cells of its row.
    fn write(&mut self, dfa: &Dfa, number: usize, values: &[u32]) {
        let edges = edges_of(dfa, number);
        let other = other_of(dfa, number);
        let mut place = 0usize;
        for (cell, value) in values.iter().enumerate() {
            let target = self.row(target_at(edges, other, &mut place, *value));
            self.set(number, cell, low(target));
        }
    }
}

// The cells of the rows. `firsts` has the first value of each class, ascending. A row that is like an earlier one is a copy of it
// but for the classes that begin before the two are alike.
fn cells_of(
    alloc: Global,
    dfa: &Dfa,
    alikes: &[Alike],
    firsts: &[u32],
    rows: &[u32],
) -> Result<Vec<u32>, AllocError> {
    let stride = firsts.len().wrapping_add(1);
    let mut cells = vec![in alloc; 0; rows.len().wrapping_mul(stride)]?;
    let mut writer = RowWriter {
        cells: &mut cells,
        rows,
    };
    for (number, alike) in alikes.iter().enumerate() {
        let mut own = firsts;
        if alike.earlier != number {
            let count = firsts.partition_point(|first| *first < alike.from);
            own = firsts.get(..count).unwrap_or(firsts);
            writer.copy(alike.earlier, number, count, firsts.len());
        }
        writer.write(dfa, number, own);
    }
    for (number, state) in dfa.states().iter().enumerate() {
        if let Kind::Accepts(pattern) = state.kind() {
            writer.set(number, firsts.len(), low(pattern.index()));
        }
    }
    Ok(cells)
}

fn hashed(hash: u64, number: u64) -> u64 {
    (hash ^ number)
        .wrapping_mul(0x9E37_79B9_7F4A_7C15)
        .rotate_left(23)
}

// The classes of characters in blocks.
#[derive(Drop)]
struct Blocks {
    blocks: Vec<u8>,
    pages: Vec<u16>,
    // The blocks so far, by their hashes.
    numbers: BTreeMap<u64, u16>,
}

impl Blocks {
    // Adds the classes of the next page.
    fn add(&mut self, block: &[u8; 128]) -> Result<(), AllocError> {
        let mut hash = 0u64;
        for class in block {
            hash = hashed(hash, u64::from(*class));
        }
        match self.numbers.get(&hash) {
            Some(number) => self.pages.push(*number)?,
            None => {
                let number = (self.numbers.len() & 0xFFFF) as u16;
                self.blocks.extend_from_slice(block)?;
                self.numbers.insert(hash, number)?;
                self.pages.push(number)?;
            }
        }
        Ok(())
    }
}

// A place among the boundaries.
#[derive(Clone, Copy)]
struct Walk {
    // The place of the last boundary that is not after the value.
    place: usize,
    // All values before this one have the class of that boundary.
    end: u32,
    class: u8,
}

impl Walk {
    fn at(classes: &Classes, place: usize) -> Walk {
        Walk {
            place,
            end: classes
                .boundaries
                .get(place.wrapping_add(1))
                .copied()
                .unwrap_or(END),
            class: classes.classes.get(place).copied().unwrap_or(0),
        }
    }
}

// The classes of the 128 values from the first on.
fn block_from(classes: &Classes, first: u32, walk: &mut Walk) -> [u8; 128] {
    let mut block = [0u8; 128];
    let mut value = first;
    for slot in block.iter_mut() {
        if value == walk.end {
            *walk = Walk::at(classes, walk.place.wrapping_add(1));
        }
        *slot = walk.class;
        value = value.wrapping_add(1);
    }
    block
}

fn blocks_of(alloc: Global, classes: &Classes) -> Result<Blocks, AllocError> {
    let mut blocks = Blocks {
        blocks: Vec::new(alloc),
        pages: Vec::new(alloc),
        numbers: BTreeMap::new(alloc),
    };
    let mut walk = Walk::at(classes, 0);
    // The class and the block of the last page, if all of it is of one class.
    let mut last = None;
    for page in 0..PAGES {
        let first = page * 128;
        let is_whole = first + 128 <= walk.end;
        if let Some((class, number)) = last {
            if is_whole && class == walk.class {
                // All later pages are like the last one.
                if walk.end == END {
                    break;
                }
                blocks.pages.push(number)?;
                continue;
            }
        }
        let block = block_from(classes, first, &mut walk);
        blocks.add(&block)?;
        last = match blocks.pages.last() {
            Some(number) if is_whole => Some((walk.class, *number)),
            _ => None,
        };
    }
    Ok(blocks)
}

// The numbers of states and test edges, which bound the size of the table.
#[derive(Clone, Copy)]
struct Size {
    states: usize,
    edges: usize,
}

impl Size {
    fn of(dfa: &Dfa) -> Size {
        let states = dfa.states().len();
        let mut edges = 0usize;
        for number in 0..states {
            edges = edges.wrapping_add(dfa.test_edges(DfaStateIndex::new(number)).len());
        }
        Size { states, edges }
    }

    // Whether a table of this many cells and its fused table, of 4 bytes a cell at most, take no more than 16 times the memory
    // of the automaton, which has about 32 bytes a state and 16 an edge.
    fn has_room(self, cells: usize) -> bool {
        let room = self
            .states
            .wrapping_mul(64)
            .wrapping_add(self.edges.wrapping_mul(32));
        cells <= SMALL || (cells <= MOST && cells <= room)
    }

    // Whether visiting this many boundaries for each state doesn't take much longer than visiting the edges.
    fn has_time(self, boundaries: usize) -> bool {
        let steps = self.states.wrapping_add(self.edges).wrapping_mul(64);
        let all = self.states.wrapping_mul(boundaries);
        all <= SHORT || all <= steps
    }
}

/// A table that may be right for the automaton: the caller checks it. None if it would have too many cells, classes or
/// boundaries.
///
/// # Errors
///
/// `AllocError` if a request for memory was refused.
pub(crate) fn make_table(
    alloc: Global,
    dfa: &Dfa,
    alikes: &[Alike],
) -> Result<Option<(Layout, Vec<u32>)>, AllocError> {
    let size = Size::of(dfa);
    let boundaries = boundaries_of(alloc, marks_of(alloc, dfa, alikes)?)?;
    if size.states > 0x100_0000 || !size.has_time(boundaries.values.len()) {
        return Ok(None);
    }
    let hashes = hashes_of(alloc, dfa, alikes, &boundaries)?;
    let classes = classes_of(alloc, boundaries.values, &hashes)?;
    let width = classes.firsts.len();
    let stride = width.wrapping_add(1);
    if width > 255 || !size.has_room(size.states.wrapping_mul(stride)) {
        return Ok(None);
    }
    let Places { rows, live, accept } = places_of(alloc, dfa, stride)?;
    let cells = cells_of(alloc, dfa, alikes, &classes.firsts, &rows)?;
    let Blocks { blocks, pages, .. } = blocks_of(alloc, &classes)?;
    let layout = Layout {
        blocks,
        pages,
        rows,
        width,
        live,
        accept,
    };
    Ok(Some((layout, cells)))
}
