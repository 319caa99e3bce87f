// The records of a pack: one at the start of a part of the pack, and what is found among them.
#![tactic(auto)]

ghost use Rattle.std.specs.Prelude.{◌≡◌, Bool, true, ◌&&◌, ◌+◌, ◌≤◌, ◌<◌, length, drop};
ghost use Rattle.ground.specs.Limits.{max_height};
ghost use Rattle.ground.specs.Runs.{all};
ghost use Rattle.records.specs.declared.Record.{Record};
ghost use Rattle.records.specs.Codes.{bits_of};
ghost use Rattle.records.specs.Versions.{head_length, width_length, record_head_length, max_width};
ghost use Rattle.records.specs.Records.{is_zero, good_fields, record_list, has_live, none_twice};
ghost use Rattle.records.specs.Places.{place_in, spot_in};
ghost use Rattle.records.specs.Steps.{scan_of, skim_of, Walkable, Tests, first_in, counted_from, soundness};

use areas::number_at;
use ground::limits;
use rows::are_legal;
use subchars::{Code, SubCharacter};

// What the head of a pack says.
#[derive(Clone, Copy, PartialEq, Eq)]
pub struct Head {
    pub version: usize,
    pub height: usize,
    pub hardblank: SubCharacter,
}

// A record: whether it is live, its code and its width, and how many bytes it has.
#[derive(Clone, Copy, PartialEq, Eq)]
pub struct Record {
    pub live: bool,
    pub code: usize,
    pub width: usize,
    pub size: usize,
}

// What stands at the start of a part of a pack: a record, zeros to the end, or neither.
#[derive(Clone, Copy, PartialEq, Eq)]
pub enum Scan {
    Record(Record),
    End,
    Damaged,
}

// Where a record starts, and its width.
#[derive(Clone, Copy, PartialEq, Eq)]
pub struct Place {
    pub at: usize,
    pub width: usize,
}

// Where the first free record of a width starts, or else where the records end.
#[derive(Clone, Copy, PartialEq, Eq)]
pub enum Spot {
    Free(usize),
    Tail(usize),
}

// Status and code of a record, before its width.
pub const BEFORE_WIDTH: usize = 5;

// The number that the four bytes of code -1 say.
pub const MINUS_ONE: usize = 4294967295;

// The first byte of a live record, and of a free one.
pub const LIVE: u8 = 1;

pub const FREE: u8 = 2;

pub fn head_length(version: usize) -> usize
    ensures { result ≡ head_length version }
{
    limits::MIN_PACK_LENGTH
}

pub fn width_length(version: usize) -> usize
    ensures { result ≡ width_length version }
{
    1
}

pub fn record_head_length(version: usize) -> usize
    ensures { result ≡ record_head_length version }
{
    BEFORE_WIDTH + width_length(version)
}

pub fn max_width(version: usize) -> usize
    ensures { result ≡ max_width version }
{
    limits::MAX_CHARACTER_WIDTH
}

// A code as the number that its four bytes say.
pub fn bits_of(code: Code) -> usize
    ensures { result ≡ bits_of code.0 }
{
    let z = code.0;
    if z < 0 {
        let wide = (z as i64) + 4294967296;
        return wide as usize;
    }
    z as usize
}

// Whether all is zero.
fn is_zeros(t: &[u8]) -> bool
    ensures { result ≡ all is_zero t.now }
{
    t.iter().all(|&b| b == 0)
}

// Whether status, code and width may stand in a record.
#[tactic(auto, unfolding(crate::specs::Records::good_fields))]
fn are_good_fields(version: usize, status: u8, code: usize, width: usize) -> bool
    ensures { result ≡ good_fields version status code width }
{
    code != MINUS_ONE && width <= max_width(version) && (status == LIVE || status == FREE)
}

// What stands at the start of a part of a pack.
pub fn scan_part(head: Head, t: &[u8]) -> Scan
    requires { head.height ≤ max_height }
    ensures { result ≡ scan_of head t.now }
{
    if is_zeros(t) {
        return Scan::End;
    }
    let version = head.version;
    let start = record_head_length(version);
    if t.len() < start {
        return Scan::Damaged;
    }
    let status = t[0];
    let code = number_at(t, 1, 4);
    let width = number_at(t, BEFORE_WIDTH, width_length(version));
    if are_good_fields(version, status, code, width) {
        let size = start + head.height * width;
        if t.len() < size {
            return Scan::Damaged;
        }
        let hardblank = head.hardblank;
        if are_legal(&t[start..size], hardblank) {
            return Scan::Record(Record {
                live: status == LIVE,
                code,
                width,
                size,
            });
        }
    }
    Scan::Damaged
}

// What stands at the start of a part that is known to be whole. It looks at a record's head only.
pub fn skim_part(head: Head, t: &[u8]) -> Option<Record>
    requires { (head.height ≤ max_height) × ((record_list head t.now).whole ≡ true) }
    ensures { result ≡ skim_of head t.now }
{
    if t.len() == 0 {
        return None;
    }
    let status = t[0];
    if status == 0 {
        return None;
    }
    let version = head.version;
    let start = record_head_length(version);
    let code = number_at(t, 1, 4);
    let width = number_at(t, BEFORE_WIDTH, width_length(version));
    let size = start + head.height * width;
    Some(Record {
        live: status == LIVE,
        code,
        width,
        size,
    })
}

// The first record that passes a test, from a place on; or else where the records end.
fn first_from<F: Fn(Record) -> bool>(
    head: Head,
    s: &[u8],
    from: usize,
    wanted: F,
) -> Result<Place, usize>
    requires callable { F.IsAlwaysCallable wanted }
    requires walkable { Walkable head s.now from }
    ensures { (p : Record → Bool) → Tests (F.post wanted) p → result ≡ first_in head p from (record_list head (drop from s.now)).records }
{
    let mut at = from;
    while let Some(found) = skim_part(head, &s[at..]) {
        if wanted(found) {
            let width = found.width;
            return Ok(Place { at, width });
        }
        at += found.size;
    }
    Err(at)
}

// Where the live record of a code is, from a place on.
pub fn find_from(head: Head, s: &[u8], from: usize, code: usize) -> Option<Place>
    requires { Walkable head s.now from }
    ensures { result ≡ place_in head code from (record_list head (drop from s.now)).records }
{
    first_from(head, s, from, |found| found.live && found.code == code).ok()
}

// The first free record of a width, or the end of the records, from a place on.
pub fn spot_from(head: Head, s: &[u8], from: usize, width: usize) -> Spot
    requires { Walkable head s.now from }
    ensures { result ≡ spot_in head width from (record_list head (drop from s.now)).records }
{
    match first_from(head, s, from, |found| !found.live && found.width == width) {
        Ok(place) => Spot::Free(place.at),
        Err(at) => Spot::Tail(at),
    }
}

// Whether a record is live, and its code that of a live record from a place on.
fn is_repeated(head: Head, s: &[u8], from: usize, found: Record) -> bool
    requires { Walkable head s.now from }
    ensures { result ≡ (found.live && has_live found.code (record_list head (drop from s.now)).records) }
{
    found.live && find_from(head, s, from, found.code).is_some()
}

// Whether no two live records from a place on have one code. It looks at records' heads only; quadratic in the number of live records.
fn none_twice(head: Head, s: &[u8], from: usize) -> bool
    requires { Walkable head s.now from }
    ensures { result ≡ none_twice (record_list head (drop from s.now)).records }
{
    let mut at = from;
    while let Some(found) = skim_part(head, &s[at..]) {
        at += found.size;
        if is_repeated(head, s, at, found) {
            return false;
        }
    }
    true
}

// How many records from a place on are live, if each is good and all is zero behind the last.
fn count_records(head: Head, s: &[u8], from: usize) -> Option<usize>
    requires { (head.height ≤ max_height) × (from ≤ length s.now) }
    ensures { result ≡ counted_from 0 (record_list head (drop from s.now)) }
{
    let mut at = from;
    let mut n: usize = 0;
    loop {
        match scan_part(head, &s[at..]) {
            Scan::Record(found) => {
                at += found.size;
                n += usize::from(found.live);
            }
            Scan::End => {
                return Some(n);
            }
            Scan::Damaged => {
                return None;
            }
        }
    }
}

// The test of all records from a place on: how many are live, if all is well with them.
pub fn test_records(head: Head, s: &[u8], from: usize) -> Option<usize>
    requires { (head.height ≤ max_height) × (from ≤ length s.now) }
    ensures { result ≡ soundness (record_list head (drop from s.now)) }
{
    let live = count_records(head, s, from)?;
    if none_twice(head, s, from) {
        return Some(live);
    }
    None
}
