// The calls on a font pack in a lent buffer: check, find, put, remove, compact.
#![tactic(auto)]

ghost use Rattle.std.specs.Prelude.{◌≡◌, ◌≤◌, length};
ghost use Rattle.ground.specs.Limits.{max_height};
ghost use Rattle.records.specs.Codes.{bits_of};
ghost use Rattle.heads.specs.Pack.{meaning};
ghost use Rattle.pack.specs.Calls.{opened_or_refused, good_letter, check_told, located_in, find_told, rows_told, LiesIn, removal, insertion, compaction, Changes, Puttable};

use edits::{squeeze, write_record};
use ground::refusals::{Reason, Refusal};
use heads::{Opened, open};
use records::{
    FREE, Head, MINUS_ONE, Spot, bits_of, find_from, head_length, max_width, record_head_length,
    spot_from,
};
use rows::are_legal;
use subchars::Code;

// What the test of a pack tells: its height and its number of live records.
#[derive(Clone, Copy, PartialEq, Eq)]
pub struct Accepted {
    pub height: usize,
    pub live: usize,
}

// Where the rows of a letter stand, its width, and how many bytes the rows have.
#[derive(Clone, Copy, PartialEq, Eq)]
pub struct Located {
    pub place: usize,
    pub width: usize,
    pub size: usize,
}

// Where the rows of a letter stand, and its width.
#[derive(Clone, Copy, PartialEq, Eq)]
pub struct Found {
    pub place: usize,
    pub width: usize,
}

// What a pack says, or that it is damaged.
fn opened(pack: &[u8]) -> Result<Opened, Refusal>
    ensures { result ≡ opened_or_refused (meaning pack.now) }
{
    open(pack).ok_or(Refusal::of(Reason::DamagedPack))
}

// Whether a letter may be put.
fn is_good_letter(head: Head, code: usize, width: usize, rows: &[u8]) -> bool
    requires { head.height ≤ max_height }
    ensures { result ≡ good_letter head code width rows.now }
{
    if code == MINUS_ONE {
        return false;
    }
    if max_width(head.version) < width {
        return false;
    }
    if rows.len() == head.height * width {
        let hardblank = head.hardblank;
        return are_legal(rows, hardblank);
    }
    false
}

// Tests a whole pack.
pub fn check(pack: &[u8]) -> Result<Accepted, Refusal>
    ensures { result ≡ check_told (meaning pack.now) }
{
    let Opened { head, live } = opened(pack)?;
    let height = head.height;
    Ok(Accepted { height, live })
}

// Where the rows of a code's letter stand in a pack.
fn locate(pack: &[u8], code: Code) -> Result<Located, Refusal>
    ensures { result ≡ located_in (meaning pack.now) (bits_of code.0) }
{
    let head = opened(pack)?.head;
    let bits = bits_of(code);
    if bits == MINUS_ONE {
        return Err(Refusal::of(Reason::BadShape));
    }
    let version = head.version;
    let found = find_from(head, pack, head_length(version), bits);
    let letter = found.ok_or(Refusal::of(Reason::CodeAbsent))?;
    let place = letter.at + record_head_length(version);
    let width = letter.width;
    let size = head.height * width;
    Ok(Located { place, width, size })
}

// Width and place of the rows of a code's letter.
pub fn find(pack: &[u8], code: Code) -> Result<Found, Refusal>
    ensures { result ≡ find_told (meaning pack.now) (bits_of code.0) }
{
    let Located {
        place,
        width,
        size: _,
    } = locate(pack, code)?;
    Ok(Found { place, width })
}

// The rows of a code's letter, a part of the pack; nothing where `find` refuses.
pub fn find_rows<'a>(pack: &'a [u8], code: Code) -> &'a [u8]
    ensures part { result.now ≡ rows_told pack.now (bits_of code.0) }
    ensures place { LiesIn pack.entry (located_in (meaning pack.now) (bits_of code.0)) result }
{
    match locate(pack, code) {
        Ok(rows) => {
            let end = rows.place + rows.size;
            &pack[rows.place..end]
        }
        Err(_) => &pack[0..0],
    }
}

// Frees the record of a code.
pub fn remove(pack: &mut [u8], code: Code) -> Result<(), Refusal>
    ensures { Changes (removal (meaning pack.old) (bits_of code.0)) pack.old result pack.new }
{
    let head = opened(pack)?.head;
    let bits = bits_of(code);
    if bits == MINUS_ONE {
        return Err(Refusal::of(Reason::BadShape));
    }
    let found = find_from(head, pack, head_length(head.version), bits);
    let letter = found.ok_or(Refusal::of(Reason::CodeAbsent))?;
    pack[letter.at] = FREE;
    Ok(())
}

// Writes a good letter into a pack that says `head`.
fn put_letter(
    head: Head,
    pack: &mut [u8],
    bits: usize,
    width: usize,
    rows: &[u8],
) -> Result<(), Refusal>
    requires { Puttable head pack.old bits width rows.now }
    ensures { Changes (insertion (meaning pack.old) (length pack.old) bits width rows.now) pack.old result pack.new }
{
    let version = head.version;
    let from = head_length(version);
    if find_from(head, pack, from, bits).is_some() {
        return Err(Refusal::of(Reason::CodePresent));
    }
    match spot_from(head, pack, from, width) {
        Spot::Free(at) => {
            write_record(version, pack, at, bits, width, rows);
        }
        Spot::Tail(at) => {
            let size = record_head_length(version) + rows.len();
            if pack.len() - at < size {
                return Err(Refusal::of(Reason::NoRoom));
            }
            write_record(version, pack, at, bits, width, rows);
        }
    }
    Ok(())
}

// Writes a letter into the first free record of its width, else behind the last record.
pub fn put(pack: &mut [u8], code: Code, width: usize, rows: &[u8]) -> Result<(), Refusal>
    ensures { Changes (insertion (meaning pack.old) (length pack.old) (bits_of code.0) width rows.now) pack.old result pack.new }
{
    let head = opened(pack)?.head;
    let bits = bits_of(code);
    if is_good_letter(head, bits, width, rows) {
        return put_letter(head, pack, bits, width, rows);
    }
    Err(Refusal::of(Reason::BadShape))
}

// Drops the free records.
pub fn compact(pack: &mut [u8]) -> Result<(), Refusal>
    ensures { Changes (compaction (meaning pack.old)) pack.old result pack.new }
{
    let head = opened(pack)?.head;
    squeeze(head, pack, head_length(head.version));
    Ok(())
}
