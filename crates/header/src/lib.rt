// The header line of a FIGfont: its hardblank and its parameters, or the refusal of the line.
#![tactic(auto)]

mod reading;

ghost use Rattle.std.specs.Prelude.{◌≡◌};
ghost use Rattle.header.specs.Header.{read_header};

use ground::refusals::{Reason, Refusal};
use lines::words;
use subchars::{Layout, SubCharacter};

// The parameters of a header as it writes them; one that is missing is not 0.
#[derive(Clone, Copy, PartialEq, Eq)]
pub struct Parameters {
    pub height: i32,
    pub baseline: i32,
    pub max_length: i32,
    pub old_layout: i32,
    pub comment_lines: i32,
    pub print_direction: Option<i32>,
    pub full_layout: Option<i32>,
    pub codetag_count: Option<i32>,
}

// What a legal header line says, and the layout that it gives.
#[derive(Clone, Copy, PartialEq, Eq)]
pub struct Header {
    pub hardblank: SubCharacter,
    pub height: usize,
    pub baseline: usize,
    pub max_length: usize,
    pub old_layout: i32,
    pub comment_lines: usize,
    pub print_direction: Option<usize>,
    pub full_layout: Option<usize>,
    pub codetag_count: Option<usize>,
    pub layout: Layout,
}

// How many parameters a header has at most.
pub const MAX_PARAMETERS: usize = 8;

// The places of the hardblank, behind flf2a, of the blank or tab behind it, and where the parameters start.
const HARDBLANK: usize = 5;

const BLANK: usize = 6;

const PARAMETERS_START: usize = 7;

// What the first line of a font says.
pub fn read_header(t: &[u8]) -> Result<Header, Refusal>
    ensures { result ≡ read_header t.now }
{
    if !t.starts_with(b"flf2a") {
        return Err(Refusal::of(Reason::NoSignature));
    }
    if t.len() <= HARDBLANK || !subchars::legal_hardblank(SubCharacter(t[HARDBLANK])) {
        return Err(Refusal::of(Reason::BadHardblank));
    }
    if t.len() <= BLANK || !words::is_blank(t[BLANK]) {
        return Err(Refusal::of(Reason::BadParameters));
    }
    reading::header_of(SubCharacter(t[HARDBLANK]), &t[PARAMETERS_START..])
}
