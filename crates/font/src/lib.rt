// The start of a FIGfont: its size, its header line and its comment lines.
#![tactic(auto)]

ghost use Rattle.std.specs.Prelude.{◌≡◌};
ghost use Rattle.font.specs.Steps.{past_comments, first_line, open_at};

use ground::limits;
use ground::refusals::{Reason, Refusal};
use header::Header;
use lines::Cursor;

// A font's header, and the cursor where its characters start.
#[derive(Clone, Copy)]
pub struct Opening {
    pub header: Header,
    pub next: Cursor,
}

// Past the comment lines, which start at a cursor.
fn past_comments(h: Header, font: &[u8], cursor: Cursor) -> Result<Opening, Refusal>
    ensures { result ≡ past_comments h font.now cursor.at }
{
    let skipped = cursor.skip(font, h.comment_lines);
    if 0 < skipped.missing {
        return Err(Refusal {
            reason: Reason::MissingLine,
            place: font.len(),
        });
    }
    Ok(Opening {
        header: h,
        next: skipped.next,
    })
}

// The header line and the comment lines. A font without a line does not begin with flf2a.
fn first_line(font: &[u8]) -> Result<Opening, Refusal>
    ensures { result ≡ first_line font.now }
{
    let line = Cursor::new()
        .next(font)
        .ok_or(Refusal::of(Reason::NoSignature))?;
    let h = header::read_header(&font[line.start..line.end])?;
    past_comments(h, font, line.next)
}

// The header of a font, and where its characters start.
pub fn open_font(font: &[u8]) -> Result<Opening, Refusal>
    ensures { result ≡ open_at font.now }
{
    if limits::MAX_FONT_LENGTH < font.len() {
        return Err(Refusal::of(Reason::FontTooLong));
    }
    first_line(font)
}
