// A font and a control file read once, for any number of texts, and a text drawn by them.
#![tactic(auto)]

ghost use Rattle.std.specs.Prelude.{◌≡◌, List, ℕ, ◌≤◌, length};
ghost use Rattle.ground.specs.Limits.{max_characters, max_commands, min_scratch};
ghost use Rattle.index.specs.Index.{CharacterRoom};
ghost use Rattle.index.specs.Latest.{small_codes};
ghost use Rattle.flc.specs.Filling.{CommandRoom};
ghost use Rattle.drawing.specs.Drawing.{lined_of, PutOut};
ghost use Rattle.bothfiles.specs.Held.{files_of, FilesHeld};

use drawing::DrawAnswer;
use flc::ControlRead;
use ground::refusals::Refusal;
use header::Header;
use reader::FontRead;
use source::Origin;

// What reading both files gave: the font's header and how many characters and commands the lists hold; or the refusal of one of the files.
#[derive(Clone, Copy)]
pub enum Files {
    Read {
        header: Header,
        count: usize,
        commands: usize,
    },
    Refused(Refusal),
}

// Both answers as one; the font's refusal comes first.
fn files_of(font: Result<FontRead, Refusal>, control: Result<ControlRead, Refusal>) -> Files
    ensures { result ≡ files_of font control }
{
    match (font, control) {
        (Ok(font), Ok(control)) => Files::Read {
            header: font.header,
            count: font.count,
            commands: control.commands,
        },
        (Ok(_), Err(r)) => Files::Refused(r),
        (Err(r), _) => Files::Refused(r),
    }
}

// Reads a font and a control file once, for any number of texts.
pub fn read_files(
    font: &[u8],
    control: &[u8],
    codes: &mut [i32],
    starts: &mut [usize],
    widths: &mut [usize],
    places: &mut [usize],
    stages: &mut [usize],
    firsts: &mut [i32],
    lasts: &mut [i32],
    news: &mut [i32],
) -> Files
    requires character_room { CharacterRoom max_characters codes.old starts.old widths.old }
    requires places_len { length places.old ≡ small_codes }
    requires command_room { CommandRoom max_commands stages.old firsts.old lasts.old news.old }
    ensures { FilesHeld font.now control.now result codes.new starts.new widths.new places.new stages.new firsts.new lasts.new news.new }
{
    let f = fontlists::read_font(font, codes, starts, widths, places);
    let c = flc::read_lists(control, stages, firsts, lasts, news);
    files_of(f, c)
}

// Draws a text by what reading the files gave; the lists hold it. Nothing is promised of what the area then holds.
pub fn draw_line(
    out: &mut [u8],
    area: &mut [u8],
    text: &[u8],
    font: &[u8],
    files: Files,
    codes: &[i32],
    starts: &[usize],
    widths: &[usize],
    places: &[usize],
    stages: &[usize],
    firsts: &[i32],
    lasts: &[i32],
    news: &[i32],
) -> DrawAnswer
    requires by_index { (control : List ℕ) × FilesHeld font.now control files codes.now starts.now widths.now places.now stages.now firsts.now lasts.now news.now }
    requires min_scratch_in_bounds { min_scratch ≤ length area.old }
    ensures { (control : List ℕ) → FilesHeld font.now control files codes.now starts.now widths.now places.now stages.now firsts.now lasts.now news.now → PutOut (lined_of font.now control text.now) (length out.old) result out.new }
{
    match files {
        Files::Read {
            header,
            count,
            commands,
        } => drawing::draw_from(
            out,
            area,
            text,
            drawing::mode_of(header),
            header.height,
            font,
            font,
            Origin::Font { count },
            codes,
            starts,
            widths,
            places,
            commands,
            stages,
            firsts,
            lasts,
            news,
        ),
        Files::Refused(r) => drawing::refuse(r, out),
    }
}
