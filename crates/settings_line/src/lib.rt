// The settings line of the programs that read their settings.
#![tactic(auto)]

pub mod decimal;

ghost use Rattle.std.specs.Prelude.{◌≡◌};
ghost use Rattle.settings_line.specs.SettingsLine.{line_at, parsed};

// Document 01: "three decimal numbers of 1 to 3 digits".
const MOST_DIGITS: usize = 3;

// So many bytes of a text decide whether it is a settings line: one more than the longest has.
pub const DECISIVE: usize = 13;

// The settings, as they were read.
#[derive(Clone, Copy)]
pub struct Settings {
    pub q: u64,
    pub n: u64,
    pub k: u64,
}

// A settings line that was read, and the cursor past it.
#[derive(Clone, Copy)]
pub struct Line {
    pub settings: Settings,
    pub end: usize,
}

// The settings line that begins at the cursor, whatever follows it.
#[tactic(auto, unfolding(crate::specs::SettingsLine::line_at))]
pub fn read_line(text: &[u8], at: usize) -> Option<Line>
    ensures { result ≡ line_at text.now at }
{
    let q = decimal::read_marked(text, at, MOST_DIGITS, b',')?;
    let n = decimal::read_marked(text, q.end, MOST_DIGITS, b',')?;
    let k = decimal::read_marked(text, n.end, MOST_DIGITS, b'\n')?;
    Some(Line {
        settings: Settings {
            q: q.value,
            n: n.value,
            k: k.value,
        },
        end: k.end,
    })
}

// The settings of a text that is exactly one settings line.
#[tactic(auto, unfolding(crate::specs::SettingsLine::line_at, crate::specs::SettingsLine::parsed))]
pub fn parse(text: &[u8]) -> Option<Settings>
    ensures { result ≡ parsed text.now }
{
    let line = read_line(text, 0)?;
    if line.end != text.len() {
        return None;
    }
    Some(line.settings)
}
