//! The line by which a file is refused, taken apart.

/// A place of a file: its line and its column, both from 1. A column counts characters.
#[derive(Clone, Copy)]
pub struct Spot {
    pub line: u32,
    pub column: u32,
}

/// Why a file is refused.
#[derive(Clone, Copy)]
pub enum Kind {
    TooLong,
    Utf8,
    Syntax,
    Limit,
    NotBuilt,
    /// The rule with this number.
    Rule(u8),
}

/// What a line that refuses a file says.
#[derive(Clone, Copy)]
pub struct Refused<'a> {
    /// Whether the file is the application; else it holds the events.
    pub is_app: bool,
    pub kind: Kind,
    /// What the line has for the kind, as `Syntax` or `N11 UnknownName`.
    pub title: &'a str,
    pub spot: Option<Spot>,
    /// The name that the rule speaks of, or nothing.
    pub name: &'a str,
}

// The number of a rule, as `11` of `N11 UnknownName`.
fn rule_of(title: &str) -> Option<u8> {
    let (number, _) = title.strip_prefix('N')?.split_once(' ')?;
    number.parse::<u8>().ok()
}

fn kind_of(title: &str) -> Option<Kind> {
    match title {
        "TooLong" => Some(Kind::TooLong),
        "Utf8" => Some(Kind::Utf8),
        "Syntax" => Some(Kind::Syntax),
        "Limit" => Some(Kind::Limit),
        "NotBuilt" => Some(Kind::NotBuilt),
        _ => rule_of(title).map(Kind::Rule),
    }
}

// The place that `3:16` stands for.
fn spot_of(text: &str) -> Option<Spot> {
    let (line, column) = text.split_once(':')?;
    let line = line.parse::<u32>().ok()?;
    let column = column.parse::<u32>().ok()?;
    Some(Spot { line, column })
}

// The place and the name behind a line's ` at `.
fn place_and_name(rest: &str) -> (Option<Spot>, &str) {
    match rest.split_once(' ') {
        Some((place, name)) => (spot_of(place), name),
        None => (spot_of(rest), ""),
    }
}

impl<'a> Refused<'a> {
    /// What this line says, if it refuses a file. The name may hold line feeds.
    ///
    /// It has no clause: what is made of it is read by people alone, and no answer of the program rests on it; tests have the diagnosis of each line.
    pub fn of(line: &'a str) -> Option<Refused<'a>> {
        let line = line.strip_suffix('\n').unwrap_or(line);
        let (file, rest) = line.strip_prefix("refused ")?.split_once(' ')?;
        let (title, (spot, name)) = match rest.split_once(" at ") {
            Some((title, rest)) => (title, place_and_name(rest)),
            None => (rest, (None, "")),
        };
        Some(Refused {
            is_app: file == "app",
            kind: kind_of(title)?,
            title,
            spot,
            name,
        })
    }
}
