//! How far a certificate's text was read: what it has to have at its next token.

/// The sections of a certificate, in their order.
#[derive(Clone, Copy)]
pub(crate) enum Section {
    Version,
    Variables,
    Integers,
    Objective,
    Constraints,
    Claim,
    Solutions,
    Derivations,
}

/// What is wanted at a token.
#[derive(Clone, Copy)]
pub(crate) enum Wanted {
    Keyword,
    Version,
    Count,
    BoundCount,
    Name,
    IntegerIndex,
    Direction,
    Sense,
    RightHandSide,
    RowCount,
    RowIndex,
    RowCoefficient,
    Claim,
    LowerBound,
    UpperBound,
    OpenBrace,
    Reason,
    EntryCount,
    EntryIndex,
    EntryMultiplier,
    Branch,
    CloseBrace,
    LastReference,
    Nothing,
}

/// How far a text was read: the section, the item in it, and what is wanted next.
#[derive(Clone, Copy)]
pub(crate) struct TextProgress {
    pub(crate) section: Section,
    pub(crate) wanted: Wanted,
    /// The number of variables and of constraints of the problem.
    pub(crate) variables: u32,
    pub(crate) constraints: u32,
    /// The position of the item in its section, and how many there are.
    pub(crate) item: u32,
    pub(crate) items: u32,
    /// The position of the pair, the entry or the number in the item, and how many there are.
    pub(crate) part: u32,
    pub(crate) parts: u32,
    /// The variable of the last pair.
    pub(crate) variable: u32,
}

/// The keywords of the sections, in their order.
pub(crate) const KEYWORDS: [&str; 8] = ["VER", "VAR", "INT", "OBJ", "CON", "RTP", "SOL", "DER"];

impl Section {
    /// Its keyword.
    pub(crate) fn keyword(self) -> &'static str {
        KEYWORDS[self as usize]
    }

    /// Whether this keyword is that of a section before it.
    pub(crate) fn is_behind(self, keyword: &str) -> bool {
        for before in &KEYWORDS[..self as usize] {
            if is_word(keyword.as_bytes(), before) {
                return true;
            }
        }
        false
    }

    /// What one of its items is, if it has any, and what it is without an item.
    pub(crate) fn words(self) -> (&'static str, &'static str) {
        match self {
            Section::Version => ("", "`VER 1.0`"),
            Section::Variables => ("variable", "`VAR COUNT NAME ..`"),
            Section::Integers => ("integer variable", "`INT 0` if no variable is integer"),
            Section::Objective => ("", "`OBJ min 0` if there is no objective"),
            Section::Constraints => ("constraint", "`CON 0 0` if there is no constraint"),
            Section::Claim => ("", "`RTP infeas` or `RTP range LOWER UPPER`"),
            Section::Solutions => ("solution", "`SOL 0` if none is listed"),
            Section::Derivations => ("derivation", "`DER 0` if nothing is derived"),
        }
    }

    // The section behind it; the last one has none.
    fn next(self) -> Option<Section> {
        match self {
            Section::Version => Some(Section::Variables),
            Section::Variables => Some(Section::Integers),
            Section::Integers => Some(Section::Objective),
            Section::Objective => Some(Section::Constraints),
            Section::Constraints => Some(Section::Claim),
            Section::Claim => Some(Section::Solutions),
            Section::Solutions => Some(Section::Derivations),
            Section::Derivations => None,
        }
    }
}

impl TextProgress {
    /// The start of a text.
    pub(crate) fn start() -> TextProgress {
        TextProgress {
            section: Section::Version,
            wanted: Wanted::Keyword,
            variables: 0,
            constraints: 0,
            item: 0,
            items: 0,
            part: 0,
            parts: 0,
            variable: 0,
        }
    }

    /// The index of the item among all constraints, if it is a derivation; 0 for the claim; else
    /// the item's position.
    pub(crate) fn index(&self) -> u32 {
        match self.section {
            Section::Derivations => self.constraints.saturating_add(self.item),
            Section::Claim => 0,
            _ => self.item,
        }
    }

    /// Passes a token that is as it is wanted.
    pub(crate) fn pass(&mut self, word: &[u8]) {
        match self.wanted {
            Wanted::Keyword => match self.section {
                Section::Version => self.wanted = Wanted::Version,
                Section::Objective => self.wanted = Wanted::Direction,
                Section::Claim => self.wanted = Wanted::Claim,
                _ => self.wanted = Wanted::Count,
            },
            Wanted::Count => self.pass_count(count_of(word)),
            Wanted::BoundCount => self.begin_item(0),
            Wanted::Name => match self.section {
                Section::Variables => self.end_item(),
                Section::Solutions => self.wanted = Wanted::RowCount,
                _ => self.wanted = Wanted::Sense,
            },
            Wanted::Sense => self.wanted = Wanted::RightHandSide,
            Wanted::Direction | Wanted::RightHandSide => self.wanted = Wanted::RowCount,
            Wanted::RowCount => self.begin_part(Wanted::RowIndex, 0, count_of(word)),
            Wanted::RowIndex => {
                self.variable = count_of(word);
                self.wanted = Wanted::RowCoefficient;
            }
            Wanted::RowCoefficient => self.end_part(Wanted::RowIndex),
            Wanted::Claim if is_word(word, "range") => self.wanted = Wanted::LowerBound,
            Wanted::LowerBound => self.wanted = Wanted::UpperBound,
            Wanted::Version | Wanted::Claim | Wanted::UpperBound => self.end_section(),
            Wanted::OpenBrace => self.wanted = Wanted::Reason,
            Wanted::Reason => {
                self.part = 0;
                self.parts = 4;
                self.wanted = first_of_reason(word);
            }
            Wanted::EntryCount => self.begin_part(Wanted::EntryIndex, 0, count_of(word)),
            Wanted::EntryIndex => self.wanted = Wanted::EntryMultiplier,
            Wanted::EntryMultiplier => self.end_part(Wanted::EntryIndex),
            Wanted::Branch => self.end_part(Wanted::Branch),
            Wanted::CloseBrace => self.wanted = Wanted::LastReference,
            Wanted::IntegerIndex | Wanted::LastReference => self.end_item(),
            Wanted::Nothing => {}
        }
    }

    /// Passes the tokens of a derivation in front of the brace that closes its reason.
    pub(crate) fn pass_to_brace(&mut self) {
        self.wanted = Wanted::CloseBrace;
    }

    // Ends the section.
    fn end_section(&mut self) {
        match self.section.next() {
            Some(next) => {
                self.section = next;
                self.wanted = Wanted::Keyword;
            }
            None => self.wanted = Wanted::Nothing,
        }
    }

    // Passes the number of a section's items.
    fn pass_count(&mut self, count: u32) {
        self.items = count;
        match self.section {
            Section::Variables => {
                self.variables = count;
                self.begin_item(0);
            }
            Section::Constraints => {
                self.constraints = count;
                self.wanted = Wanted::BoundCount;
            }
            _ => self.begin_item(0),
        }
    }

    /// Begins the item of this position, if there is one; else the section ends.
    pub(crate) fn begin_item(&mut self, item: u32) {
        self.item = item;
        match self.section {
            _ if item >= self.items => self.end_section(),
            Section::Integers => self.wanted = Wanted::IntegerIndex,
            _ => self.wanted = Wanted::Name,
        }
    }

    // Ends the item: behind the last one the section ends.
    fn end_item(&mut self) {
        self.begin_item(self.item.saturating_add(1));
    }

    // Begins the part of this position, of so many, with this; behind the last one the row or the
    // reason ends.
    fn begin_part(&mut self, first: Wanted, part: u32, parts: u32) {
        self.part = part;
        self.parts = parts;
        match (first, self.section) {
            _ if part < parts => self.wanted = first,
            (Wanted::RowIndex, Section::Objective) => self.end_section(),
            (Wanted::RowIndex, Section::Derivations) => self.wanted = Wanted::OpenBrace,
            (Wanted::RowIndex, _) => self.end_item(),
            _ => self.wanted = Wanted::CloseBrace,
        }
    }

    // Ends the part, of those that begin with this.
    fn end_part(&mut self, first: Wanted) {
        self.begin_part(first, self.part.saturating_add(1), self.parts);
    }
}

/// Whether a token is this word.
pub(crate) fn is_word(token: &[u8], word: &str) -> bool {
    token == word.as_bytes()
}

// What follows the word of a reason.
fn first_of_reason(word: &[u8]) -> Wanted {
    if is_word(word, "uns") {
        Wanted::Branch
    } else if is_word(word, "lin") || is_word(word, "rnd") {
        Wanted::EntryCount
    } else {
        Wanted::CloseBrace
    }
}

/// The number that digits spell; 0 for other bytes, as `OBJ`.
pub(crate) fn count_of(word: &[u8]) -> u32 {
    let mut count: u32 = 0;
    for byte in word {
        if *byte < b'0' || b'9' < *byte {
            return 0;
        }
        count = count
            .saturating_mul(10)
            .saturating_add(u32::from(*byte - b'0'));
    }
    count
}
