//! Likely mistakes behind a fault of a text, and what to write instead: by the cause, by what is
//! wanted, what the token looks like, and its bytes. The first hint that fits is printed.

use crate::counted::{ask_about_items, ask_about_pairs};
use crate::foreign::ask_about_foreign;
use crate::glued::{ask_about_mixed, ask_about_space};
use crate::lines::ask_about_lines;
use crate::meant::ask_whether_meant;
use crate::misplaced::{ask_about_exchange, ask_about_place};
use crate::page::Page;
use crate::stranger::StrangeBytes;
use crate::syntax::TextFault;
use crate::token::Look::*;
use crate::token::{DIGITS, Look, are_all, is_any, is_comment, is_spelled, keyword_of, parted};
use crate::wanted::Section::*;
use crate::wanted::Wanted::*;
use crate::wanted::{Section, TextProgress, count_of, is_word};
use vipr_check::cause::*;
use vipr_frac::Frac;

/// Writes what is likely to be wrong, and what to write instead. What has a value comes first.
pub(crate) fn write_hint(page: &mut Page, cause: u8, fault: &TextFault<'_>) {
    let progress = &fault.found.progress;
    let items = progress.items;
    // What isn't of the certificate's program is first of all.
    if ask_about_lines(page, cause, fault) {
        return;
    }
    if ask_about_exchange(page, cause, fault) {
        return;
    }
    // A keyword that was read as a name is first: the fault is in front of it, whatever the cause.
    if let Some((counted, name, before)) = keyword_as_name(fault) {
        let plural = if before == 1 { "" } else { "s" };
        let (item, _) = counted.words();
        let keyword = counted.keyword();
        write!(
            page,
            "`{name}` was read as a name, and {before} {item}{plural} before it: "
        );
        write!(page, "is the count after `{keyword}`, {items}, too large, ");
        write!(page, "or is something missing in front of `{name}`?");
        return;
    }
    if let Some((above, below)) = split_fraction(fault) {
        let (above, below) = (StrangeBytes(above), StrangeBytes(below));
        write!(page, "is `{above}/{below}` meant? A number is one token, ");
        page.put("without white space or a line break in it");
        return;
    }
    let found = keyword_of(fault.word).unwrap_or("");
    let is_begun = !matches!(progress.section, Section::Version);
    if !matches!(cause, TRUNCATED | TOKEN_TOO_LONG)
        && (ask_about_foreign(page, fault)
            || ask_about_mixed(page, fault)
            || ask_about_space(page, fault)
            || ask_whether_meant(page, progress, fault.word)
            || ask_about_pairs(page, fault)
            || ask_about_items(page, cause, fault)
            || ask_about_place(page, cause, fault))
    {
        return;
    }
    match (cause, Look::of(fault.word)) {
        (TRUNCATED, _) if is_begun && matches!(progress.wanted, Keyword) => {
            write_missing(page, progress.section, "")
        }
        (TRUNCATED, _) if is_cut_in_derivations(progress) => {
            let (passed, count) = (progress.item, progress.items);
            write!(
                page,
                "the text ends after {passed} of {count} derivations: "
            );
            page.put("is the file cut, or the count after `DER` too large?");
        }
        (WRONG_KEYWORD, SmallHeading) if !progress.section.is_behind(found) => {
            write_small(page, progress.section, found)
        }
        (WRONG_KEYWORD, Heading) => write_missing(page, progress.section, found),
        (BAD_INDEX, Heading) if matches!(progress.wanted, IntegerIndex) => {
            let before = progress.item;
            let indices = if before == 1 { "index" } else { "indices" };
            write!(
                page,
                "`{found}` is the keyword of a section, after {before} {indices}: "
            );
            write!(page, "is the count after `INT`, {items}, too large?");
        }
        (BAD_INDEX, Number) if are_all(fault.word, DIGITS) => {
            write_last_index(page, progress);
            write_first_integer(page, fault);
        }
        (BAD_NUMBER, Decimal(fraction)) => {
            write!(page, "decimals are not in the format: write {fraction}");
            if places_of(fault.word) >= MANY_PLACES {
                page.put(" if that is exact; is it a rounded number?");
            }
        }
        (_, look) => page.put(hint(cause, fault, look)),
    }
}

// Whether more than the last derivation is missing.
fn is_cut_in_derivations(progress: &TextProgress) -> bool {
    let is_last = progress.item.saturating_add(1) >= progress.items;
    let is_begun = !matches!(progress.wanted, Keyword | Count);
    matches!(progress.section, Derivations) && is_begun && !is_last
}

// The numerator and the denominator of a fraction that is in several tokens, of which the one at
// the fault has the slash.
fn split_fraction<'a>(fault: &TextFault<'a>) -> Option<(&'a [u8], &'a [u8])> {
    let wanted = fault.found.progress.wanted;
    let (above, below) = match fault.word {
        _ if fault.is_end() => return None,
        // (the token in front of a number of a pair is an index)
        [b'/', ..] if matches!(wanted, RowCoefficient | EntryMultiplier) => return None,
        [b'/'] => (fault.before, fault.after),
        [b'/', below @ ..] => (fault.before, below),
        [above @ .., b'/'] => (above, fault.after),
        _ => return None,
    };
    let ([b'+' | b'-', size @ ..] | size) = above;
    let are_parts = are_all(size, DIGITS) && are_all(below, DIGITS);
    let are_short = size.len().max(below.len()) <= MOST_DIGITS;
    (are_parts && are_short && !size.is_empty() && !below.is_empty()).then_some((above, below))
}

// The section whose count is too large, the next keyword, which was read as a name, and how many
// items of the section were read before it.
fn keyword_as_name(fault: &TextFault<'_>) -> Option<(Section, &'static str, u32)> {
    let (found, name) = (&fault.found, fault.name);
    let progress = &found.progress;
    match (progress.section, progress.wanted) {
        (Integers, Keyword) => Some((Variables, "INT", found.name_int?)),
        (Constraints, Sense) if is_word(name, "RTP") => Some((Constraints, "RTP", progress.item)),
        (Solutions, _) if is_word(name, "DER") => Some((Solutions, "DER", progress.item)),
        (Derivations, Keyword) if is_word(name, "DER") => {
            Some((Solutions, "DER", progress.item.saturating_sub(1)))
        }
        _ => None,
    }
}

// Writes that a section is missing: the text ends there, or has this keyword.
fn write_missing(page: &mut Page, section: Section, found: &str) {
    let keyword = section.keyword();
    let (_, empty) = section.words();
    if found.is_empty() {
        write!(
            page,
            "is the file cut, or is `{keyword}` missing? Then write {empty}"
        );
    } else if section.is_behind(found) {
        write!(page, "the section `{found}` was read before");
        page.put(": is it here twice?");
    } else {
        write!(page, "is `{keyword}` missing, or in another place? ");
        write!(page, "Then in front of `{found}` write {empty}");
    }
}

// Writes that a keyword of this section or of a later one isn't in capitals.
fn write_small(page: &mut Page, section: Section, found: &str) {
    let keyword = section.keyword();
    write!(page, "keywords are in capitals: is `{found}` meant?");
    if !is_word(found.as_bytes(), keyword) {
        let (_, empty) = section.words();
        write!(page, " In front of it write {empty}");
    }
}

// How many digits are after the point of a decimal.
fn places_of(word: &[u8]) -> usize {
    match parted(word, b".") {
        Some((_, places)) => places.len(),
        None => 0,
    }
}

// Writes that an index is too large.
fn write_last_index(page: &mut Page, progress: &TextProgress) {
    match progress.variables.checked_sub(1) {
        Some(last) => write!(
            page,
            "indices count from 0: that of the last variable is {last}"
        ),
        None => page.put("the text has no variables (VAR 0)"),
    }
    page.put(match (progress.wanted, progress.section) {
        (RowIndex, Solutions) => "; are the pairs INDEX VALUE?",
        (RowIndex, _) => "; are the pairs INDEX COEFFICIENT?",
        _ => "",
    });
    if let Objective = progress.section {
        page.put(" Or is this a constant? An objective has none");
    }
}

// Asks whether INT counts variables from 1, if no index is 0, and this one is the first that is too
// large.
fn write_first_integer(page: &mut Page, fault: &TextFault<'_>) {
    let found = &fault.found;
    let is_next = count_of(fault.word) == found.progress.variables;
    if matches!(found.progress.wanted, IntegerIndex) && is_next && !found.has_first_integer {
        page.put(". Does INT count variables from 1? Then each of its indices is 1 too large");
    }
}

// The hint without a value, by the cause.
fn hint(cause: u8, fault: &TextFault<'_>, look: Look) -> &'static str {
    match cause {
        WRONG_KEYWORD => keyword_hint(fault.found.progress.section, fault),
        TRUNCATED => match (fault.found.progress.wanted, fault.found.progress.section) {
            (Keyword, _) if fault.text.is_empty() => "the text is empty: is this another file?",
            (Keyword, _) if fault.text.contains(&b'%') => "nothing is in the text but white space \
                and comments: a comment ends at a line feed, and not at a carriage return",
            (Keyword, _) => "nothing is in the text but white space",
            (LastReference, _) => LAST_REFERENCE,
            (_, Derivations) => "is the file cut, or the count after `DER` too large?",
            _ => "is the file cut, or a count too large?",
        },
        UNSUPPORTED_VERSION => match fault.word {
            b"1.1" =>
                "only version 1.0 is read: if no derivation is `weak` or `incomplete`, write 1.0",
            _ => "only version 1.0 is read, which is written `1.0`",
        },
        NUMBER_TOO_LARGE =>
            "numerator and denominator may be 2^127 - 1 at most; docs/FORMAT.md says what can help",
        ZERO_DENOMINATOR => "a denominator may not be 0",
        COUNT_TOO_LARGE =>
            "counts, and constraints and derivations together, may be 4294967295 at most",
        REPEATED_INDEX => match fault.found.progress.section {
            Solutions => "a variable may be in a solution once: is this a list of all values, and \
                not pairs INDEX VALUE after their count?",
            _ => "a variable may be in a vector once: are its coefficients to be added up? Or is \
                this a list of all coefficients, and not pairs INDEX COEFFICIENT after a count?",
        },
        BAD_OBJECTIVE_SENSE => "write `min` or `max` after `OBJ`",
        BAD_CLAIM => "write `infeas`, or `range` and two bounds, after `RTP`",
        BAD_REASON if is_spelled(fault.word, &REASONS) =>
            "reasons are in small letters: `asm`, `lin`, `rnd`, `uns` or `sol`",
        BAD_REASON if is_word(fault.word, "}") => NO_REASON,
        BAD_REASON => "write `uns i1 l1 i2 l2` to join two branches, `lin` or `rnd` for a sum, \
            `asm` for an assumption, `sol` for a cutoff",
        TOKEN_TOO_LONG => "a token may have 65,535 bytes at most",
        TRAILING_TEXT => match fault.word {
            word if is_word(word, "VER") || is_comment(word) => "a file is one certificate, \
                without comments after `VER`: remove all from here on",
            _ => "make the count after `DER` larger, or remove all from here on",
        },
        _ => part_hint(cause, fault, look),
    }
}

// The keyword of a section is missing.
fn keyword_hint(section: Section, fault: &TextFault<'_>) -> &'static str {
    let word = fault.word;
    match section {
        Section::Version => start_hint(fault),
        _ if is_comment(word) =>
            "is this a comment? Comments may only be before `VER`, and begin with `%`",
        Integers => "is the count after `VAR` right, or is a space in a name? Names alone are \
            after it, and no types or bounds",
        Objective if are_all(word, DIGITS) =>
            "is the count after `INT` too small? `INT` takes a count and that many indices",
        Objective if is_spelled(word, &LP_WORDS) => "is `OBJ` missing in front of this?",
        Objective => "is the count after `INT` too small?",
        Constraints => "is the count after `min` or `max` too small or missing?",
        Section::Claim => "is the first count after `CON` too small? It counts all constraints, \
            bounds included; or is the last constraint's count of coefficients too small?",
        Solutions => "`range` takes two bounds, and `infeas` none",
        Derivations => "is the count after `SOL` too small, or that of a solution's values?",
        Variables => "the next section comes after the version `1.0`",
    }
}

// What the first token of other files begins with.
#[rattlefmt::skip]
const STARTS: [(&[u8], &str); 6] = [
    (b"\xef\xbb\xbf", "this begins with a byte order mark: save the file without it"),
    (b"<", "this looks like a page of HTML or XML, and not like a certificate"),
    (b"\x1f\x8b", "this looks compressed: gzip -dc FILE | vipr explain --long"),
    (b"\xfd7zXZ", "this looks compressed: xz -dc FILE | vipr explain --long"),
    (b"\x28\xb5\x2f\xfd", "this looks compressed: zstd -dc FILE | vipr explain --long"),
    (b"BZh", "this looks compressed: bzip2 -dc FILE | vipr explain --long"),
];

// The first token isn't `VER`.
fn start_hint(fault: &TextFault<'_>) -> &'static str {
    let word = fault.word;
    for start in &STARTS {
        if word.starts_with(start.0) {
            return start.1;
        }
    }
    match word {
        [0xff, 0xfe, ..] | [0xfe, 0xff, ..] =>
            "this looks like UTF-16: save the file as ASCII or as UTF-8 without a byte order mark",
        [b'#', ..] | [b'/', b'/' | b'*', ..] => "a comment begins with `%`",
        [b'{' | b'[', ..] => "this looks like JSON, and not like a certificate",
        [b'(', ..] => "this looks like SMT-LIB, and not like a certificate",
        _ if is_word(word, "p") || are_all(word, b"-0123456789") =>
            "this looks like a file of a SAT solver (DIMACS, DRAT or LRAT), and not like a certificate",
        _ if is_word(word, "pseudo-Boolean") || is_word(fault.after, "#variable=") =>
            "this looks like a pseudo-Boolean problem or proof, and not like a certificate",
        _ if is_any(word, &[b"solution", b"objective"]) =>
            "this looks like a file of a solution, and not like a certificate",
        [b'\\', b'd' | b'b' | b's', ..] => "this looks like TeX, and not like a certificate",
        _ if word.starts_with(b"*") || is_any(word, &[b"NAME", b"ROWS"]) =>
            "this looks like an MPS file, \
            which has the problem alone: a certificate has the claim and its proof, too",
        _ if word.starts_with(b"\\") || is_spelled(word, &LP_WORDS) =>
            "this looks like an LP file, \
            which has the problem alone: a certificate has the claim and its proof, too",
        _ => "a certificate begins with the line `VER 1.0`: is it missing here, or is this \
            another file?",
    }
}

// The token is no part of an item as it is wanted. First a keyword, since something is missing in
// front of it, whatever is wanted; then bytes that are in no token; then what is wanted, and what
// the token looks like.
fn part_hint(cause: u8, fault: &TextFault<'_>, look: Look) -> &'static str {
    let word = fault.word;
    match look {
        Heading => match (fault.found.progress.wanted, fault.found.progress.section) {
            (UpperBound, _) => "`range` takes two bounds: the lower and the upper one",
            (RightHandSide, _) if is_word(word, "OBJ") =>
                "is the right-hand side missing? NAME SENSE RIGHT-HAND-SIDE, and then `OBJ`",
            (_, Solutions) if is_word(word, "OBJ") =>
                "`OBJ` stands for a vector in constraints and derivations alone",
            _ => "this is the keyword of a section: is a count in front of it too large, or is \
                something missing there?",
        },
        NotAscii => match (fault.found.progress.wanted, word) {
            (Sense, b"\xe2\x89\xa4") => "write `L` for this sign",
            (Sense, b"\xe2\x89\xa5") => "write `G` for this sign",
            _ => "this token has a byte that is not ASCII, as a minus or a space of a word \
                processor: signs, digits and spaces are ASCII",
        },
        Separated if !word.contains(&b'(') =>
            "tokens are separated by white space alone: remove the comma or semicolon",
        _ => wanted_hint(cause, fault, look),
    }
}

// The token isn't what is wanted.
fn wanted_hint(cause: u8, fault: &TextFault<'_>, look: Look) -> &'static str {
    let word = fault.word;
    match fault.found.progress.wanted {
        BoundCount => "`CON` takes two counts: the constraints, and how many of them are bounds \
            (write 0 if you don't know)",
        RowCount => match fault.found.progress.section {
            Solutions =>
                "a solution is NAME COUNT INDEX VALUE ..: is the name missing, or a space in it?",
            Objective => "the objective is a count and then that many pairs INDEX COEFFICIENT: \
                is the count missing?",
            _ => "a vector is a count and then that many pairs INDEX COEFFICIENT; \
                the right-hand side is before it",
        },
        EntryCount if is_any(word, &[b"weak", b"incomplete"]) =>
            "is this derivation of version 1.1? \
            Complete the certificate first, by viprcomp of the VIPR package",
        EntryCount => "`lin` and `rnd` take COUNT INDEX MULTIPLIER ..",
        Count => "a count is digits alone: is it missing after the keyword?",
        IntegerIndex => "`INT` lists variables by their indices, from 0, and not by names",
        RowIndex => match (look, fault.found.progress.section) {
            _ if is_joined(word) => "an index is digits alone, and a pair is two tokens, the \
                index and the number, with white space alone between them",
            (Number | Fraction | Decimal(_), Solutions) => "an index is digits alone, and indices \
                count from 0: are the pairs INDEX VALUE?",
            (Number | Fraction | Decimal(_), _) => "an index is digits alone, and indices count \
                from 0: are the pairs INDEX COEFFICIENT?",
            _ => "a variable is named by its index, from 0: is a name in its place, is a pair \
                missing, or is the count of pairs in front of it too large?",
        },
        Sense => sense_hint(fault.name, look, word),
        OpenBrace => open_hint(word),
        LastReference if is_word(word, "-") => "a number has no spaces: write -1",
        LastReference => LAST_REFERENCE,
        Branch => "`uns` takes four indices: i1 l1 i2 l2, where l1 and l2 are the assumptions",
        CloseBrace => close_hint(word),
        _ => number_hint(cause, fault, look),
    }
}

// Whether a token looks like a pair in one token: something, a separator, and a number.
fn is_joined(word: &[u8]) -> bool {
    match parted(word, b",:=*") {
        Some((front, behind)) => !front.is_empty() && parted(behind, DIGITS).is_some(),
        None => false,
    }
}

// The token isn't `{`.
fn open_hint(word: &[u8]) -> &'static str {
    match word {
        [b'{', b'}', ..] => NO_REASON,
        [b'{', b'{', ..] | [b'(' | b'[', ..] =>
            "a reason is between `{` and `}`, with a space on both sides of each",
        [b'{', ..] => "put a space after the brace",
        _ if is_any(word, &REASONS) => "write `{` in front of this reason, and `}` after it",
        b"-1" => "is this the last reference? It comes after the reason, as in `{ asm } -1`",
        _ => "is the count of coefficients too small or missing, or is the reason missing? \
            COUNT, that many pairs INDEX COEFFICIENT, and then the reason, as `{ asm }`",
    }
}

// The token isn't `}`.
fn close_hint(word: &[u8]) -> &'static str {
    match word {
        [b'}'] => "is a number missing in front of the brace?",
        [b'}', ..] => "put a space after the brace",
        [.., b'}'] => "put a space before the brace",
        b"-1" => "is the brace missing in front of this? A reason ends with `}`",
        _ => "the reason should end here: `asm` and `sol` take nothing, `uns` takes \
            i1 l1 i2 l2, `lin` and `rnd` COUNT INDEX MULTIPLIER ..: is its number of entries \
            missing or too small?",
    }
}

// The token is no index of an entry, or no number.
fn number_hint(cause: u8, fault: &TextFault<'_>, look: Look) -> &'static str {
    let is_number = cause == BAD_NUMBER;
    match (fault.word, fault.found.progress.wanted) {
        ([b'}'], EntryIndex | EntryMultiplier) =>
            "the brace comes before the last entry that is counted: is the count of entries too \
            large, or a number missing?",
        ([b'}'], _) => "is a number missing in front of the brace?",
        ([b'/', ..], _) => "a number has no spaces, as -11/9",
        ([b'+' | b'-'], _) if is_number => "a number has no spaces, as -11/9",
        (_, EntryIndex) => match look {
            _ if is_joined(fault.word) => "an entry is two tokens, INDEX MULTIPLIER, with white \
                space alone between them",
            Number | Fraction => "an entry is two tokens, INDEX MULTIPLIER, the index first",
            _ => "a constraint is named by its index, digits alone, and not by its name; \
                is the number of entries right?",
        },
        ([.., b'}'], _) => "put a space before the brace",
        _ if is_number => spelled_hint(fault, look),
        _ => "see the table of causes in docs/FORMAT.md",
    }
}

// Whether a name looks like the end of a fraction.
fn is_denominator(name: &[u8]) -> bool {
    match name {
        [b'/', below @ ..] => !below.is_empty() && are_all(below, DIGITS),
        _ => false,
    }
}

// The token is no sense.
fn sense_hint(name: &[u8], look: Look, word: &[u8]) -> &'static str {
    match word {
        _ if is_denominator(name) => "the name in front of this begins with `/`: is it the end of \
            a number, which is one token, without white space or a line break in it?",
        _ if is_comment(name) => "does the name in front of this begin a comment? Comments may \
            only be before `VER`",
        _ if is_spelled(word, &AT_LEAST) => "write `G` for `>=`",
        _ if is_spelled(word, &AT_MOST) => "write `L` for `<=`",
        _ if is_spelled(word, &EQUAL) => "write `E` for `=`",
        [b'R' | b'N'] =>
            "a constraint with two sides is two, by `G` and by `L`; a free row is left out",
        _ if !name.is_ascii() =>
            "the name has a byte that is not ASCII: is it a space of a word processor?",
        _ if Frac::parse(name).is_ok() => "the name in front of this is a number: is the count of \
            coefficients in front of that too small, or a right-hand side missing?",
        [.., b'"'] => "a name has no spaces, not even in quotes",
        _ if is_any(name, &[b"G", b"L", b"E"]) => "the name in front of this is `E`, `L` or `G`: \
            is it the sense, and the name missing? NAME SENSE RIGHT-HAND-SIDE COUNT INDEX \
            COEFFICIENT ..",
        _ if matches!(look, Number | Fraction) => "a sense is a letter, and sense and right-hand \
            side are before the coefficients: \
            NAME SENSE RIGHT-HAND-SIDE COUNT INDEX COEFFICIENT ..",
        _ => "a sense is the letter `E`, `L` or `G`; or is a space in the name, or a coefficient \
            missing above? The token before this one was read as a name",
    }
}

// The token is no number.
fn spelled_hint(fault: &TextFault<'_>, look: Look) -> &'static str {
    let word = fault.word;
    let has_mark = parted(word, b"%&'()*[]").is_some();
    match look {
        Infinity | Exponent => large_hint(fault, look),
        Comma => "a comma is not in the format: write digits alone, or a fraction, as 13/4",
        _ if matches!(look, Fraction) || word.starts_with(b"Fraction(") =>
            "a fraction is digits, `/` and digits, and its sign is in front, as -5/2",
        _ if is_any(word, &[b"nan", b"NaN", b"None", b"null"]) =>
            "is there no value? Then leave the entry or the constraint out",
        Number if is_decimal(word) => "decimals are not in the format: write a fraction, as 13/4",
        _
            if !matches!(fault.found.progress.section, Section::Claim)
                && (has_mark || matches!(look, Number)) =>
            "a number is digits with or without a sign, or \
            a fraction, as -3 or 13/4, and nothing else is in its token",
        _ => match fault.found.progress.section {
            Section::Claim => "two bounds come after `range` and nothing else: each is a number, \
                as -3 or 13/4, or `-inf` for no lower one, or `inf` for no upper one",
            _ => "a number is digits with or without a sign, or a fraction, as -3 or 13/4; \
                is the count before it right?",
        },
    }
}

// The token is infinity, or a number with an exponent.
fn large_hint(fault: &TextFault<'_>, look: Look) -> &'static str {
    let progress = fault.found.progress;
    match (progress.section, progress.wanted, look) {
        (Section::Claim, LowerBound, Infinity) =>
            "for no lower bound write `-inf`; if the problem is infeasible write `RTP infeas`",
        (Section::Claim, _, Infinity) =>
            "for no bound write `-inf` first and `inf` second, in small letters",
        (Section::Claim, ..) => "exponents are not in the format: write all digits, or `-inf` \
            first and `inf` second for no bound",
        (Constraints, RightHandSide, _) => "write all digits, or a fraction; an infinite bound is \
            no constraint: leave it out, and make the counts after `CON` smaller",
        (_, _, Infinity) => "infinite values may only be bounds of the claim",
        _ => "exponents are not in the format: write all digits, or a fraction, as 1/1000",
    }
}

// Whether bytes are digits with a point.
fn is_decimal(word: &[u8]) -> bool {
    let ([b'+' | b'-', number @ ..] | number) = word;
    match parted(number, b".") {
        Some((front, behind)) => {
            number.len() > 2 && are_all(front, DIGITS) && are_all(behind, DIGITS)
        }
        None => false,
    }
}

const LAST_REFERENCE: &str = "write the last reference after `}`: the last derivation that names \
    this one, or -1 to keep it";

const REASONS: [&[u8]; 5] = [b"asm", b"lin", b"rnd", b"uns", b"sol"];

// Other spellings of the senses.
#[rattlefmt::skip]
const AT_LEAST: [&[u8]; 9] =
    [b">=", b"=>", b">", b"&gt;=", b"g", b"ge", b"geq", b"gte", b"greater"];

#[rattlefmt::skip]
const AT_MOST: [&[u8]; 9] =
    [b"<=", b"=<", b"<", b"&lt;=", b"l", b"le", b"leq", b"lte", b"less"];

const EQUAL: [&[u8]; 6] = [b"=", b"==", b"e", b"eq", b"equal", b"equals"];

const NO_REASON: &str = "is the reason missing between the braces? `{ asm }`, `{ sol }`, \
    `{ uns i1 l1 i2 l2 }`, or `lin` or `rnd` with COUNT INDEX MULTIPLIER ..";

// From so many places on a decimal is likely to be rounded.
const MANY_PLACES: usize = 5;

// How many digits a part of a fraction has at most.
const MOST_DIGITS: usize = 39;

const LP_WORDS: [&[u8]; 4] = [b"minimize", b"maximize", b"min", b"max"];
