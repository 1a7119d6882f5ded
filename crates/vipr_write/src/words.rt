//! Words, each behind a space.
ghost use Rattle.std.specs.Prelude.{◌∷◌, ◌<◌, flat_map, map};
ghost use Rattle.std.specs.Fmt.{decimal, signed_decimal};
ghost use Rattle.vipr_spec.specs.Number.{number_text};
ghost use Rattle.vipr_linear.specs.Constraint.{sense_of};
ghost use Rattle.vipr_write.specs.Canonical.{pair_words, counted_words, sense_word, bound_word};
ghost use Rattle.vipr_write.specs.Canonical.{last_word, words_after_spaces};
ghost use Rattle.vipr_write.specs.Lines.{parts_text};
ghost use Rattle.vipr_bytes.specs.Puts.{Puts};

use crate::step_reason::SumEntry;
use itoa::Buffer;
use vipr_bytes::Out;
use vipr_frac::Frac;
use vipr_linear::Sense;

/// A count or an index, with no space.
#[inline(always)]
pub(crate) fn put_decimal<O: Out>(out: &mut O, n: usize)
    ensures { Puts O.carries out.old out.new (decimal n) }
{
    if n < 10 {
        out.push(b'0' + n as u8);
        return;
    }
    if n < 100 {
        out.push(b'0' + (n / 10) as u8);
        out.push(b'0' + (n % 10) as u8);
        return;
    }
    put_digits(out, n);
}

// A count or an index of three digits or more, with no space.
#[inline(never)]
fn put_digits<O: Out>(out: &mut O, n: usize)
    ensures { Puts O.carries out.old out.new (decimal n) }
{
    let mut buffer = Buffer::new();
    out.put(buffer.format(n).as_bytes());
}

/// A whole number, with no space.
#[inline(always)]
pub(crate) fn put_whole<O: Out>(out: &mut O, n: i64)
    ensures { Puts O.carries out.old out.new (signed_decimal n) }
{
    let size = n.unsigned_abs();
    if n < 0 {
        out.push(b'-');
        put_decimal(out, size as usize);
        return;
    }
    put_decimal(out, size as usize);
}

/// A fraction of whole numbers, with no space.
#[inline(always)]
pub(crate) fn put_parts<O: Out>(out: &mut O, top: i64, bottom: usize)
    ensures { Puts O.carries out.old out.new (parts_text top bottom) }
{
    put_whole(out, top);
    if bottom == 1 {
        return;
    }
    out.push(b'/');
    put_decimal(out, bottom);
}

/// A word.
#[inline(always)]
pub(crate) fn put_word<O: Out>(out: &mut O, word: &[u8])
    ensures { Puts O.carries out.old out.new (32 ∷ word.now) }
{
    out.push(b' ');
    out.put(word);
}

/// A count or an index.
#[inline(always)]
pub(crate) fn put_index<O: Out>(out: &mut O, n: usize)
    ensures { Puts O.carries out.old out.new (32 ∷ decimal n) }
{
    out.push(b' ');
    put_decimal(out, n);
}

/// A number.
#[inline(always)]
pub(crate) fn put_number<O: Out>(out: &mut O, x: &Frac)
    ensures { Puts O.carries out.old out.new
        (32 ∷ number_text x.now) }
{
    out.push(b' ');
    let top = i64::try_from(x.numer());
    let bottom = usize::try_from(x.denom());
    match (top, bottom) {
        (Ok(top), Ok(bottom)) => put_parts(out, top, bottom),
        _ => put_fraction(out, x),
    }
}

// A number of any size, with no space.
#[inline(never)]
fn put_fraction<O: Out>(out: &mut O, x: &Frac)
    ensures { Puts O.carries out.old out.new (number_text x.now) }
{
    let mut top = Buffer::new();
    out.put(top.format(x.numer()).as_bytes());
    if x.denom() == 1 {
        return;
    }
    let mut bottom = Buffer::new();
    out.push(b'/');
    out.put(bottom.format(x.denom()).as_bytes());
}

/// Indices with numbers.
pub(crate) fn put_pairs<O: Out, E: SumEntry>(out: &mut O, pairs: &[E])
    ensures { Puts O.carries out.old out.new
        (words_after_spaces (flat_map pair_words (map E.pair pairs.now))) }
{
    for pair in pairs {
        put_index(out, pair.index() as usize);
        pair.put_multiplier(out);
    }
}

/// How many indices with numbers there are, and then each of them.
pub(crate) fn put_counted<O: Out, E: SumEntry>(out: &mut O, pairs: &[E])
    ensures { Puts O.carries out.old out.new
        (words_after_spaces (counted_words (map E.pair pairs.now))) }
{
    put_index(out, pairs.len());
    put_pairs(out, pairs);
}

/// A sense.
pub(crate) fn put_sense<O: Out>(out: &mut O, sense: Sense)
    ensures { Puts O.carries out.old out.new
        (32 ∷ sense_word (sense_of sense)) }
{
    match sense {
        Sense::E => out.put(b" E"),
        Sense::L => out.put(b" L"),
        Sense::G => out.put(b" G"),
    }
}

/// A bound of the claim, with how it is written if it is infinite.
pub(crate) fn put_bound<O: Out>(out: &mut O, infinite: &[u8], bound: Option<Frac>)
    ensures { Puts O.carries out.old out.new
        (32 ∷ bound_word infinite.now bound) }
{
    match bound {
        None => put_word(out, infinite),
        Some(x) => put_number(out, &x),
    }
}

/// The last derivation that refers to one.
pub(crate) fn put_last<O: Out>(out: &mut O, last: Option<u32>)
    ensures { Puts O.carries out.old out.new
        (32 ∷ last_word last) }
{
    match last {
        None => out.put(b" -1"),
        Some(i) => put_index(out, i as usize),
    }
}
