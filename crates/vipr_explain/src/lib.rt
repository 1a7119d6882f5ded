//! Explains a verdict for people: the place at fault in the text, and what the algebra says.
#![tactic(auto)]

// What a result gives. Without it these are dropped, and the caller gives the error.
macro_rules! or_drop {
    ($result:expr, $($kept:ident),+) => {
        match $result {
            Ok(given) => given,
            Err(error) => {
                $(drop($kept);)+
                return Err(error);
            }
        }
    };
}

mod algebra;
mod bounds;
mod by_name;
mod cases;
mod changes;
mod counted;
mod decimal;
mod differences;
mod doubles;
mod doubts;
mod excerpt;
mod faults;
mod foreign;
mod glued;
mod goal;
mod hints;
mod items;
mod joins;
mod lasts;
mod later;
mod left;
mod lines;
mod listed;
mod marks;
mod meant;
mod mends;
mod misplaced;
mod near;
mod order;
mod page;
mod past;
mod reason;
mod rounded;
mod scaled;
mod shifted_ints;
mod shown;
mod sides;
mod sketch;
mod slips;
mod solution;
mod solved;
mod sought;
mod splits;
mod step;
mod stranger;
mod sums;
mod suspects;
mod syntax;
mod text;
mod token;
mod understated;
mod unjoined;
mod wanted;
mod wanted_words;
mod whole;
mod words;

pub use changes::{Change, Changes, changes_of};
pub use near::Join;
pub use page::{Page, with_page};
pub use sought::Refused;
pub use stranger::StrangeBytes;
pub use text::Subject;
pub use whole::page_for;
