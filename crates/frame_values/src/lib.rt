//! What the items of a document's sections say (dir-spec): the values of their arguments and the places of their objects, or
//! the place of what is wrong; and the items that say it.
#![tactic(auto)]

mod arguments;
mod faults;
mod fields;
mod found;
mod items;
mod line;
mod parts;
mod signature;
mod values;

pub use arguments::{are_above, arguments_of, take_argument};
pub use faults::{at_place, too_many};
pub use fields::{
    any_text, day, field, fingerprint, ip, key_digest, nickname, second_of_day, span,
};
pub use found::{DirSource, Span, VoteSignature};
pub use items::{push_bare, push_if, push_timed, push_with_object};
pub use line::{
    argument_of, delays_of, fingerprint_of, flags_of, literal, numbers_of, rest_of, rest_unless,
    source_of, time_of,
};
pub use parts::{between, copy_part, copy_part_if, decode_part, moment, part, part_if};
pub use signature::{has_words, known_signature_of, object_of, signature_of, space_of};
pub use values::{
    Value, after_at, fingerprint_at, item_at, line_end_at, no_identity, nowhere, number_at,
    object_at, own_at, place_at, separator_at, text_at, text_if, value_at,
};
