// The items of a line that count.
ghost use Rattle.std.specs.{Prelude.{◌≡◌, ◌+◌, ◌<◌, ◌^◌, length}, Option.option_or};
ghost use Rattle.dir_values.specs.Taking.{argument_of};
ghost use Rattle.bandwidth_file.specs.Lending.{item_seen};
ghost use Rattle.bandwidth_file.specs.Lines as its;

use dir_values::{Argument, Arguments};

/// The last values that a line has of the keys that count.
#[derive(Drop)]
pub(crate) struct Items<'a> {
    pub(crate) node: Option<Argument<'a>>,
    pub(crate) band: Option<Argument<'a>>,
    pub(crate) vote: Option<Argument<'a>>,
}

impl<'a> Items<'a> {
    /// Those of the line that begins at this place.
    pub(crate) fn of(place: u64, text: &'a [u8]) -> Items<'a>
        requires { place + length text.now < 2 ^ 64 }
        ensures node { item_seen result.node ≡ its.last_value its.node_id place text.now }
        ensures band { item_seen result.band ≡ its.last_value its.bw place text.now }
        ensures vote { item_seen result.vote ≡ its.last_value its.vote place text.now }
    {
        let mut node = None;
        let mut band = None;
        let mut vote = None;
        let mut arguments = Arguments::at(place, text);
        'items: while let Some(item) = arguments.next() {
            node = value_or(item, b"node_id=", node);
            band = value_or(item, b"bw=", band);
            vote = value_or(item, b"vote=", vote);
        }
        Items { node, band, vote }
    }
}

/// What an item says behind a key and its `=`; another value, where it has another key.
fn value_or<'a>(item: Argument<'a>, key: &[u8], other: Option<Argument<'a>>) -> Option<Argument<'a>>
    requires { item.place + length item.text.now < 2 ^ 64 }
    ensures { item_seen result ≡ option_or (its.value_with key.now (argument_of item.entry)) (item_seen other.entry) }
{
    match item.text.strip_prefix(key) {
        Some(text) => Some(Argument {
            place: item.place + key.len() as u64,
            text,
        }),
        None => other,
    }
}
