// Whether the line of an authority fits into a document.
ghost use Rattle.std.specs.{Prelude.{◌≡◌, ◌∷◌}, Fmt.decimal};
ghost use Rattle.dir_bytes.specs.FieldTexts.{address_text, hex_text};
ghost use Rattle.item_terms.specs.Bytes.{space};
ghost use Rattle.text_page.specs.Pages.{with_text};
ghost use Rattle.station_input.specs.Sources as sources;

use dir_values::Fingerprint;
use frame_values::DirSource;
use text_page::Page;

/// How many bytes a line may have, with its NL.
const MAX_LINE: usize = 1_048_576;

/// Puts twenty bytes in hex digits behind a space.
#[tactic(auto, using(text_page::proofs::Pages::pages))]
fn put_hex_word(page: &mut Page, digest: &[u8; 20])
    ensures { page.new ≡ with_text page.old (space ∷ hex_text digest.now) }
{
    page.put(b" ");
    page.put_hex(digest);
}

/// Puts an address behind a space.
#[tactic(auto, using(text_page::proofs::Pages::pages))]
fn put_address_word(page: &mut Page, ip: u32)
    ensures { page.new ≡ with_text page.old (space ∷ address_text ip) }
{
    page.put(b" ");
    page.put_address(ip);
}

/// Puts a number behind a space.
#[tactic(auto, using(text_page::proofs::Pages::pages))]
fn put_number_word(page: &mut Page, number: u64)
    ensures { page.new ≡ with_text page.old (space ∷ decimal number) }
{
    page.put(b" ");
    page.put_number(number);
}

/// Puts the keyword of a `dir-source` line, and by which names an authority is known.
#[tactic(auto, using(text_page::proofs::Pages::pages))]
fn put_names(page: &mut Page, nickname: &[u8], host: &[u8], identity: &Fingerprint)
    ensures { page.new ≡ with_text page.old (sources.names_part nickname.now host.now identity.now) }
{
    page.put(b"dir-source");
    page.put_word(nickname);
    put_hex_word(page, &identity.0);
    page.put_word(host);
}

/// Puts where an authority is reached, and the end of the line.
#[tactic(auto, using(text_page::proofs::Pages::pages))]
fn put_ports(page: &mut Page, source: &DirSource)
    ensures { page.new ≡ with_text page.old (sources.ports_part source.now) }
{
    put_address_word(page, source.ip);
    put_number_word(page, source.dir_port as u64);
    put_number_word(page, source.or_port as u64);
    page.put(b"\n");
}

/// Puts the `dir-source` line of an authority.
#[tactic(auto, using(text_page::proofs::Pages::pages))]
fn put_source(page: &mut Page, nickname: &[u8], host: &[u8], source: &DirSource)
    ensures { page.new ≡ with_text page.old (sources.source_line nickname.now host.now source.now) }
{
    put_names(page, nickname, host, &source.identity);
    put_ports(page, source);
}

/// Whether the `dir-source` line of an authority is no longer than a line may be. Its bytes are counted, and not kept.
#[tactic(auto, using(text_page::proofs::Pages::whole))]
pub(crate) fn fits_line(nickname: &[u8], host: &[u8], source: &DirSource) -> bool
    ensures { result ≡ sources.fits_line nickname.now host.now source.now }
{
    let mut page = Page::counting();
    put_source(&mut page, nickname, host, source);
    match page.count() {
        Some(count) => count <= MAX_LINE,
        None => false,
    }
}
