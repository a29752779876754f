// The lines of the authorities whose votes count.
ghost use Rattle.std.specs.{Prelude.◌≡◌, List.flat_map};
ghost use Rattle.text_page.specs.Pages.{with_text};
ghost use Rattle.consensus_terms.specs.Lines.{line};
ghost use Rattle.consensus_terms.specs.Texts as texts;

use crate::words::{
    put_address_word, put_hex_line, put_hex_word, put_number_word, put_rest_line, put_word,
};
use consensus_terms::SourceLine;
use text_page::Page;

/// Puts the line of who an authority is, and where.
#[tactic(auto, using(text_page::proofs::Pages::pages), unfolding(consensus_terms::specs::Lines::line))]
fn put_dir_source(page: &mut Page, keyword: &[u8], source: &SourceLine)
    ensures { page.new ≡ with_text page.old (line keyword.now (texts.source_words source.now)) }
{
    page.put(keyword);
    put_word(page, source.nickname.as_bytes());
    put_hex_word(page, &source.identity.0);
    put_word(page, source.address.as_bytes());
    put_address_word(page, source.ip);
    put_number_word(page, source.dir_port as u64);
    put_number_word(page, source.or_port as u64);
    page.put(b"\n");
}

/// Puts the lines of an authority.
#[tactic(auto, using(text_page::proofs::Pages::pages))]
fn put_source(page: &mut Page, source: &SourceLine)
    ensures { page.new ≡ with_text page.old (texts.source_lines source.now) }
{
    put_dir_source(page, b"dir-source", source);
    put_rest_line(page, b"contact", &source.contact);
    put_hex_line(page, b"vote-digest", &source.vote_digest.0);
}

/// Puts the lines of authorities.
#[tactic(auto, using(text_page::proofs::Pages::pages))]
pub fn put_sources(page: &mut Page, sources: &[SourceLine])
    ensures { page.new ≡ with_text page.old (flat_map texts.source_lines sources.now) }
{
    'sources: for source in sources {
        put_source(page, source);
    }
}
