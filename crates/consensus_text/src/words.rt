// Words behind single spaces, and lines of them, on a page.
ghost use Rattle.std.specs.{Prelude.{◌≡◌, ◌≤◌, ◌∷◌, ◌++◌, [], codes}, Fmt.decimal, List.flat_map};
ghost use Rattle.dir_bytes.specs.{Causes.last_moment, FieldTexts.{moment_text, hex_text, base64_text, address_text}};
ghost use Rattle.consensus_terms.specs.Lines.{behind_space, line, named_text, rest_words, rest_line};
ghost use Rattle.text_page.specs.Pages.{with_text};

use dir_bytes::Text;
use dir_values::FlagSet;
use text_page::Page;

/// Puts a word behind a space.
pub fn put_word(page: &mut Page, word: &[u8])
    ensures { page.new ≡ with_text page.old (behind_space word.now) }
{
    page.put_word(word);
}

/// Puts a number behind a space.
#[tactic(auto, using(text_page::proofs::Pages::pages))]
pub fn put_number_word(page: &mut Page, number: u64)
    ensures { page.new ≡ with_text page.old (behind_space (decimal number)) }
{
    page.put(b" ");
    page.put_number(number);
}

/// Puts a name with a number, behind a space.
#[tactic(auto, using(text_page::proofs::Pages::pages), unfolding(consensus_terms::specs::Lines::named_text))]
pub fn put_named_word(page: &mut Page, name: &[u8], number: u32)
    ensures { page.new ≡ with_text page.old (behind_space (named_text name.now number)) }
{
    put_word(page, name);
    page.put(b"=");
    page.put_number(number as u64);
}

/// Puts a moment behind a space.
#[tactic(auto, using(text_page::proofs::Pages::pages))]
pub fn put_moment_word(page: &mut Page, moment: u64)
    requires { moment ≤ last_moment }
    ensures { page.new ≡ with_text page.old (behind_space (moment_text moment)) }
{
    page.put(b" ");
    page.put_moment(moment);
}

/// Puts twenty bytes in hex digits, behind a space.
#[tactic(auto, using(text_page::proofs::Pages::pages))]
pub fn put_hex_word(page: &mut Page, digest: &[u8; 20])
    ensures { page.new ≡ with_text page.old (behind_space (hex_text digest.now)) }
{
    page.put(b" ");
    page.put_hex(digest);
}

/// Puts twenty bytes in base64, behind a space.
#[tactic(auto, using(text_page::proofs::Pages::pages))]
pub fn put_digest1_word(page: &mut Page, digest: &[u8; 20])
    ensures { page.new ≡ with_text page.old (behind_space (base64_text digest.now)) }
{
    page.put(b" ");
    page.put_digest1(digest);
}

/// Puts thirty-two bytes in base64, behind a space.
#[tactic(auto, using(text_page::proofs::Pages::pages))]
pub fn put_digest2_word(page: &mut Page, digest: &[u8; 32])
    ensures { page.new ≡ with_text page.old (behind_space (base64_text digest.now)) }
{
    page.put(b" ");
    page.put_digest2(digest);
}

/// Puts thirty-two bytes in base64 behind a space, with the `=` that fills the last group up.
#[tactic(auto, using(text_page::proofs::Pages::pages))]
pub fn put_padded_word(page: &mut Page, digest: &[u8; 32])
    ensures { page.new ≡ with_text page.old (behind_space (base64_text digest.now ++ codes "=")) }
{
    put_digest2_word(page, digest);
    page.put(b"=");
}

/// Puts an IPv4 address behind a space.
#[tactic(auto, using(text_page::proofs::Pages::pages))]
pub fn put_address_word(page: &mut Page, ip: u32)
    ensures { page.new ≡ with_text page.old (behind_space (address_text ip)) }
{
    page.put(b" ");
    page.put_address(ip);
}

/// Puts each flag behind a space.
#[tactic(auto, using(text_page::proofs::Pages::pages))]
pub fn put_flags(page: &mut Page, flags: &FlagSet)
    ensures { page.new ≡ with_text page.old (flat_map behind_space flags.now) }
{
    'flags: for i in 0..flags.len() {
        put_word(page, flags.flag(i));
    }
}

/// Puts the rest of a line behind a space, where it is not empty.
#[tactic(auto, using(text_page::proofs::Pages::pages))]
fn put_rest_words(page: &mut Page, rest: &[u8])
    ensures { page.new ≡ with_text page.old (flat_map behind_space (rest_words rest.now)) }
{
    if !rest.is_empty() {
        put_word(page, rest);
    }
}

/// Puts a line that is the keyword and a rest, where there is a rest.
#[tactic(auto, using(text_page::proofs::Pages::pages), unfolding(consensus_terms::specs::Lines::line))]
pub fn put_rest_line(page: &mut Page, keyword: &[u8], rest: &Option<Text>)
    ensures { page.new ≡ with_text page.old (rest_line keyword.now rest.now) }
{
    let Some(rest) = rest else {
        return;
    };
    page.put(keyword);
    put_rest_words(page, rest.as_bytes());
    page.put(b"\n");
}

/// Puts a line of a keyword alone.
#[tactic(auto, using(text_page::proofs::Pages::pages), unfolding(consensus_terms::specs::Lines::line))]
pub fn put_bare_line(page: &mut Page, keyword: &[u8])
    ensures { page.new ≡ with_text page.old (line keyword.now []) }
{
    page.put(keyword);
    page.put(b"\n");
}

/// Puts a line of a keyword and a word.
#[tactic(auto, using(text_page::proofs::Pages::pages), unfolding(consensus_terms::specs::Lines::line))]
pub fn put_word_line(page: &mut Page, keyword: &[u8], word: &[u8])
    ensures { page.new ≡ with_text page.old (line keyword.now (word.now ∷ [])) }
{
    page.put(keyword);
    put_word(page, word);
    page.put(b"\n");
}

/// Puts a line of a keyword and a number.
#[tactic(auto, using(text_page::proofs::Pages::pages), unfolding(consensus_terms::specs::Lines::line))]
pub fn put_number_line(page: &mut Page, keyword: &[u8], number: u64)
    ensures { page.new ≡ with_text page.old (line keyword.now (decimal number ∷ [])) }
{
    page.put(keyword);
    put_number_word(page, number);
    page.put(b"\n");
}

/// Puts a line of a keyword and two numbers.
#[tactic(auto, using(text_page::proofs::Pages::pages), unfolding(consensus_terms::specs::Lines::line))]
pub fn put_two_numbers_line(page: &mut Page, keyword: &[u8], first: u32, second: u32)
    ensures { page.new ≡ with_text page.old (line keyword.now (decimal first ∷ decimal second ∷ [])) }
{
    page.put(keyword);
    put_number_word(page, first as u64);
    put_number_word(page, second as u64);
    page.put(b"\n");
}

/// Puts a line of a keyword and a moment.
#[tactic(auto, using(text_page::proofs::Pages::pages), unfolding(consensus_terms::specs::Lines::line))]
pub fn put_moment_line(page: &mut Page, keyword: &[u8], moment: u64)
    requires { moment ≤ last_moment }
    ensures { page.new ≡ with_text page.old (line keyword.now (moment_text moment ∷ [])) }
{
    page.put(keyword);
    put_moment_word(page, moment);
    page.put(b"\n");
}

/// Puts a line of a keyword and twenty bytes in hex digits.
#[tactic(auto, using(text_page::proofs::Pages::pages), unfolding(consensus_terms::specs::Lines::line))]
pub fn put_hex_line(page: &mut Page, keyword: &[u8], digest: &[u8; 20])
    ensures { page.new ≡ with_text page.old (line keyword.now (hex_text digest.now ∷ [])) }
{
    page.put(keyword);
    put_hex_word(page, digest);
    page.put(b"\n");
}

/// Puts a line of a keyword and flags.
#[tactic(auto, using(text_page::proofs::Pages::pages), unfolding(consensus_terms::specs::Lines::line))]
pub fn put_flags_line(page: &mut Page, keyword: &[u8], flags: &FlagSet)
    ensures { page.new ≡ with_text page.old (line keyword.now flags.now) }
{
    page.put(keyword);
    put_flags(page, flags);
    page.put(b"\n");
}
