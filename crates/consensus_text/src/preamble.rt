// The lines of a consensus before its authorities and relays.
ghost use Rattle.std.specs.{Prelude.◌≡◌, List.flat_map};
ghost use Rattle.text_page.specs.Pages.{with_text};
ghost use Rattle.consensus_terms.specs.{Lines.{behind_space, line}, Moments.HasMoments};
ghost use Rattle.consensus_terms.specs.Texts as texts;

use crate::lists::{put_params_line, put_protocols_line, put_versions_line};
use crate::words::{
    put_flags_line, put_moment_line, put_number_line, put_number_word, put_padded_word,
    put_two_numbers_line, put_word, put_word_line,
};
use consensus_terms::{ConsensusFacts, ConsensusLists, Flavour, is_34_or_later};
use text_page::Page;
use value_groups::SharedRandom;

/// Puts the version of the document, and its flavour.
#[tactic(auto, using(text_page::proofs::Pages::pages))]
fn put_version(page: &mut Page, flavour: Flavour)
    ensures { page.new ≡ with_text page.old (flat_map behind_space (texts.version_words flavour)) }
{
    match flavour {
        Flavour::Ns => put_word(page, b"3"),
        Flavour::Microdesc => {
            put_word(page, b"3");
            put_word(page, b"microdesc");
        }
    }
}

/// Puts the line of the version.
#[tactic(auto, using(text_page::proofs::Pages::pages), unfolding(consensus_terms::specs::Lines::line))]
fn put_version_line(page: &mut Page, keyword: &[u8], flavour: Flavour)
    ensures { page.new ≡ with_text page.old (line keyword.now (texts.version_words flavour)) }
{
    page.put(keyword);
    put_version(page, flavour);
    page.put(b"\n");
}

/// Puts what the document is, and the method.
#[tactic(auto, using(text_page::proofs::Pages::pages))]
fn put_kind(page: &mut Page, flavour: Flavour, method: u32)
    ensures { page.new ≡ with_text page.old (texts.kind_lines flavour method) }
{
    put_version_line(page, b"network-status-version", flavour);
    put_word_line(page, b"vote-status", b"consensus");
    put_number_line(page, b"consensus-method", method as u64);
}

/// Puts the times.
#[tactic(auto, using(text_page::proofs::Pages::pages))]
fn put_times(page: &mut Page, facts: &ConsensusFacts)
    requires { HasMoments facts.now }
    ensures { page.new ≡ with_text page.old (texts.time_lines facts.now) }
{
    put_moment_line(page, b"valid-after", facts.valid_after);
    put_moment_line(page, b"fresh-until", facts.fresh_until);
    put_moment_line(page, b"valid-until", facts.valid_until);
    put_two_numbers_line(
        page,
        b"voting-delay",
        facts.vote_seconds,
        facts.dist_seconds,
    );
}

/// Puts the versions, all lines or those of lists that are not empty.
#[tactic(auto, using(text_page::proofs::Pages::pages))]
fn put_versions(page: &mut Page, always: bool, lists: &ConsensusLists)
    ensures { page.new ≡ with_text page.old (texts.version_lines always lists.now) }
{
    put_versions_line(page, always, b"client-versions", &lists.client_versions);
    put_versions_line(page, always, b"server-versions", &lists.server_versions);
}

/// Puts the four lists of protocols, all lines or those of lists that are not empty.
#[tactic(auto, using(text_page::proofs::Pages::pages))]
fn put_protocols(page: &mut Page, always: bool, lists: &ConsensusLists)
    ensures { page.new ≡ with_text page.old (texts.protocol_lines always lists.now) }
{
    put_protocols_line(
        page,
        always,
        b"recommended-client-protocols",
        &lists.recommended_client_protocols,
    );
    put_protocols_line(
        page,
        always,
        b"recommended-relay-protocols",
        &lists.recommended_relay_protocols,
    );
    put_protocols_line(
        page,
        always,
        b"required-client-protocols",
        &lists.required_client_protocols,
    );
    put_protocols_line(
        page,
        always,
        b"required-relay-protocols",
        &lists.required_relay_protocols,
    );
}

/// Puts the line of a shared random value, where there is one.
#[tactic(auto, using(text_page::proofs::Pages::pages), unfolding(consensus_terms::specs::Lines::line))]
fn put_random_line(page: &mut Page, keyword: &[u8], random: &Option<SharedRandom>)
    ensures { page.new ≡ with_text page.old (texts.random_line keyword.now random.now) }
{
    let Some(random) = random else {
        return;
    };
    page.put(keyword);
    put_number_word(page, random.count as u64);
    put_padded_word(page, &random.value.0);
    page.put(b"\n");
}

/// Puts the two shared random values.
#[tactic(auto, using(text_page::proofs::Pages::pages))]
fn put_randoms(page: &mut Page, facts: &ConsensusFacts)
    ensures { page.new ≡ with_text page.old (texts.random_lines facts.now) }
{
    put_random_line(page, b"shared-rand-previous-value", &facts.random_previous);
    put_random_line(page, b"shared-rand-current-value", &facts.random_current);
}

/// Puts the preamble.
#[tactic(auto, using(text_page::proofs::Pages::pages))]
pub fn put_preamble(page: &mut Page, flavour: Flavour, facts: &ConsensusFacts)
    requires { HasMoments facts.now }
    ensures { page.new ≡ with_text page.old (texts.preamble flavour facts.now) }
{
    let always = is_34_or_later(facts.method);
    put_kind(page, flavour, facts.method);
    put_times(page, facts);
    put_versions(page, always, &facts.lists);
    put_flags_line(page, b"known-flags", &facts.known_flags);
    put_protocols(page, always, &facts.lists);
    put_params_line(page, b"params", &facts.lists.params);
    put_randoms(page, facts);
}
