// The text of a consensus without its signatures, on a page.
ghost use Rattle.std.specs.Prelude.{◌≡◌, ◌≤◌, IfSome};
ghost use Rattle.dir_bytes.specs.Causes.{last_moment};
ghost use Rattle.text_page.specs.Pages.{with_text};
ghost use Rattle.consensus_terms.specs.{Flavours.facts_at, Moments.HasMoments};
ghost use Rattle.consensus_terms.specs.Texts as texts;

use crate::preamble::put_preamble;
use crate::router::{moment_of_all, put_routers};
use crate::source::put_sources;
use crate::weights::put_weights_if;
use crate::words::{put_bare_line, put_rest_line};
use consensus_terms::{Consensus, ConsensusFacts, Flavour, SignedConsensus, Weights};
use dir_bytes::Text;
use text_page::Page;

/// Puts the text before the footer, in which every descriptor is said to have been published at a moment, where one is given.
#[tactic(auto, using(text_page::proofs::Pages::pages))]
fn put_body(page: &mut Page, flavour: Flavour, moment: Option<u64>, facts: &ConsensusFacts)
    requires moments { HasMoments facts.now }
    requires all { IfSome moment (λ moment. moment ≤ last_moment) }
    ensures { page.new ≡ with_text page.old (texts.body flavour (facts_at moment facts.now)) }
{
    put_preamble(page, flavour, facts);
    put_sources(page, facts.sources.as_slice());
    put_routers(page, flavour, moment, facts.routers.as_slice());
}

/// Puts the footer.
#[tactic(auto, using(text_page::proofs::Pages::pages))]
fn put_footer(page: &mut Page, weights: Option<Weights>)
    ensures { page.new ≡ with_text page.old (texts.footer weights) }
{
    put_bare_line(page, b"directory-footer");
    put_weights_if(page, weights);
}

/// Puts the text.
#[tactic(auto, using(text_page::proofs::Pages::pages))]
pub fn put_unsigned(page: &mut Page, flavour: Flavour, consensus: &Consensus)
    requires { HasMoments consensus.now.facts }
    ensures { page.new ≡ with_text page.old (texts.unsigned flavour consensus.now) }
{
    let moment = moment_of_all(flavour, consensus.facts.method);
    put_body(page, flavour, moment, &consensus.facts);
    put_footer(page, consensus.weights);
}

/// Puts the footer of a consensus that was read.
#[tactic(auto, using(text_page::proofs::Pages::pages))]
fn put_footer_as_read(page: &mut Page, weights: &Option<Text>)
    ensures { page.new ≡ with_text page.old (texts.footer_as_read weights.now) }
{
    put_bare_line(page, b"directory-footer");
    put_rest_line(page, b"bandwidth-weights", weights);
}

/// Puts the text of a consensus that was read, with the times that were read.
#[tactic(auto, using(text_page::proofs::Pages::pages))]
pub fn put_facts(page: &mut Page, consensus: &SignedConsensus)
    requires { HasMoments consensus.now.facts }
    ensures { page.new ≡ with_text page.old (texts.facts_text consensus.now) }
{
    put_body(page, consensus.flavour, None, &consensus.facts);
    put_footer_as_read(page, &consensus.weights);
}
