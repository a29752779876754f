// The lines of relays.
ghost use Rattle.std.specs.{Prelude.{◌≡◌, ◌≤◌, All, IfSome}, List.flat_map};
ghost use Rattle.dir_bytes.specs.{Causes.last_moment, FieldTexts.moment_text};
ghost use Rattle.consensus_terms.specs.{Flavours.{moment_of_all, router_at}, Lines.behind_space};
ghost use Rattle.consensus_terms.specs.Routers as relays;
ghost use Rattle.text_page.specs.Pages.{with_text};

use crate::words::{
    put_address_word, put_digest1_word, put_digest2_word, put_flags_line, put_moment_word,
    put_named_word, put_number_word, put_rest_line, put_word,
};
use consensus_terms::{Bandwidth, Flavour, Routerline};
use dir_bytes::Text;
use dir_values::Digest2;
use text_page::Page;

/// 2038-01-01 00:00:00, in seconds since 1970-01-01 00:00:00 UTC.
const COMMON_MOMENT: u64 = 2_145_916_800;

/// Whether a flavour lists a relay.
fn is_listed(flavour: Flavour, router: &Routerline) -> bool
    ensures { result ≡ relays.is_listed flavour router.now }
{
    match flavour {
        Flavour::Ns => true,
        Flavour::Microdesc => router.m.is_some(),
    }
}

/// The digest of its descriptor, in the ns flavour.
#[tactic(auto, using(text_page::proofs::Pages::pages))]
fn put_digest(page: &mut Page, flavour: Flavour, router: &Routerline)
    ensures { page.new ≡ with_text page.old (flat_map behind_space (relays.digest_words flavour router.now)) }
{
    match flavour {
        Flavour::Ns => put_digest1_word(page, &router.digest.0),
        Flavour::Microdesc => {}
    }
}

/// The moment at which every descriptor is said to have been published, in seconds since 1970-01-01 00:00:00 UTC, if a flavour
/// says so by a method: the microdesc flavour from method 33 on.
pub fn moment_of_all(flavour: Flavour, method: u32) -> Option<u64>
    ensures value { result ≡ moment_of_all flavour method }
    ensures within { IfSome result (λ moment. moment ≤ last_moment) }
{
    match flavour {
        Flavour::Microdesc if 33 <= method => Some(COMMON_MOMENT),
        _ => None,
    }
}

/// When its descriptor was published, or the moment that is said of all.
#[tactic(auto, using(text_page::proofs::Pages::pages))]
fn put_published(page: &mut Page, moment: Option<u64>, router: &Routerline)
    requires published { router.now.published ≤ last_moment }
    requires all { IfSome moment (λ moment. moment ≤ last_moment) }
    ensures { page.new ≡ with_text page.old (behind_space (moment_text (router_at moment router.now).published)) }
{
    match moment {
        Some(moment) => put_moment_word(page, moment),
        None => put_moment_word(page, router.published),
    }
}

/// When its descriptor was published, and where it is.
#[tactic(auto, using(text_page::proofs::Pages::pages))]
fn put_place(page: &mut Page, moment: Option<u64>, router: &Routerline)
    requires published { router.now.published ≤ last_moment }
    requires all { IfSome moment (λ moment. moment ≤ last_moment) }
    ensures { page.new ≡ with_text page.old (flat_map behind_space (relays.place_words (router_at moment router.now))) }
{
    put_published(page, moment, router);
    put_address_word(page, router.ip);
    put_number_word(page, router.or_port as u64);
    put_number_word(page, router.dir_port as u64);
}

/// Its `r` line.
#[tactic(auto, using(text_page::proofs::Pages::pages), unfolding(consensus_terms::specs::Lines::line))]
fn put_r(page: &mut Page, flavour: Flavour, moment: Option<u64>, router: &Routerline)
    requires published { router.now.published ≤ last_moment }
    requires all { IfSome moment (λ moment. moment ≤ last_moment) }
    ensures { page.new ≡ with_text page.old (relays.r_line flavour (router_at moment router.now)) }
{
    page.put(b"r");
    put_word(page, router.nickname.as_bytes());
    put_digest1_word(page, &router.identity.0);
    put_digest(page, flavour, router);
    put_place(page, moment, router);
    page.put(b"\n");
}

/// Its `m` line, in the microdesc flavour.
#[tactic(auto, using(text_page::proofs::Pages::pages), unfolding(consensus_terms::specs::Lines::line))]
fn put_m(page: &mut Page, flavour: Flavour, digest: Option<Digest2>)
    ensures { page.new ≡ with_text page.old (relays.m_line flavour digest) }
{
    let (Flavour::Microdesc, Some(digest)) = (flavour, digest) else {
        return;
    };
    page.put(b"m");
    put_digest2_word(page, &digest.0);
    page.put(b"\n");
}

/// Whether too few authorities measured it.
#[tactic(auto, using(text_page::proofs::Pages::pages))]
fn put_unmeasured(page: &mut Page, unmeasured: bool)
    ensures { page.new ≡ with_text page.old (flat_map behind_space (relays.unmeasured_words unmeasured)) }
{
    if unmeasured {
        put_word(page, b"Unmeasured=1");
    }
}

/// Its `w` line.
#[tactic(auto, using(text_page::proofs::Pages::pages), unfolding(consensus_terms::specs::Lines::line))]
fn put_w(page: &mut Page, bandwidth: Option<Bandwidth>)
    ensures { page.new ≡ with_text page.old (relays.w_line bandwidth) }
{
    let Some(bandwidth) = bandwidth else {
        return;
    };
    page.put(b"w");
    put_named_word(page, b"Bandwidth", bandwidth.value);
    put_unmeasured(page, bandwidth.unmeasured);
    page.put(b"\n");
}

/// Its `p` line, in the ns flavour.
#[tactic(auto, using(text_page::proofs::Pages::pages))]
fn put_p(page: &mut Page, flavour: Flavour, summary: &Option<Text>)
    ensures { page.new ≡ with_text page.old (relays.p_line flavour summary.now) }
{
    match flavour {
        Flavour::Ns => put_rest_line(page, b"p", summary),
        Flavour::Microdesc => {}
    }
}

/// Its lines up to its flags.
#[tactic(auto, using(text_page::proofs::Pages::pages))]
fn put_names(page: &mut Page, flavour: Flavour, moment: Option<u64>, router: &Routerline)
    requires published { router.now.published ≤ last_moment }
    requires all { IfSome moment (λ moment. moment ≤ last_moment) }
    ensures { page.new ≡ with_text page.old (relays.name_lines flavour (router_at moment router.now)) }
{
    put_r(page, flavour, moment, router);
    put_rest_line(page, b"a", &router.a);
    put_m(page, flavour, router.m);
    put_flags_line(page, b"s", &router.flags);
}

/// Its lines after its flags.
#[tactic(auto, using(text_page::proofs::Pages::pages))]
fn put_abilities(page: &mut Page, flavour: Flavour, router: &Routerline)
    ensures { page.new ≡ with_text page.old (relays.ability_lines flavour router.now) }
{
    put_rest_line(page, b"v", &router.v);
    put_rest_line(page, b"pr", &router.pr);
    put_w(page, router.w);
    put_p(page, flavour, &router.p);
}

/// Its lines, where a flavour lists it.
#[tactic(auto, using(text_page::proofs::Pages::pages))]
fn put_router(page: &mut Page, flavour: Flavour, moment: Option<u64>, router: &Routerline)
    requires published { router.now.published ≤ last_moment }
    requires all { IfSome moment (λ moment. moment ≤ last_moment) }
    ensures { page.new ≡ with_text page.old (relays.listed_lines flavour (router_at moment router.now)) }
{
    if is_listed(flavour, router) {
        put_names(page, flavour, moment, router);
        put_abilities(page, flavour, router);
    }
}

/// Puts the lines of the relays that a flavour lists: when each descriptor was published, or the moment that is said of all,
/// where one is given.
#[tactic(auto, using(text_page::proofs::Pages::pages))]
pub fn put_routers(page: &mut Page, flavour: Flavour, moment: Option<u64>, routers: &[Routerline])
    requires published { All (λ router. router.published ≤ last_moment) routers.now }
    requires all { IfSome moment (λ moment. moment ≤ last_moment) }
    ensures { page.new ≡ with_text page.old (flat_map (λ router. relays.listed_lines flavour (router_at moment router)) routers.now) }
{
    'routers: for router in routers {
        put_router(page, flavour, moment, router);
    }
}
