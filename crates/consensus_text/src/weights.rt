// The line of the weights of bandwidth.
ghost use Rattle.std.specs.{Prelude.◌≡◌, List.flat_map};
ghost use Rattle.text_page.specs.Pages.{with_text};
ghost use Rattle.consensus_terms.specs.{Lines.{behind_space, line}, Texts.weights_line};
ghost use Rattle.consensus_terms.specs.Weights as words;

use crate::words::put_named_word;
use consensus_terms::Weights;
use text_page::Page;

/// Puts the weights of directory requests.
#[tactic(auto, using(text_page::proofs::Pages::pages))]
fn put_directory_weights(page: &mut Page, weights: &Weights)
    ensures { page.new ≡ with_text page.old (flat_map behind_space (words.directory_words weights.now)) }
{
    put_named_word(page, b"Wbd", weights.wmd);
    put_named_word(page, b"Wbe", weights.wme);
    put_named_word(page, b"Wbg", weights.wmg);
    put_named_word(page, b"Wbm", weights.scale);
    put_named_word(page, b"Wdb", weights.scale);
}

/// Puts the weights of an exit.
#[tactic(auto, using(text_page::proofs::Pages::pages))]
fn put_exit_weights(page: &mut Page, weights: &Weights)
    ensures { page.new ≡ with_text page.old (flat_map behind_space (words.exit_words weights.now)) }
{
    put_named_word(page, b"Web", weights.scale);
    put_named_word(page, b"Wed", weights.wed);
    put_named_word(page, b"Wee", weights.wee);
    put_named_word(page, b"Weg", weights.wed);
    put_named_word(page, b"Wem", weights.wee);
}

/// Puts the weights of a guard.
#[tactic(auto, using(text_page::proofs::Pages::pages))]
fn put_guard_weights(page: &mut Page, weights: &Weights)
    ensures { page.new ≡ with_text page.old (flat_map behind_space (words.guard_words weights.now)) }
{
    put_named_word(page, b"Wgb", weights.scale);
    put_named_word(page, b"Wgd", weights.wgd);
    put_named_word(page, b"Wgg", weights.wgg);
    put_named_word(page, b"Wgm", weights.wgg);
}

/// Puts the weights of the middle of a path.
#[tactic(auto, using(text_page::proofs::Pages::pages))]
fn put_middle_weights(page: &mut Page, weights: &Weights)
    ensures { page.new ≡ with_text page.old (flat_map behind_space (words.middle_words weights.now)) }
{
    put_named_word(page, b"Wmb", weights.scale);
    put_named_word(page, b"Wmd", weights.wmd);
    put_named_word(page, b"Wme", weights.wme);
    put_named_word(page, b"Wmg", weights.wmg);
    put_named_word(page, b"Wmm", weights.scale);
}

/// Puts the line of the weights.
#[tactic(auto, using(text_page::proofs::Pages::pages), unfolding(consensus_terms::specs::Lines::line))]
fn put_weights_line(page: &mut Page, keyword: &[u8], weights: &Weights)
    ensures { page.new ≡ with_text page.old (line keyword.now (words.weight_words weights.now)) }
{
    page.put(keyword);
    put_directory_weights(page, weights);
    put_exit_weights(page, weights);
    put_guard_weights(page, weights);
    put_middle_weights(page, weights);
    page.put(b"\n");
}

/// Puts their line, where they stand.
#[tactic(auto, using(text_page::proofs::Pages::pages))]
pub fn put_weights_if(page: &mut Page, weights: Option<Weights>)
    ensures { page.new ≡ with_text page.old (weights_line weights) }
{
    match weights {
        Some(weights) => put_weights_line(page, b"bandwidth-weights", &weights),
        None => {}
    }
}
