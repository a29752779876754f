// The lines of the params of votes.
ghost use Rattle.std.specs.{Prelude.{◌≡◌, ◌++◌, IfOk, OnOk}, List.{fold, flat_map}};
ghost use Rattle.dir_values.specs.FlagSets.{with_flag};
ghost use Rattle.health_report.specs.Lines as lines;
ghost use Rattle.health_report.specs.Reports as reports;

use crate::lines::push_identity;
use dir_bytes::{Memory, Text, push_i32};
use dir_values::WordSet;
use list_values::Params;
use std::alloc::Global;
use vote_doc::{Accepted, Vote};

/// Puts the names of the params of a vote into a set of words.
fn add_names<'a>(vote: &'a Vote, names: &mut WordSet<'a>) -> Result<(), Memory>
    ensures { OnOk result (names.new ≡ fold with_flag names.old (lines.param_names vote.now)) }
{
    match &vote.lists().params {
        None => Ok(()),
        Some(params) => params.add_names(names),
    }
}

/// The names of the params of some vote, in the order of their bytes.
#[tactic(auto, unfolding(crate::specs::Reports::all_params))]
fn all_params(alloc: Global, votes: &Accepted) -> Result<Vec<Text>, Memory>
    ensures { IfOk result (λ names. names.items ≡ reports.all_params votes.now.votes) }
{
    let mut names = WordSet::new(alloc);
    'votes: for number in 0..votes.len() {
        add_names(votes.vote(number).vote(), &mut names)?;
    }
    names.copies(alloc)
}

/// The value of a param among some, where there are some.
fn value_among(name: &[u8], params: &Option<Params>) -> Option<i32>
    ensures { result ≡ lines.value_among name.now params.now }
{
    match params {
        None => None,
        Some(params) => params.value(name),
    }
}

/// Appends the value that a vote gives a param, where it gives one.
fn push_value(out: &mut Vec<u8>, name: &[u8], vote: &Vote) -> Result<(), Memory>
    ensures { OnOk result (out.new.items ≡ out.old.items ++ lines.vote_value name.now vote.now) }
{
    match value_among(name, &vote.lists().params) {
        None => Ok(()),
        Some(value) => {
            push_identity(out, &vote.identity().0)?;
            out.push(b'=')?;
            push_i32(out, value)
        }
    }
}

/// Appends the values that votes give a param.
fn push_values(out: &mut Vec<u8>, name: &[u8], votes: &Accepted) -> Result<(), Memory>
    ensures { OnOk result (out.new.items ≡ out.old.items ++ flat_map (lines.vote_value name.now) votes.now.votes) }
{
    'votes: for number in 0..votes.len() {
        push_value(out, name, votes.vote(number).vote())?;
    }
    Ok(())
}

/// Appends the line of a param.
#[tactic(auto, unfolding(crate::specs::Lines::param_line))]
fn push_param(out: &mut Vec<u8>, name: &[u8], votes: &Accepted) -> Result<(), Memory>
    ensures { OnOk result (out.new.items ≡ out.old.items ++ lines.param_line votes.now.votes name.now) }
{
    out.extend_from_slice(b"param ")?;
    out.extend_from_slice(name)?;
    push_values(out, name, votes)?;
    out.push(b'\n')?;
    Ok(())
}

/// Appends the lines of params with these names.
fn push_each(out: &mut Vec<u8>, names: &[Text], votes: &Accepted) -> Result<(), Memory>
    ensures { OnOk result (out.new.items ≡ out.old.items ++ flat_map (lines.param_line votes.now.votes) names.now) }
{
    'names: for name in names {
        push_param(out, name.as_bytes(), votes)?;
    }
    Ok(())
}

/// Appends the lines of the params of votes.
#[tactic(auto, unfolding(crate::specs::Reports::param_lines))]
pub(crate) fn push_params(alloc: Global, out: &mut Vec<u8>, votes: &Accepted) -> Result<(), Memory>
    ensures { OnOk result (out.new.items ≡ out.old.items ++ reports.param_lines votes.now.votes) }
{
    let names = all_params(alloc, votes)?;
    push_each(out, &names, votes)
}
