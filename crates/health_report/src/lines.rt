// Lines of an identity or a number.
ghost use Rattle.std.specs.Prelude.{◌≡◌, ◌≤◌, ◌++◌, OnOk};
ghost use Rattle.dir_bytes.specs.Causes.{last_moment};
ghost use Rattle.health_report.specs.Lines as lines;

use dir_bytes::{Memory, push_decimal, push_hex_upper, push_time};

/// Appends an identity, by its bytes, behind a space.
pub(crate) fn push_identity(out: &mut Vec<u8>, identity: &[u8]) -> Result<(), Memory>
    ensures { OnOk result (out.new.items ≡ out.old.items ++ lines.identity_word identity.now) }
{
    out.push(b' ')?;
    push_hex_upper(out, identity)
}

/// Appends a line of a keyword and an identity.
#[tactic(auto, unfolding(crate::specs::Lines::identity_line))]
pub(crate) fn push_line(out: &mut Vec<u8>, keyword: &[u8], identity: &[u8]) -> Result<(), Memory>
    ensures { OnOk result (out.new.items ≡ out.old.items ++ lines.identity_line keyword.now identity.now) }
{
    out.extend_from_slice(keyword)?;
    push_identity(out, identity)?;
    out.push(b'\n')?;
    Ok(())
}

/// Appends a line of a keyword and a number.
#[tactic(auto, unfolding(crate::specs::Lines::number_line))]
fn push_number(out: &mut Vec<u8>, keyword: &[u8], number: u64) -> Result<(), Memory>
    ensures { OnOk result (out.new.items ≡ out.old.items ++ lines.number_line keyword.now number) }
{
    out.extend_from_slice(keyword)?;
    out.push(b' ')?;
    push_decimal(out, number)?;
    out.push(b'\n')?;
    Ok(())
}

/// Appends the line of the period.
fn push_period(out: &mut Vec<u8>, valid_after: u64) -> Result<(), Memory>
    requires { valid_after ≤ last_moment }
    ensures { OnOk result (out.new.items ≡ out.old.items ++ lines.period_line valid_after) }
{
    out.extend_from_slice(b"report ")?;
    push_time(out, valid_after)?;
    out.push(b'\n')?;
    Ok(())
}

/// Appends the first lines.
#[tactic(auto, unfolding(crate::specs::Lines::head_lines))]
pub(crate) fn push_head(
    out: &mut Vec<u8>,
    valid_after: u64,
    authorities: usize,
    votes: usize,
) -> Result<(), Memory>
    requires { valid_after ≤ last_moment }
    ensures { OnOk result (out.new.items ≡ out.old.items ++ lines.head_lines valid_after authorities votes) }
{
    push_period(out, valid_after)?;
    push_number(out, b"authorities", authorities as u64)?;
    push_number(out, b"votes", votes as u64)?;
    Ok(())
}
