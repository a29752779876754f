// How what a run gives differs from what it is to give.
use crate::gates::Answer;
use crate::texts::parts_behind;
use std::alloc::{AllocError, Global};

// How many bytes two texts have in common at their front.
fn common_length(one: &[u8], other: &[u8]) -> usize {
    one.iter()
        .zip(other)
        .take_while(|(one, other)| one == other)
        .count()
}

/// How the text that was written differs from that which is to come; an empty text where it does not. Where there are
/// marks, only what stands behind each of them in its lines is compared.
pub fn text_difference(
    alloc: Global,
    given: &[u8],
    wanted: &[u8],
    marks: &[String],
) -> Result<String, AllocError> {
    if given == wanted {
        return Ok(String::new(alloc));
    }
    if marks.is_empty() {
        let place = common_length(given, wanted);
        return format!(in alloc; "text from {place} on");
    }
    let given = String::from_utf8_lossy(alloc, given)?;
    let wanted = String::from_utf8_lossy(alloc, wanted)?;
    for mark in marks {
        if parts_behind(alloc, &given, mark)? != parts_behind(alloc, &wanted, mark)? {
            return format!(in alloc; "text behind {mark}");
        }
    }
    Ok(String::new(alloc))
}

/// The first response that differs from that which is to come; an empty text where none does. A connection that was not
/// answered has an empty response.
pub fn response_difference(
    alloc: Global,
    answers: &[Answer],
    wanted: &[Vec<u8>],
) -> Result<String, AllocError> {
    let mut number = 0u64;
    for (answer, wanted) in answers.iter().zip(wanted) {
        number = number.saturating_add(1);
        let given: &[u8] = match answer.get() {
            Some(given) => given,
            None => b"",
        };
        if given != wanted.as_slice() {
            let given = String::from_utf8_lossy(alloc, given)?;
            return format!(in alloc; "response {number}: {given}");
        }
    }
    Ok(String::new(alloc))
}
