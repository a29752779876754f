// The consensus method that most lists have.
ghost use Rattle.std.specs.{Prelude.{◌≡◌, map, nat_eq}, List.{find, list_any}};
ghost use Rattle.count_terms.specs.Methods.{known_methods};
ghost use Rattle.field_votes.specs.Methods as votes;

use count_terms::Newest;

/// The greatest of the methods 32 up to the newest that more than two thirds of the lists have. Where there is none, it is 32 if
/// 33 is the newest, and else the newest. A list that repeats a method counts once for it. It takes no memory.
pub fn method(newest: Newest, lists: &[Vec<u32>]) -> u32
    ensures { result ≡ votes.method_of newest (map (λ list. list.items) lists.now) }
{
    match agreed(newest, lists) {
        Some(method) => method,
        None => unagreed(newest),
    }
}

/// The method where none is agreed on.
fn unagreed(newest: Newest) -> u32
    ensures { result ≡ votes.unagreed_method newest }
{
    match newest {
        Newest::Method33 => 32,
        Newest::Method34 => 34,
        Newest::Method35 => 35,
    }
}

/// The greatest of the known methods that more than two thirds of the lists have.
fn agreed(newest: Newest, lists: &[Vec<u32>]) -> Option<u32>
    ensures { result ≡ find (votes.is_supported (map (λ list. list.items) lists.now)) (known_methods newest) }
{
    match newest {
        Newest::Method33 => up_to_33(lists),
        Newest::Method34 => up_to_34(lists),
        Newest::Method35 => {
            if is_supported(lists, 35) {
                Some(35)
            } else {
                up_to_34(lists)
            }
        }
    }
}

/// The same where 34 is the newest.
fn up_to_34(lists: &[Vec<u32>]) -> Option<u32>
    ensures { result ≡ find (votes.is_supported (map (λ list. list.items) lists.now)) (known_methods Newest.Method34) }
{
    if is_supported(lists, 34) {
        Some(34)
    } else {
        up_to_33(lists)
    }
}

/// The same where 33 is the newest.
fn up_to_33(lists: &[Vec<u32>]) -> Option<u32>
    ensures { result ≡ find (votes.is_supported (map (λ list. list.items) lists.now)) (known_methods Newest.Method33) }
{
    if is_supported(lists, 33) {
        Some(33)
    } else if is_supported(lists, 32) {
        Some(32)
    } else {
        None
    }
}

/// Whether more than two thirds of the lists have a method.
fn is_supported(lists: &[Vec<u32>], method: u32) -> bool
    ensures { result ≡ votes.is_supported (map (λ list. list.items) lists.now) method }
{
    let supporting = lists.iter().filter(|list| has(list, method)).count();
    supporting > 2 * lists.len() / 3
}

/// Whether a list has a method.
fn has(list: &[u32], method: u32) -> bool
    ensures { result ≡ list_any (nat_eq method) list.now }
{
    list.contains(&method)
}
