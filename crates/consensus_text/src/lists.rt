// Lines of lists, each of which stands where the list is not empty, or always.
ghost use Rattle.std.specs.Prelude.{◌≡◌, not, ◌||◌};
ghost use Rattle.list_values.specs.{Params.params_text, Protocols.protocols_text, VersionLists.versions_text};
ghost use Rattle.text_page.specs.Pages.{with_text};
ghost use Rattle.consensus_terms.specs.Lines.{list_line, list_line_by};

use list_values::{Params, ProtoRanges, VersionList};
use text_page::Page;

/// Whether a list has a line: all have one, or this one is not empty.
fn has_line(always: bool, is_empty: bool) -> bool
    ensures { result ≡ (always || not is_empty) }
{
    always || !is_empty
}

/// Puts the line of a list of versions.
pub fn put_versions_line(page: &mut Page, always: bool, keyword: &[u8], versions: &VersionList)
    ensures { page.new ≡ with_text page.old (list_line_by always versions_text keyword.now versions.now) }
{
    if has_line(always, versions.is_empty()) {
        page.put(keyword);
        page.put(b" ");
        versions.put(page);
        page.put(b"\n");
    }
}

/// Puts the line of a list of protocols.
pub fn put_protocols_line(page: &mut Page, always: bool, keyword: &[u8], protocols: &ProtoRanges)
    ensures { page.new ≡ with_text page.old (list_line_by always protocols_text keyword.now protocols.now) }
{
    if has_line(always, protocols.is_empty()) {
        page.put(keyword);
        page.put(b" ");
        protocols.put(page);
        page.put(b"\n");
    }
}

/// Puts the line of the params.
pub fn put_params_line(page: &mut Page, keyword: &[u8], params: &Params)
    ensures { page.new ≡ with_text page.old (list_line params_text keyword.now params.now) }
{
    if !params.is_empty() {
        page.put(keyword);
        page.put(b" ");
        params.put(page);
        page.put(b"\n");
    }
}
