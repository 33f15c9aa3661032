//! The tags of a root and of elements.

ghost use Rattle.std.specs.Prelude.{◌≡◌};
ghost use Rattle.std.specs.List.{list_all};
ghost use Rattle.ng_semantics.specs.Html as html;
ghost use Rattle.ng_semantics.specs.First as spec;

fn is_small_letter(byte: u8) -> bool
    ensures { result ≡ spec.is_small_letter byte }
{
    b'a' <= byte && byte <= b'z'
}

fn is_tag_byte(byte: u8) -> bool
    ensures { result ≡ spec.is_tag_byte byte }
{
    is_small_letter(byte) || b'0' <= byte && byte <= b'9' || byte == b'-'
}

fn are_tag_bytes(bytes: &[u8]) -> bool
    ensures { result ≡ list_all spec.is_tag_byte bytes.now }
{
    for byte in bytes {
        if !is_tag_byte(*byte) {
            return false;
        }
    }
    true
}

fn is_tag(tag: &[u8]) -> bool
    ensures { result ≡ spec.is_tag tag.now }
{
    match tag {
        [] => false,
        [first, rest @ ..] => is_small_letter(*first) && are_tag_bytes(rest),
    }
}

fn has_dash(tag: &[u8]) -> bool
    ensures { result ≡ spec.has_dash tag.now }
{
    tag.iter().any(|byte| *byte == b'-')
}

/// Whether a tag can be that of a root.
pub(crate) fn is_root_tag(tag: &str) -> bool
    ensures { result ≡ spec.is_root_tag tag.now }
{
    is_tag(tag.as_bytes()) && has_dash(tag.as_bytes()) && !tag.as_bytes().starts_with(b"ng-")
}

fn is_void(tag: &str) -> bool
    ensures { result ≡ html.is_void tag.now }
{
    tag == "area"
        || tag == "base"
        || tag == "br"
        || tag == "col"
        || tag == "embed"
        || tag == "hr"
        || tag == "img"
        || tag == "input"
        || tag == "link"
        || tag == "meta"
        || tag == "source"
        || tag == "track"
        || tag == "wbr"
}

/// Whether a tag can be that of an element that is no component.
pub(crate) fn is_element_tag(tag: &str) -> bool
    ensures { result ≡ spec.is_element_tag tag.now }
{
    is_tag(tag.as_bytes())
        && !has_dash(tag.as_bytes())
        && !is_void(tag)
        && tag != "script"
        && tag != "style"
}
