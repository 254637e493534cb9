//! Laws of the grammars, each the contract of a function that does nothing.
ghost use Rattle.std.specs.Prelude.{◌≡◌, ◌↔◌, ◌≤◌, ◌||◌, ◌==◌, ℕ, false, IsTrue, List, codes, nat_le};
ghost use Rattle.std.specs.Char.{is_ascii_alphabetic, is_ascii_digit, is_ascii_hexdigit};
ghost use Rattle.std.specs.Str.{byte};
ghost use Rattle.strkw_uri.specs.AsWritten.{alpha_as_written, digit_as_written, hexdig_as_written, unreserved_as_written, gen_delims_as_written, sub_delims_as_written, is_within, ucschar_as_written, iprivate_as_written, ascii_literals_as_written, literals_as_written, operator_as_written, unescaped_as_written};
ghost use Rattle.strkw_uri.specs.Characters.{is_unreserved, is_sub_delim, is_ucschar, is_iprivate};
ghost use Rattle.strkw_net.specs.Addresses.{IsIpv6};
ghost use Rattle.strkw_uri.specs.Ipv6Address.{Ipv6Address};
ghost use Rattle.strkw_uri.specs.Pointer.{is_unescaped, IsJsonPointer, IsRelativeJsonPointer, ZeroThenPointer};
ghost use Rattle.strkw_uri.specs.Template.{is_literal_char, is_operator, IsUriTemplate};
ghost use Rattle.strkw_uri.specs.Uri.{IsUri, IsUriReference, IsIri, IsIriReference};

/// A URI is a URI reference.
pub fn uri_is_uri_reference()
    ensures { (text : List ℕ) → IsUri text → IsUriReference text }
{}

/// A URI is an IRI.
pub fn uri_is_iri()
    ensures { (text : List ℕ) → IsUri text → IsIri text }
{}

/// A URI reference is an IRI reference.
pub fn uri_reference_is_iri_reference()
    ensures { (text : List ℕ) → IsUriReference text → IsIriReference text }
{}

/// An IRI is an IRI reference.
pub fn iri_is_iri_reference()
    ensures { (text : List ℕ) → IsIri text → IsIriReference text }
{}

/// `0` followed by p, which is empty or begins with "/", is a relative pointer exactly where p is a pointer.
pub fn zero_then_pointer()
    ensures { ZeroThenPointer }
{}

/// `http://example.com` is derived by all four grammars of URIs and IRIs.
pub fn example_uri()
    ensures uri { IsUri (codes "http://example.com") }
    ensures uri_reference { IsUriReference (codes "http://example.com") }
    ensures iri { IsIri (codes "http://example.com") }
    ensures iri_reference { IsIriReference (codes "http://example.com") }
{}

/// `http://example.com/{id}` is derived by the grammar of templates.
pub fn example_uri_template()
    ensures { IsUriTemplate (codes "http://example.com/{id}") }
{}

/// `/a` is derived by the grammar of pointers.
pub fn example_json_pointer()
    ensures { IsJsonPointer (codes "/a") }
{}

/// `0` is derived by the grammar of relative pointers.
pub fn example_relative_json_pointer()
    ensures { IsRelativeJsonPointer (codes "0") }
{}

/// Letters, digits and hexadecimal digits are those of RFC 5234, appendix B.1, the latter in either case.
pub fn letters_and_digits()
    ensures alpha { (c : ℕ) → is_ascii_alphabetic c ≡ alpha_as_written c }
    ensures digit { (c : ℕ) → is_ascii_digit c ≡ digit_as_written c }
    ensures hexdig { (c : ℕ) → is_ascii_hexdigit c ≡ hexdig_as_written c }
{}

/// The unreserved characters and the delimiters of a part are those that RFC 3986, sections 2.2 and 2.3, writes; no
/// delimiter, also none between parts, is unreserved.
pub fn unreserved_and_delimiters()
    ensures unreserved { (c : ℕ) → is_unreserved c ≡ unreserved_as_written c }
    ensures sub_delims { (c : ℕ) → is_sub_delim c ≡ sub_delims_as_written c }
    ensures reserved { (c : ℕ) → IsTrue (gen_delims_as_written c || sub_delims_as_written c)
        → is_unreserved c ≡ false }
{}

/// The characters that an IRI adds are those of the ranges that RFC 3987, section 2.2, writes.
pub fn ranges_of_iris()
    ensures ucschar { (c : ℕ) → is_ucschar c ≡ is_within ucschar_as_written c }
    ensures iprivate { (c : ℕ) → is_iprivate c ≡ is_within iprivate_as_written c }
{}

/// The literals of a template are those of RFC 6570, section 2.1, and beside them the apostrophe (erratum 6937) and
/// every other character past ASCII.
pub fn literals_of_templates()
    ensures exact { (c : ℕ) → is_literal_char c
        ≡ (ascii_literals_as_written c || c == byte "'" || nat_le 0x80 c) }
    ensures wider { (c : ℕ) → IsTrue (literals_as_written c) → IsTrue (is_literal_char c) }
{}

/// The operators of a template are those of RFC 6570, section 2.2.
pub fn operators_of_templates()
    ensures { (c : ℕ) → is_operator c ≡ operator_as_written c }
{}

/// The characters that stand for themselves in a pointer's token are those of the ranges that RFC 6901, section 3,
/// writes: U+10FFFF is the last character.
pub fn unescaped_of_pointers()
    ensures { (c : ℕ) → c ≤ 0x10FFFF → is_unescaped c ≡ unescaped_as_written c }
{}

/// The nine alternatives of `IPv6address` in RFC 3986, section 3.2.2, derive the texts that are IPv6 addresses by
/// their count of groups, and no other.
pub fn ipv6_in_nine_alternatives()
    ensures { (text : List ℕ) → Ipv6Address text ↔ IsIpv6 text }
{}
