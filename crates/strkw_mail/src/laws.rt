//! Laws over the definitions that the calls of this crate name. Each function has an empty body, and its clauses are
//! the law.
ghost use Rattle.std.specs.Prelude.{◌≡◌, ◌↔◌, ℕ, List, codes};
ghost use Rattle.std.specs.Char.{is_ascii_alphanumeric};
ghost use Rattle.strkw_text.specs.Bounds.{DerivesAtLeast, DerivesAtMost};
ghost use Rattle.strkw_net.specs.HostName.{IsLabel, is_letter_digit_hyphen};
ghost use Rattle.strkw_mail.specs.AsWritten.{let_dig_as_written, ldh_as_written, atext_as_written, escaped_as_written, qtext_smtp_as_written, dcontent_as_written};
ghost use Rattle.strkw_mail.specs.Characters.{is_atext, is_escaped, is_qtext_smtp, is_dcontent};
ghost use Rattle.strkw_mail.specs.IdnMailbox.{IsIdnMailbox};
ghost use Rattle.strkw_mail.specs.Mailbox.{IsSubDomain, IsMailbox, longest_mailbox};

/// A mail address has 3 to 320 characters.
pub fn mailbox_length()
    ensures at_least { DerivesAtLeast 3 IsMailbox }
    ensures at_most { DerivesAtMost 320 IsMailbox }
{}

/// `joe.bloggs@example.com` is a mail address, `a@b` one of least length, and 64 letters, `@` and labels of 63, 63, 63
/// and 63 letters one of greatest.
pub fn mailbox_texts()
    ensures example { IsMailbox (codes "joe.bloggs@example.com") }
    ensures shortest { IsMailbox (codes "a@b") }
    ensures longest { IsMailbox longest_mailbox }
{}

/// A mail address is an internationalised one.
pub fn mailbox_is_idn_mailbox()
    ensures { (text : List ℕ) → IsMailbox text → IsIdnMailbox text }
{}

/// A label of a domain name is a label of a host name, as RFC 1034, section 3.5, has it with RFC 1123, section 2.1.
pub fn sub_domain_is_label()
    ensures { (text : List ℕ) → IsSubDomain text ↔ IsLabel text }
{}

/// The characters of an atom are those that RFC 5322, section 3.2.3, writes.
pub fn characters_of_atoms()
    ensures { (c : ℕ) → is_atext c ≡ atext_as_written c }
{}

/// The characters between quotes, and those behind a backslash there, are those of the ranges that RFC 5321, section
/// 4.1.2, writes.
pub fn characters_between_quotes()
    ensures qtext_smtp { (c : ℕ) → is_qtext_smtp c ≡ qtext_smtp_as_written c }
    ensures escaped { (c : ℕ) → is_escaped c ≡ escaped_as_written c }
{}

/// The characters of a label are those that RFC 5321, section 4.1.2, writes, and those behind a tag are those of the
/// ranges that its section 4.1.3 writes.
pub fn characters_of_domains()
    ensures let_dig { (c : ℕ) → is_ascii_alphanumeric c ≡ let_dig_as_written c }
    ensures ldh { (c : ℕ) → is_letter_digit_hyphen c ≡ ldh_as_written c }
    ensures dcontent { (c : ℕ) → is_dcontent c ≡ dcontent_as_written c }
{}
