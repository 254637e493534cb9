//! Laws over the definitions that the calls of this crate name. Each function has an empty body, and its clause is the
//! law.
ghost use Rattle.std.specs.Prelude.{◌≡◌, ◌≤◌, ◌++◌, ℕ, List, [], ◌∷◌, length, codes};
ghost use Rattle.strkw_net.specs.HostName.{IsAsciiHostName, letters, longest_name};
ghost use Rattle.strkw_label.specs.HostName.{IsHostName};
ghost use Rattle.strkw_label.specs.Punycode.{AreDigitsOf, digits_of, punycode, encoded_part, SameUpToCase};

/// Under each bias exactly one list of digits stands for a delta.
pub fn digits_are_unique()
    ensures stand { (bias delta : ℕ) → AreDigitsOf bias delta (digits_of bias delta) }
    ensures only { (bias delta : ℕ) (digits : List ℕ) → AreDigitsOf bias delta digits
        → digits ≡ digits_of bias delta }
{}

/// A payload is, up to the letter case of its encoded part, the encoding of one text at most, at any length.
pub fn one_text_of_a_payload()
    ensures { (payload s t : List ℕ) → SameUpToCase payload (punycode s)
        → SameUpToCase payload (punycode t) → s ≡ t }
{}

/// The samples (B), (D), (L) and (S) of RFC 3492 section 7.1 are encoded as they stand there.
pub fn published_samples()
    ensures chinese { punycode (codes "他们为什么不说中文") ≡ codes "ihqwcrb4cv8a8dqg056pqjye" }
    ensures czech { punycode (codes "Pročprostěnemluvíčesky")
        ≡ codes "Proprostnemluvesky-uyb24dma41a" }
    ensures japanese { punycode (codes "3年B組金八先生") ≡ codes "3B-ww4c5e180e575a65lsy2b" }
    ensures ascii { punycode (codes "-> $1.00 <-") ≡ codes "-> $1.00 <--" }
{}

/// Texts with at most one character beyond ASCII: with none, a middle dot, the least and the greatest.
pub fn encodings_of_single_characters()
    ensures none { punycode (codes "abc") ≡ codes "abc-" }
    ensures middle_dot { punycode (codes "l·l") ≡ codes "ll-0ea" }
    ensures least { punycode (0x80 ∷ []) ≡ codes "a" }
    ensures greatest { punycode (letters 51 ++ 0x10FFFF ∷ []) ≡ letters 51 ++ codes "-6q1048b" }
{}

/// The last hyphen of a payload delimits, unless it is the first character.
pub fn delimiting_hyphens()
    ensures last { encoded_part (codes "-> $1.00 <--") ≡ [] }
    ensures first { encoded_part (codes "-a") ≡ codes "-a" }
{}

/// A host name is an ASCII host name.
pub fn host_names_are_ascii_host_names()
    ensures { (text : List ℕ) → IsHostName text → IsAsciiHostName text }
{}

/// `example.com` is a host name.
pub fn example_is_a_host_name()
    ensures { IsHostName (codes "example.com") }
{}

/// Host names of least and of greatest length: one letter, and labels of 63, 63, 63 and 61 letters.
pub fn ends_of_the_length_window_are_host_names()
    ensures shortest { IsHostName (codes "a") }
    ensures longest { IsHostName longest_name }
{}

/// A host name has 1 to 253 characters.
pub fn host_name_length()
    ensures { (text : List ℕ) → IsHostName text → (1 ≤ length text) × (length text ≤ 253) }
{}
