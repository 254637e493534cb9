//! The pattern of mode `u` that a pattern for regular expressions without that flag is read as.

ghost use Rattle.std.specs.Prelude.{◌≡◌, ◌∷◌, ◌<◌, ℕ, List, [], IfOk, OnOk};
ghost use Rattle.std.specs.Char.{digit_char};
ghost use Rattle.std.specs.Str.{chars};
ghost use Rattle.std.specs.String.{string_bytes};
ghost use Rattle.strkw_ecma.specs.Lenient.{is_lenient as spec_is_lenient, is_strict as spec_is_strict};
ghost use Rattle.strkw_ecma.specs.Lenient.{is_open as spec_is_open, strict_form as spec_strict_form};
ghost use Rattle.strkw_ecma.specs.Lenient.{escape_form};
ghost use Rattle.strkw_ecma.specs.machine.StrictForm.{completed, appends};

use std::alloc::{AllocError, Global};

// A strict form in the making, and what stands before the next character: whether a class is open, and a backslash that
// is not yet in the text.
#[derive(Drop)]
struct Draft {
    text: String,
    in_class: bool,
    is_escaped: bool,
}

impl Draft {
    #[tactic(auto, using(crate::proofs::StrictForms::behind, crate::proofs::StrictForms::beyond, crate::proofs::StrictForms::opened))]
    fn push(&mut self, c: char) -> Result<(), AllocError>
        ensures { OnOk result ((rest : List ℕ)
            → completed self.new rest ≡ completed self.old (c ∷ rest)) }
    {
        if self.is_escaped {
            push_escape(&mut self.text, self.in_class, c)?;
            self.is_escaped = false;
        } else if c == '\\' {
            self.is_escaped = true;
        } else {
            push_char(&mut self.text, c)?;
            self.in_class = is_open(self.in_class, c);
        }
        Ok(())
    }

    #[tactic(auto, using(crate::proofs::StrictForms::ended))]
    fn end(mut self) -> Result<String, AllocError>
        ensures { IfOk result (λ form. chars (string_bytes form) ≡ completed self []) }
    {
        if self.is_escaped {
            push_char(&mut self.text, '\\')?;
        }
        Ok(self.text)
    }
}

/// The strict form of a pattern (`strict_form` of `specs/Lenient.antt`): in place of each backslash before a character
/// of ASCII that is no letter, no digit, none of `^ $ \ . * + ? ( ) [ ] { } | /` and in a class no `-`, it has `\x` and
/// the two digits of the character's number in base 16. The only error is out of memory.
pub(crate) fn strict_form(alloc: Global, pattern: &str) -> Result<String, AllocError>
    ensures { IfOk result (λ form.
        chars (string_bytes form) ≡ spec_strict_form (chars pattern.now)) }
{
    let mut draft = Draft {
        text: String::with_capacity(alloc, pattern.len())?,
        in_class: false,
        is_escaped: false,
    };
    for c in pattern.chars() {
        draft.push(c)?;
    }
    draft.end()
}

// Whether a class is open behind a character.
fn is_open(in_class: bool, c: char) -> bool
    ensures { result ≡ spec_is_open in_class c }
{
    match c {
        '[' => true,
        ']' => false,
        _ => in_class,
    }
}

// Appends what stands for a backslash and a character.
#[tactic(auto, using(crate::proofs::StrictForms::kept_form, crate::proofs::StrictForms::byte_form))]
fn push_escape(text: &mut String, in_class: bool, c: char) -> Result<(), AllocError>
    ensures { OnOk result (appends text.old text.new (escape_form in_class c)) }
{
    push_char(text, '\\')?;
    if !is_lenient(in_class, c) {
        push_char(text, c)?;
        return Ok(());
    }
    push_char(text, 'x')?;
    push_char(text, digit(u32::from(c) / 16))?;
    push_char(text, digit(u32::from(c) % 16))?;
    Ok(())
}

#[tactic(auto, using(crate::proofs::StrictForms::pushed))]
fn push_char(text: &mut String, c: char) -> Result<(), AllocError>
    ensures { OnOk result (appends text.old text.new (c ∷ [])) }
{
    text.push(c)
}

// The digit of a number in base 16.
fn digit(number: u32) -> char
    requires { number < 16 }
    ensures { result ≡ digit_char number }
{
    char::from_digit(number, 16).unwrap_or('0')
}

fn is_lenient(in_class: bool, c: char) -> bool
    ensures { result ≡ spec_is_lenient in_class c }
{
    c.is_ascii() && !c.is_ascii_alphanumeric() && !is_strict(in_class, c)
}

// Whether mode `u` has an escape of the character.
fn is_strict(in_class: bool, c: char) -> bool
    ensures { result ≡ spec_is_strict in_class c }
{
    match c {
        '^' | '$' | '\\' | '.' | '*' | '+' | '?' | '(' | ')' | '[' | ']' | '{' | '}' | '|' | '/' =>
            true,
        '-' => in_class,
        _ => false,
    }
}
