//! A check that keeps a closure.
ghost use Rattle.std.specs.Prelude.{◌≡◌, ◌==◌, ◌%◌, Bool, length};
ghost use Rattle.std.specs.Str.{chars};

use std::alloc::{AllocError, Global};
use std::test::Fail;
use strkw_keywords::Format;
use strkw_report::char_count;

// Admits the texts of even length, by a closure that is kept with the fact about it.
#[derive(Drop)]
struct KeptTest {
    test: Box<dyn Fn(&str) -> bool>,
    ghost is_callable: { IsAlwaysCallable test },
    ghost tells_even: { (s : _) (b : Bool) → post test s b → b ≡ (length (chars s.now) % 2 == 0) },
}

impl Format for KeptTest {
    ghost admits = { λ _ text. length text % 2 == 0 };

    fn is_valid(&self, _alloc: Global, value: &str) -> Result<bool, AllocError> {
        Ok((self.test)(value))
    }
}

// A text, and whether it is admitted.
const TEXTS: &[(&str, bool)] = &[("", true), ("a", false), ("é", false), ("éa", true)];

// The first text of which a check says otherwise.
fn told_otherwise(alloc: Global, check: &KeptTest) -> Result<Option<&'static str>, AllocError> {
    for (text, admitted) in TEXTS {
        if check.is_valid(alloc, text)? != *admitted {
            return Ok(Some(*text));
        }
    }
    Ok(None)
}

// A check may keep a closure, and the fact that says what it answers.
#[test]
fn a_kept_test_is_asked(rt: HostRuntime) -> Result<(), Fail> {
    let test = Box::new(
        rt.alloc(),
        |s: &str| -> bool
            ensures { result ≡ (length (chars s.now) % 2 == 0) }
        { char_count(s) % 2 == 0 },
    )?;
    let check = KeptTest { test };
    match told_otherwise(rt.alloc(), &check)? {
        None => Ok(()),
        Some(text) => Err(Fail::new(text)),
    }
}
