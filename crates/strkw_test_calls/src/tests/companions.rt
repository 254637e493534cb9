//! Texts of each companion, with each growth refused: RFC 5321 section 4.1.2, ECMA-262 2024 section 22.2.1, RFC 6531
//! section 3.3, and RFC 5891 section 4.2.

use std::alloc::{AllocError, Global};
use std::test::Fail;
use strkw_companions::{Companion, companions_of};
use strkw_keywords::Format;
use strkw_report::Draft;

// A format of another standard, a text, and whether it is admitted.
struct Admitted {
    companion: Companion,
    text: &'static str,
    valid: bool,
}

const TEXTS: &[Admitted] = &[
    Admitted {
        companion: Companion::Email,
        text: "joe.bloggs@example.com",
        valid: true,
    },
    Admitted {
        companion: Companion::Email,
        text: "joe..bloggs@example.com",
        valid: false,
    },
    Admitted {
        companion: Companion::Email,
        text: "bücher@example.com",
        valid: false,
    },
    Admitted {
        companion: Companion::Regex,
        text: r"([abc])+\s+$",
        valid: true,
    },
    Admitted {
        companion: Companion::Regex,
        text: "^(abc]",
        valid: false,
    },
    Admitted {
        companion: Companion::Regex,
        text: r"^\S(|(.|\n)*\S)\Z",
        valid: false,
    },
    Admitted {
        companion: Companion::IdnEmail,
        text: "bücher@bücher.example",
        valid: true,
    },
    Admitted {
        companion: Companion::IdnEmail,
        text: "bücher@-bücher.example",
        valid: false,
    },
    Admitted {
        companion: Companion::IdnEmail,
        text: "joe..bloggs@example.com",
        valid: false,
    },
    Admitted {
        companion: Companion::IdnHostname,
        text: "bücher.example",
        valid: true,
    },
    Admitted {
        companion: Companion::IdnHostname,
        text: "-bücher.example",
        valid: false,
    },
    Admitted {
        companion: Companion::IdnHostname,
        text: "www.example.com",
        valid: true,
    },
];

fn is_admitted_so(alloc: Global, row: &Admitted) -> Result<bool, AllocError> {
    Ok(row.companion.is_valid(alloc, row.text)? == row.valid)
}

#[test]
fn companions_under_refusal(rt: HostRuntime) -> Result<(), Fail> {
    for row in TEXTS {
        if !is_admitted_so(rt.alloc(), row)? {
            return Err(Fail::new(row.text));
        }
    }
    Ok(())
}

// A draft, and how many companions it has.
const COUNTS: &[(Draft, usize)] = &[
    (Draft::Draft4, 2),
    (Draft::Draft6, 2),
    (Draft::Draft7, 4),
    (Draft::Draft202012, 4),
];

#[test]
fn drafts_have_their_companions(_rt: HostRuntime) -> Result<(), Fail> {
    for (draft, count) in COUNTS {
        if companions_of(*draft).len() != *count {
            return Err(Fail::new("a draft has other companions"));
        }
    }
    Ok(())
}
