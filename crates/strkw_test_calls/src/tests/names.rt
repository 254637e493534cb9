//! The calls of internationalised host names and mail addresses that allocate, as the tests of encodings beside them.

use std::test::Fail;
use strkw_label::{DerivedProperty, derived_property, is_valid_idn_hostname, is_valid_u_label};
use strkw_mail::is_valid_idn_email;

// A text, and whether it is what the table is of.
struct Judged {
    text: &'static str,
    valid: bool,
}

// A U-label, its A-label, a text that is not in NFC, one of which the quick check does not tell, no payload, a folding.
const HOST_NAMES: &[Judged] = &[
    Judged {
        text: "b\u{FC}cher.example",
        valid: true,
    },
    Judged {
        text: "xn--bcher-kva.example",
        valid: true,
    },
    Judged {
        text: "bu\u{308}cher",
        valid: false,
    },
    Judged {
        text: "\u{915}\u{93C}",
        valid: true,
    },
    Judged {
        text: "xn--bcher-kvb",
        valid: false,
    },
    Judged {
        text: "\u{390}",
        valid: true,
    },
];

#[test]
fn idn_host_names_under_refusal(rt: HostRuntime) -> Result<(), Fail> {
    for row in HOST_NAMES {
        if is_valid_idn_hostname(rt.alloc(), row.text)? != row.valid {
            return Err(Fail::new(row.text));
        }
    }
    Ok(())
}

// U-labels, their A-label, a text that is not in NFC, one that breaks the Bidi rule.
const U_LABELS: &[Judged] = &[
    Judged {
        text: "b\u{FC}cher",
        valid: true,
    },
    Judged {
        text: "\u{5D0}1",
        valid: true,
    },
    Judged {
        text: "xn--bcher-kva",
        valid: false,
    },
    Judged {
        text: "bu\u{308}cher",
        valid: false,
    },
    Judged {
        text: "\u{5D0}a",
        valid: false,
    },
];

#[test]
fn u_labels_under_refusal(rt: HostRuntime) -> Result<(), Fail> {
    for row in U_LABELS {
        if is_valid_u_label(rt.alloc(), row.text)? != row.valid {
            return Err(Fail::new(row.text));
        }
    }
    Ok(())
}

// Internationalised mail addresses with a U-label, an A-label and an address, and texts that are none.
const MAIL_ADDRESSES: &[Judged] = &[
    Judged {
        text: "j\u{FC}rgen@b\u{FC}cher.example",
        valid: true,
    },
    Judged {
        text: "\"j\u{FC}rgen\"@xn--bcher-kva.\u{390}",
        valid: true,
    },
    Judged {
        text: "j\u{FC}rgen@[127.0.0.1]",
        valid: true,
    },
    Judged {
        text: "a@b.bu\u{308}cher",
        valid: false,
    },
    Judged {
        text: "a@b\u{FC}cher.-",
        valid: false,
    },
];

#[test]
fn idn_mail_addresses_under_refusal(rt: HostRuntime) -> Result<(), Fail> {
    for row in MAIL_ADDRESSES {
        if is_valid_idn_email(rt.alloc(), row.text)? != row.valid {
            return Err(Fail::new(row.text));
        }
    }
    Ok(())
}

// U+0390 folds to three characters, which compose to it again.
#[test]
fn derived_property_under_refusal(rt: HostRuntime) -> Result<(), Fail> {
    if derived_property(rt.alloc(), '\u{390}')? != DerivedProperty::ProtocolValid {
        return Err(Fail::new("U+0390"));
    }
    Ok(())
}
