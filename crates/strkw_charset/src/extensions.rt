//! The property Script_Extensions: the scripts that share a character (ScriptExtensions.txt of Unicode 18.0.0).

ghost use Rattle.std.specs.Prelude.{◌≡◌};
ghost use Rattle.std.specs.List.{list_any};
ghost use Rattle.ucd_table.specs.Steps.{IsRunsOf};
ghost use Rattle.ucd_script.specs.Script.{script_eq};
ghost use Rattle.ucd_script.specs.ScriptExtensions.{has_script_extension, listed_scripts as spec_listed_scripts};
ghost use Rattle.strkw_charset.specs.machine.ScriptLists.{list_scripts as spec_list_scripts, list_starts as spec_list_starts, list_number, list_numbered as spec_list_numbered, HasList};

use ucd_script::Script;
use ucd_script::Script::*;
use ucd_table::search;

/// Whether the scripts that the table lists for the character have this one, or where it lists none, its own script is
/// this one.
pub(crate) fn has_extension(script: Script, c: char) -> bool
    ensures { result ≡ has_script_extension script c }
{
    let listed = listed_scripts(c);
    if listed.is_empty() {
        return Script::for_char(c).number() == script.number();
    }
    is_among(script, listed)
}

fn is_among(script: Script, scripts: &[Script]) -> bool
    ensures { result ≡ list_any (λ other. script_eq other script) scripts.now }
{
    scripts
        .iter()
        .any(|other| other.number() == script.number())
}

// The scripts that the table lists for a character.
fn listed_scripts(c: char) -> &'static [Script]
    ensures { result.now ≡ spec_listed_scripts c }
{
    list_numbered(search(list_runs(), u32::from(c)) as usize)
}

// The scripts of the list with a number: from where it begins to where the next one does.
fn list_numbered(number: usize) -> &'static [Script]
    requires { HasList number }
    ensures { result.now ≡ spec_list_numbered number }
{
    let starts = list_starts();
    &list_scripts()[usize::from(starts[number])..usize::from(starts[number + 1])]
}

// The scripts of the lists of the table, each list once, one behind another.
fn list_scripts() -> &'static [Script]
    ensures { result.now ≡ spec_list_scripts }
{
    &SCRIPTS
}

// Of each list where its scripts begin, and where those of the last one end.
fn list_starts() -> &'static [u16]
    ensures { result.now ≡ spec_list_starts }
{
    &STARTS
}

/// Runs of code points for which the table has the same list.
pub(crate) fn list_runs() -> &'static [u32]
    ensures { IsRunsOf result.now list_number }
{
    &LIST_RUNS
}

#[rattlefmt::skip]
static SCRIPTS: [Script; 542] = [
    Avestan, Carian, Coptic, Duployan, Elbasan, Georgian, Glagolitic, GunjalaGondi, Gothic, Greek, Han, Latin,
    Lydian, Mahajani, OldPermic, Shavian, Bengali, Cyrillic, Devanagari, Latin, Lisu, Thai, Toto, Bopomofo, Latin,
    Latin, Lisu, Latin, Thai, Cherokee, Coptic, Cyrillic, Greek, Latin, OldPermic, Sunuwar, TaiLe, Cherokee,
    Cyrillic, Greek, Latin, Osage, Sunuwar, TaiLe, Todhri, Cherokee, Cyrillic, Latin, Tifinagh, Glagolitic, Latin,
    Sunuwar, Syriac, Thai, CaucasianAlbanian, Cherokee, Coptic, Cyrillic, Gothic, Greek, Latin, Osage, Syriac,
    Tifinagh, Todhri, Coptic, Elbasan, Glagolitic, Gothic, Katakana, Latin, Cyrillic, Greek, Latin, OldPermic,
    Tifinagh, Coptic, Duployan, Hebrew, Latin, OldPermic, Syriac, TaiLe, Tifinagh, Todhri, Armenian, Cyrillic,
    Duployan, Gothic, Greek, Hebrew, Latin, OldPermic, Syriac, TaiLe, Tifinagh, Latin, Tifinagh, Duployan, Latin,
    Syriac, Cherokee, Cyrillic, Latin, Osage, Cherokee, Latin, TaiLe, Latin, Sunuwar, Ethiopic, Latin, Cyrillic,
    Latin, Todhri, Greek, Latin, OldPermic, Todhri, Cherokee, Duployan, Katakana, Latin, Syriac, Tifinagh,
    Cherokee, Duployan, Latin, Syriac, Latin, Syriac, Latin, Sunuwar, Syriac, Cherokee, Latin, Syriac,
    CaucasianAlbanian, Cherokee, Gothic, Latin, Sunuwar, Syriac, Thai, Greek, Latin, Osage, CaucasianAlbanian,
    Latin, Todhri, Latin, Coptic, Greek, Cyrillic, OldPermic, Cyrillic, Glagolitic, Cyrillic, Latin, Armenian,
    Georgian, Glagolitic, Arabic, Garay, Nko, HanifiRohingya, Syriac, Thaana, Yezidi, Arabic, Syriac, Thaana,
    Adlam, Arabic, Garay, Nko, HanifiRohingya, Syriac, Thaana, Yezidi, Adlam, Arabic, Mandaic, Manichaean,
    OldUyghur, PsalterPahlavi, HanifiRohingya, Sogdian, Syriac, Arabic, Syriac, Arabic, Thaana, Yezidi, Arabic,
    HanifiRohingya, Bengali, Devanagari, Grantha, Gujarati, Gurmukhi, Kannada, Latin, Malayalam, Nandinagari, Newa,
    Oriya, Sharada, Tamil, Telugu, Tirhuta, Bengali, Devanagari, Grantha, Gujarati, Gurmukhi, Kannada, Latin,
    Malayalam, Newa, Oriya, Tamil, Telugu, Tirhuta, Bengali, Devanagari, Dogra, GunjalaGondi, MasaramGondi,
    Grantha, Gujarati, Gurmukhi, Kannada, Mahajani, Malayalam, Nandinagari, OlOnal, Oriya, Khudawadi, Sinhala,
    SylotiNagri, Takri, Tamil, Telugu, Tirhuta, Bengali, Devanagari, Dogra, GunjalaGondi, MasaramGondi, Grantha,
    Gujarati, GurungKhema, Gurmukhi, Kannada, Limbu, Mahajani, Malayalam, Nandinagari, OlOnal, Oriya, Khudawadi,
    Sinhala, SylotiNagri, Takri, Tamil, Telugu, Tirhuta, Devanagari, Dogra, Kaithi, Mahajani, Bengali, Chakma,
    SylotiNagri, Gurmukhi, Multani, Gujarati, Khojki, Kannada, Malayalam, Tamil, Telugu, Grantha, Tamil, Kannada,
    Nandinagari, TuluTigalari, Chakma, Myanmar, TaiLe, Georgian, Glagolitic, Latin, Runic, Buhid, Hanunoo,
    Tagbanwa, Tagalog, Mongolian, PhagsPa, Bengali, Devanagari, Grantha, Kannada, Devanagari, Devanagari, Grantha,
    Kannada, Bengali, Devanagari, Newa, Telugu, Tirhuta, Bengali, Devanagari, Telugu, Devanagari, Newa, Sharada,
    Bengali, Devanagari, Newa, Telugu, Devanagari, Sharada, Devanagari, Kannada, Malayalam, Oriya, Tamil, Telugu,
    Bengali, Devanagari, Devanagari, Newa, Tirhuta, Devanagari, Nandinagari, Newa, Bengali, Devanagari, Sharada,
    Devanagari, Newa, Bengali, Devanagari, Newa, Sharada, Bengali, Devanagari, Grantha, Kannada, Malayalam,
    Nandinagari, Oriya, Sinhala, Telugu, Tirhuta, TuluTigalari, Devanagari, Grantha, Devanagari, Grantha, Kannada,
    TuluTigalari, Bengali, Nandinagari, Cyrillic, Latin, Syriac, Syriac, Latin, Mongolian, PhagsPa, Adlam, Arabic,
    Carian, Georgian, Glagolitic, OldHungarian, Lycian, OldTurkic, Carian, Greek, OldHungarian,
    MeroiticHieroglyphs, Devanagari, Grantha, Latin, Coptic, Latin, Avestan, OldTurkic, Avestan, Carian, Georgian,
    OldHungarian, Kaithi, Lydian, Samaritan, Duployan, Adlam, Arabic, OldHungarian, Han, Tangut, Bopomofo, Hangul,
    Han, Hiragana, Katakana, Mongolian, Yi, Bopomofo, Hangul, Han, Hiragana, Katakana, Mongolian, PhagsPa, Yi,
    Bopomofo, Hangul, Han, Hiragana, Katakana, Han, Bopomofo, Hangul, Han, Hiragana, Katakana, Mongolian, Tibetan,
    Yi, Bopomofo, Hangul, Han, Hiragana, Katakana, Lisu, Mongolian, Tibetan, Yi, Bopomofo, Hangul, Han, Hiragana,
    Katakana, Yi, Bopomofo, Han, Hiragana, Katakana, Han, Hiragana, Katakana, Han, Latin, Devanagari, Dogra,
    Gujarati, Gurmukhi, Khojki, Kannada, Kaithi, Mahajani, Malayalam, Modi, Nandinagari, Sharada, Khudawadi, Takri,
    Tirhuta, TuluTigalari, Devanagari, Dogra, Gujarati, Gurmukhi, Khojki, Kannada, Kaithi, Mahajani, Modi,
    Nandinagari, Sharada, Khudawadi, Takri, Tirhuta, TuluTigalari, Devanagari, Dogra, Gujarati, Gurmukhi, Khojki,
    Kaithi, Mahajani, Modi, Khudawadi, Takri, Tirhuta, Devanagari, Dogra, Gujarati, Gurmukhi, Khojki, Kaithi,
    Mahajani, Modi, Sharada, Khudawadi, Takri, Tirhuta, Bengali, Devanagari, TuluTigalari, Devanagari, Tamil,
    KayahLi, Latin, Myanmar, Buginese, Javanese, Arabic, Nko, Arabic, Thaana, CyproMinoan, Cypriot, LinearB,
    Cypriot, LinearB, Cypriot, LinearA, LinearB, Arabic, Coptic, Manichaean, OldUyghur, ProtoCuneiform, Cuneiform,
];

// Of each list where it begins, and where the last one ends.
#[rattlefmt::skip]
static STARTS: [u16; 122] = [
    0, 0, 16, 23, 25, 27, 29, 37, 45, 49, 54, 65, 71, 76, 85, 96, 98, 101, 105, 108, 110, 112, 115, 119, 125, 129,
    131, 134, 137, 144, 145, 147, 150, 151, 153, 155, 157, 159, 162, 169, 172, 180, 189, 191, 194, 196, 211, 224,
    245, 268, 272, 275, 277, 279, 283, 285, 288, 291, 294, 295, 299, 301, 305, 306, 309, 314, 317, 320, 324, 326,
    332, 334, 337, 340, 343, 345, 349, 360, 362, 366, 367, 368, 371, 372, 375, 377, 383, 387, 390, 392, 394, 401,
    402, 405, 407, 414, 422, 427, 428, 436, 445, 451, 453, 455, 458, 460, 476, 491, 502, 514, 517, 519, 522, 524,
    526, 528, 531, 533, 536, 538, 540, 542,
];

// Of each run where it ends, times 2,048, and the place of its list.
#[rattlefmt::skip]
static LIST_RUNS: [u32; 289] = [
    0x0005B800, 0x0005C001, 0x0015E000, 0x0015E802, 0x00163800, 0x00164003, 0x00164800, 0x00166003,
    0x00166800, 0x00167004, 0x0016B800, 0x0016C005, 0x0016C800, 0x0016D003, 0x00180000, 0x00180806,
    0x00181007, 0x00181808, 0x00182009, 0x0018280A, 0x0018300B, 0x0018380C, 0x0018400D, 0x0018480E,
    0x0018500F, 0x00185810, 0x00186011, 0x00186812, 0x00187013, 0x00187814, 0x00188000, 0x00188813,
    0x00189015, 0x00189800, 0x0018A016, 0x00191800, 0x00192017, 0x00192818, 0x00193019, 0x00196800,
    0x0019701A, 0x00197819, 0x00198000, 0x0019881B, 0x0019901C, 0x001A1000, 0x001A181D, 0x001A2800,
    0x001A301D, 0x001AC000, 0x001AC81E, 0x001AF000, 0x001AF81F, 0x001B1800, 0x001B8020, 0x001BA000,
    0x001BB021, 0x00241800, 0x00242022, 0x00242823, 0x00243824, 0x00244023, 0x002C4800, 0x002C5025,
    0x00306000, 0x00306826, 0x0030D800, 0x0030E026, 0x0030E827, 0x0030F800, 0x00310028, 0x00320000,
    0x00320829, 0x00325800, 0x0032B02A, 0x00330000, 0x0033502B, 0x00338000, 0x0033882A, 0x0036A000,
    0x0036A82C, 0x004A8800, 0x004A902D, 0x004A982E, 0x004B2000, 0x004B282F, 0x004B3030, 0x004B8031,
    0x004F3000, 0x004F8032, 0x00533000, 0x00538033, 0x00573000, 0x00578034, 0x005C1800, 0x005C2035,
    0x005F3000, 0x005FA036, 0x00673000, 0x00678037, 0x00820000, 0x00825038, 0x0087D800, 0x0087E039,
    0x00B75800, 0x00B7703A, 0x00B9A800, 0x00B9B83B, 0x00C01000, 0x00C0203C, 0x00C02800, 0x00C0303C,
    0x00E68000, 0x00E6883D, 0x00E6903E, 0x00E6983D, 0x00E6A03F, 0x00E6A83E, 0x00E6B040, 0x00E6B841,
    0x00E6C042, 0x00E6C843, 0x00E6D044, 0x00E6D845, 0x00E6E03E, 0x00E6F044, 0x00E7003E, 0x00E70844,
    0x00E71046, 0x00E71847, 0x00E7483E, 0x00E75048, 0x00E75849, 0x00E7604A, 0x00E7683E, 0x00E7704B,
    0x00E7903E, 0x00E7984C, 0x00E7A04D, 0x00E7A84E, 0x00E7C04F, 0x00E7D04D, 0x00E7D850, 0x00EE0000,
    0x00EE101D, 0x00EFC000, 0x00EFC851, 0x00EFD000, 0x00EFD852, 0x01017800, 0x01018053, 0x01027800,
    0x01028054, 0x0102D000, 0x0102D855, 0x0102E800, 0x0102F056, 0x01078000, 0x01078857, 0x0170B800,
    0x0170C058, 0x01718000, 0x01718859, 0x0171905A, 0x0171E000, 0x0171E85B, 0x01720800, 0x0172105C,
    0x01721800, 0x01722023, 0x017F8000, 0x0180005D, 0x01800800, 0x0180105E, 0x0180185F, 0x01802060,
    0x01803000, 0x01803861, 0x01804000, 0x01805062, 0x01806063, 0x01809064, 0x01809800, 0x0180A060,
    0x0180E064, 0x01810060, 0x01815000, 0x01817065, 0x01818000, 0x01818860, 0x0181B066, 0x0181B800,
    0x0181C060, 0x0181E000, 0x0181F067, 0x01820061, 0x0184C800, 0x0184E866, 0x01850000, 0x01850866,
    0x0187D800, 0x0187E064, 0x0187E866, 0x018C8000, 0x018D0061, 0x018E0000, 0x018F3061, 0x018F7800,
    0x018F805D, 0x01910000, 0x01924061, 0x01940000, 0x01958861, 0x01960000, 0x01966061, 0x0197F800,
    0x01980061, 0x019AC000, 0x019B8861, 0x019BD800, 0x019C0061, 0x019F0000, 0x019FF861, 0x05337800,
    0x05338023, 0x05380000, 0x05384068, 0x05418000, 0x05419869, 0x0541B06A, 0x0541C06B, 0x0541C86C,
    0x0541D06B, 0x05478800, 0x0547906D, 0x05479800, 0x0547A06E, 0x05497000, 0x0549786F, 0x054E7800,
    0x054E8070, 0x07E9F000, 0x07EA0071, 0x07EF9000, 0x07EF9872, 0x07EFE800, 0x07EFF072, 0x07F22800,
    0x07F23860, 0x07FB0800, 0x07FB3064, 0x07FB8000, 0x07FB8866, 0x07FCF000, 0x07FD0066, 0x08080000,
    0x08081073, 0x08081874, 0x08083800, 0x0809A075, 0x0809B800, 0x080A0074, 0x08170000, 0x0817E076,
    0x08579000, 0x08579877, 0x08980800, 0x08981036, 0x08981800, 0x08982036, 0x0899D800, 0x0899E836,
    0x08FE8000, 0x08FE9036, 0x08FE9800, 0x08FEA036, 0x092A8000, 0x092C3878, 0x092C6000, 0x092C7078,
    0x092CD000, 0x092D4078, 0x0DE50000, 0x0DE5205B, 0x0E9B0000, 0x0E9B9061, 0x0F928000, 0x0F929061,
    0x88000000,
];
