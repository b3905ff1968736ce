// Letters of other scripts than ASCII's, in UTF-8.

ghost use Rattle.std.specs.Prelude.{◌≡◌};
ghost use Rattle.hlc_svg.specs.Letters.{continues, is_among, is_letter, letter_at, letter_of, long_letter, three_letter, two_letter};

// Letters that have numbers one after the other.
#[derive(Clone, Copy)]
pub(crate) struct Letters {
    pub(crate) first: u32,
    pub(crate) last: u32,
}

// From here on numbers are no characters for a while.
pub(crate) const SURROGATES: u32 = 0xD800;

// The first character that has three bytes in UTF-8.
pub(crate) const FIRST_LONG: u32 = 0x800;

// The letters that are shown as they are: of Latin with IPA, Greek, Cyrillic, Vietnamese, Japanese with its marks of repetition,
// Bopomofo, Chinese and Korean. Each is a character of its own that is written from left to right: there are no marks that are
// put onto others, none of direction or control, and no letters of scripts that run to the left. (`laws::labels_are_harmless` says so in numbers.)
pub(crate) const LETTERS: [Letters; 19] = [
    Letters {
        first: 0xC0,
        last: 0xD6,
    },
    Letters {
        first: 0xD8,
        last: 0xF6,
    },
    Letters {
        first: 0xF8,
        last: 0x2AF,
    },
    Letters {
        first: 0x386,
        last: 0x386,
    },
    Letters {
        first: 0x388,
        last: 0x38A,
    },
    Letters {
        first: 0x38C,
        last: 0x38C,
    },
    Letters {
        first: 0x38E,
        last: 0x3A1,
    },
    Letters {
        first: 0x3A3,
        last: 0x3F5,
    },
    Letters {
        first: 0x400,
        last: 0x481,
    },
    Letters {
        first: 0x48A,
        last: 0x52F,
    },
    Letters {
        first: 0x1E00,
        last: 0x1EFF,
    },
    Letters {
        first: 0x3005,
        last: 0x3005,
    },
    Letters {
        first: 0x3041,
        last: 0x3096,
    },
    Letters {
        first: 0x30A1,
        last: 0x30FA,
    },
    Letters {
        first: 0x30FC,
        last: 0x30FE,
    },
    Letters {
        first: 0x3105,
        last: 0x312F,
    },
    Letters {
        first: 0x3400,
        last: 0x4DBF,
    },
    Letters {
        first: 0x4E00,
        last: 0x9FFF,
    },
    Letters {
        first: 0xAC00,
        last: 0xD7A3,
    },
];

// Whether a character is one of some letters.
#[tactic(auto, unfolding(crate::specs::Letters::is_among))]
fn is_among(some: &[Letters], code: u32) -> bool
    ensures { result ≡ is_among some.now code }
{
    some.iter()
        .any(|letters| letters.first <= code && code <= letters.last)
}

// Whether it is one of those that are shown as they are.
#[tactic(auto, unfolding(crate::specs::Letters::is_letter))]
fn is_letter(code: u32) -> bool
    ensures { result ≡ is_letter code }
{
    code < SURROGATES && is_among(&LETTERS, code)
}

// A character, if it is one of these.
#[tactic(auto, using(crate::proofs::Spelling::letter_is_scalar))]
fn letter(code: u32) -> Option<char>
    ensures { result ≡ letter_of code }
{
    if is_letter(code) {
        char::from_u32(code)
    } else {
        None
    }
}

// Whether a byte goes on with a character.
fn continues(byte: u8) -> bool
    ensures { result ≡ continues byte }
{
    128 <= byte && byte < 192
}

// The letter of two bytes.
fn two_letter(first: u8, second: u8) -> Option<char>
    ensures { result ≡ two_letter first second }
{
    if 194 <= first && first < 224 && continues(second) {
        letter(u32::from(first - 192) * 64 + u32::from(second - 128))
    } else {
        None
    }
}

// A letter that takes three bytes at least.
fn long_letter(code: u32) -> Option<char>
    ensures { result ≡ long_letter code }
{
    if FIRST_LONG <= code {
        letter(code)
    } else {
        None
    }
}

// The letter of three bytes.
fn three_letter(first: u8, second: u8, third: u8) -> Option<char>
    ensures { result ≡ three_letter first second third }
{
    if 224 <= first && first < 240 && continues(second) && continues(third) {
        long_letter(
            u32::from(first - 224) * 4096 + u32::from(second - 128) * 64 + u32::from(third - 128),
        )
    } else {
        None
    }
}

/// The letter with which some bytes begin, if they begin with one.
pub(crate) fn letter_at(bytes: &[u8]) -> Option<char>
    ensures { result ≡ letter_at bytes.now }
{
    match bytes {
        [first, second, ..] if *first < 224 => two_letter(*first, *second),
        [first, second, third, ..] => three_letter(*first, *second, *third),
        _ => None,
    }
}
