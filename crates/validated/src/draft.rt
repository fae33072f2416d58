//! The form of a file.
use serde_json::Number;

// What is written as a number of 32 bits, and none where it is no such number.
#[derive(Clone, Copy, Debug)]
pub(crate) struct Numeral {
    pub(crate) number: Option<u32>,
}

// What a file says.
#[derive(Drop)]
pub(crate) struct Draft {
    pub(crate) aspas: Vec<DraftAspa>,
    pub(crate) roas: Option<Vec<DraftRoa>>,
}

// One attestation; without `expires` it never ends.
#[derive(Drop)]
pub(crate) struct DraftAspa {
    pub(crate) customer: Numeral,
    pub(crate) providers: Vec<Numeral>,
    pub(crate) expires: Option<Numeral>,
}

// One record of origin validation, with its prefix as it is written.
#[derive(Drop)]
pub(crate) struct DraftRoa {
    pub(crate) asn: Numeral,
    pub(crate) prefix: Vec<u8>,
    pub(crate) max: Option<Number>,
    pub(crate) expires: Option<Numeral>,
}
