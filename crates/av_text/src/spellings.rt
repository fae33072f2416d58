//! Laws of the spellings: the contract of each function is the laws, and its body does nothing.
ghost use Rattle.av_text.specs.Spellings.{OneNumberPerText, OneAddressPerText, OnePrefixPerText, OnePeerPerText, OneRolePerText, OneVerdictPerText};
ghost use Rattle.av_text.specs.Spellings.{NumbersAreTold, AddressesAreTold, PrefixesAreTold, RolesAreTold};
ghost use Rattle.av_text.specs.Spellings.{NumbersAreInLine, AddressesAreInLine, PrefixesAreInLine, PeersAreInLine, NamesAreInLine, RolesAreInLine, VerdictsAreInLine};

/// No two values share a spelling: no two numbers of 64 bits, addresses, prefixes, peers, roles or verdicts. A name is its own text.
pub fn spellings_differ()
    ensures numbers { OneNumberPerText }
    ensures addresses { OneAddressPerText }
    ensures prefixes { OnePrefixPerText }
    ensures peers { OnePeerPerText }
    ensures roles { OneRolePerText }
    ensures verdicts { OneVerdictPerText }
{}

/// Each text spells one value or none: a number of 32 bits, an address, a prefix, a role.
pub fn texts_spell_one_or_none()
    ensures numbers { NumbersAreTold }
    ensures addresses { AddressesAreTold }
    ensures prefixes { PrefixesAreTold }
    ensures roles { RolesAreTold }
{}

/// No value's text has a line feed, so what is written of it stays within its line.
#[tactic(auto, using(crate::proofs::AnySpellingLemmas::in_line))]
pub fn no_line_feeds()
    ensures numbers { NumbersAreInLine }
    ensures addresses { AddressesAreInLine }
    ensures prefixes { PrefixesAreInLine }
    ensures peers { PeersAreInLine }
    ensures names { NamesAreInLine }
    ensures roles { RolesAreInLine }
    ensures verdicts { VerdictsAreInLine }
{}
